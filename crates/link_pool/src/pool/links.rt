//! Links that open, that are given back, and that leave.
ghost use Rattle.std.specs.Prelude.{◌≡◌, IfSome, IfNone};
ghost use Rattle.link_pool.specs.OnePlace.{IsPool};
ghost use Rattle.link_pool.specs.PoolStep.{UpStep, UpFailedStep, ReleaseStep, CloseStep, IsOpen, StalePermit, IsHeld, StaleLease};
ghost use Rattle.link_pool.specs.Streams.{UpStreams, ReleaseStreams, CloseStreams};
ghost use Rattle.link_pool.specs.Said.{up_said, release_said, close_said};

use super::Pool;
use crate::entry::{Entry, Held};
use crate::place::Place;
use crate::replies::{CloseReply, ReleaseReply, UpFailedReply, UpReply};
use lease::{Lease, LinkRecord, Permit, PermitRecord};
use pg_ids::{LinkNo, ServerKey, SlotNo};
use quarantine::{Hold, HoldState};

impl<S: Drop> Pool<S> {
    // The client for which a permit's place is kept.
    fn opener(&self, permit: &PermitRecord) -> Option<SlotNo>
        ensures kept { IfSome result (λ slot. IsOpen permit.now slot self.now.view) }
        ensures stale { IfNone result (StalePermit permit.now self.now.view) }
        ensures whole { IsPool self.now.view }
    {
        let Some(Place::Open(open, slot)) = self.place(permit.at) else {
            return None;
        };
        if open == *permit { Some(slot) } else { None }
    }

    // The link of a lease, and its client.
    #[inline(always)]
    fn held(&self, lease: &LinkRecord) -> Option<Held>
        ensures held { IfSome result
            (λ found. IsHeld lease.now found.link found.slot self.now.view) }
        ensures stale { IfNone result (StaleLease lease.now self.now.view) }
        ensures whole { IsPool self.now.view }
    {
        let Some(pool) = self.pools.get(lease.at.database.get() as usize) else {
            return None;
        };
        pool.held(lease)
    }

    /// A link is open, over this stream and with this key: its client has it.
    pub fn up(&mut self, permit: Permit, stream: S, key: ServerKey) -> UpReply<Lease<S>, Permit, S>
        ensures step { UpStep permit key (up_said result) self.old.view self.new.view }
        ensures streams { UpStreams stream result self.old.stored self.new.stored }
        ensures whole { IsPool self.new.view }
    {
        let details = permit.details();
        let Some(slot) = self.opener(&details) else {
            permit.spend();
            return UpReply::Stale(stream);
        };
        let Some(number) = self.next_link.give() else {
            return UpReply::Exhausted(permit, stream);
        };
        let lease = permit.up(LinkNo(number), stream);
        let held = Entry::Held {
            details: lease.details(),
            key,
            hold: Hold::new(),
            slot,
        };
        self.change(&details.at, slot, held);
        UpReply::Up(lease)
    }

    /// A link couldn't be opened: its place is free.
    pub fn up_failed(&mut self, permit: Permit) -> UpFailedReply
        ensures step { UpFailedStep permit result self.old.view self.new.view }
        ensures streams { self.new.stored ≡ self.old.stored }
        ensures whole { IsPool self.new.view }
    {
        let permit = permit.spend();
        let Some(slot) = self.opener(&permit) else {
            return UpFailedReply::Stale;
        };
        self.change(&permit.at, slot, Entry::Free);
        UpFailedReply::Freed
    }

    /// A client gives its link back.
    pub fn release(&mut self, lease: Lease<S>) -> ReleaseReply<S>
        ensures step { ReleaseStep lease.details (release_said result) self.old.view self.new.view }
        ensures streams { ReleaseStreams lease result self.old.stored self.new.stored }
        ensures whole { IsPool self.new.view }
    {
        let details = lease.details();
        let Some(Held { link, slot }) = self.held(&details) else {
            return ReleaseReply::Stale(lease.close());
        };
        match link.hold.state() {
            HoldState::Clear => {
                let idle = Entry::Idle {
                    link: lease.idle(),
                    key: link.key,
                };
                self.change(&details.at, slot, idle);
                ReleaseReply::Idle
            }
            HoldState::Waiting(_) => {
                let quarantined = Entry::Quarantined {
                    link: lease.quarantine(),
                    key: link.key,
                    hold: link.hold,
                    giver: Some(slot),
                };
                self.change(&details.at, slot, quarantined);
                ReleaseReply::Quarantined
            }
            HoldState::Condemned => {
                self.change(&details.at, slot, Entry::Free);
                ReleaseReply::Closed(lease.close())
            }
        }
    }

    /// A link leaves the pool.
    pub fn close(&mut self, lease: Lease<S>) -> CloseReply<S>
        ensures step { CloseStep lease.details (close_said result) self.old.view self.new.view }
        ensures streams { CloseStreams lease result self.old.stored self.new.stored }
        ensures whole { IsPool self.new.view }
    {
        let details = lease.details();
        let stream = lease.close();
        let Some(Held { link: _, slot }) = self.held(&details) else {
            return CloseReply::Stale(stream);
        };
        self.change(&details.at, slot, Entry::Free);
        CloseReply::Closed(stream)
    }
}
