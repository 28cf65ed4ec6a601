//! Clients that ask for a link, wait for one, and leave.
ghost use Rattle.std.specs.Prelude.{◌≡◌, ◌≢◌, ◌<◌, ℕ, true, false, Some, None, IfSome, IfNone, length, slice_get};
ghost use Rattle.lease.specs.declared.link_place.LinkPlace.{LinkPlace as LinkPlaceOf};
ghost use Rattle.link_pool.specs.declared.place.Claim.TheVariants as claim;
ghost use Rattle.link_pool.specs.declared.place.Place.TheVariants as place;
ghost use Rattle.slot_queues.specs.Queues.{behind};
ghost use Rattle.link_pool.specs.Pool.{place_at, queue_at, with_queue, with_claim, unqueued, departed, queued};
ghost use Rattle.link_pool.specs.OnePlace.{IsPool};
ghost use Rattle.link_pool.specs.PoolStep.{is_holding, may_ask, is_first, nth_of, NoIdle, NoneFree, IsNextFree, is_idle, Gets, GetsBack, AcquireStep, LeaveStep, UnwaitStep};
ghost use Rattle.link_pool.specs.Turns.{IsTurn};
ghost use Rattle.link_pool.specs.Streams.{Takes, AcquireStreams};
ghost use Rattle.link_pool.specs.Said.{acquire_said};

use super::Pool;
use crate::place::Claim;
use crate::replies::{AcquireReply, LeaveReply};
use lease::{Lease, LinkPlace, Permit, PermitRecord};
use pg_ids::{DatabaseNo, SlotNo};

impl<S: Drop> Pool<S> {
    // Whether the client of a slot has a link or a permit.
    fn is_holding(&self, slot: SlotNo) -> bool
        ensures value { result ≡ is_holding (slice_get self.now.view.claims slot) }
        ensures whole { IsPool self.now.view }
    {
        match self.claim(slot) {
            Some(claim) => claim.is_holding(),
            None => false,
        }
    }

    // The client of a slot no longer waits, if it did.
    fn leave_queue(&mut self, slot: SlotNo)
        ensures view { self.new.view ≡ unqueued self.old.view slot }
        ensures streams { self.new.stored ≡ self.old.stored }
        ensures whole { IsPool self.new.view }
    {
        if let Some(Claim::Waiting(_)) = self.claim(slot) {
            self.queues.remove(slot);
            self.claims[slot.get() as usize] = Claim::Nothing;
        }
    }

    // The client of a slot waits, behind all others of its database.
    fn join_queue(&mut self, slot: SlotNo, database: DatabaseNo)
        requires slot { slot < length self.old.view.claims }
        requires nothing { slice_get self.old.view.claims slot ≡ Some claim.Nothing }
        requires database { database < length self.old.view.pools }
        ensures view { self.new.view
            ≡ with_claim (with_queue self.old.view database (behind slot)) slot
            (claim.Waiting database) }
        ensures streams { self.new.stored ≡ self.old.stored }
        ensures whole { IsPool self.new.view }
    {
        self.queues.push(database.get() as usize, slot);
        self.claims[slot.get() as usize] = Claim::Waiting(database);
    }

    // What the client of a slot has is this from now on. No place and no queue changes.
    fn set_claim(&mut self, slot: SlotNo, claim: Claim)
        requires slot { slot < length self.old.view.claims }
        requires whole { IsPool (with_claim self.old.view slot claim) }
        ensures view { self.new.view ≡ with_claim self.old.view slot claim }
        ensures streams { self.new.stored ≡ self.old.stored }
        ensures whole { IsPool self.new.view }
    {
        self.claims[slot.get() as usize] = claim;
    }

    // Whether the wait of a slot's client was cancelled. If it was, then that is forgotten.
    fn take_cancelled(&mut self, slot: SlotNo) -> bool
        ensures cancelled { result ≡ true
            → (slice_get self.old.view.claims slot ≡ Some claim.Cancelled)
            × (self.new.view ≡ with_claim self.old.view slot claim.Nothing) }
        ensures not_cancelled { result ≡ false
            → (slice_get self.old.view.claims slot ≢ Some claim.Cancelled) × (self.new ≡ self.old) }
        ensures streams { self.new.stored ≡ self.old.stored }
        ensures whole { IsPool self.new.view }
    {
        let Some(Claim::Cancelled) = self.claim(slot) else {
            return false;
        };
        self.set_claim(slot, Claim::Nothing);
        true
    }

    /// Cancels the wait of a slot's client, if it waits: it leaves the queue, and its next
    /// `acquire` returns `Cancelled`.
    pub fn unwait(&mut self, slot: SlotNo)
        ensures step { UnwaitStep slot self.old.view self.new.view }
        ensures streams { self.new.stored ≡ self.old.stored }
        ensures whole { IsPool self.new.view }
    {
        if let Some(Claim::Waiting(_)) = self.claim(slot) {
            self.leave_queue(slot);
            self.set_claim(slot, Claim::Cancelled);
        }
    }

    // The place of the link that a slot's client gave back, if that is still quarantined.
    fn gave(&self, slot: SlotNo) -> Option<LinkPlace>
        ensures gave { IfSome result
            (λ at. slice_get self.now.view.claims slot ≡ Some (claim.Gave at)) }
        ensures none { IfNone result
            ((at : LinkPlaceOf) → slice_get self.now.view.claims slot ≢ Some (claim.Gave at)) }
        ensures whole { IsPool self.now.view }
    {
        let Some(claim) = self.claim(slot) else {
            return None;
        };
        claim.gave()
    }

    // The client of a slot, which gave back the link of this place, leaves: the link stays
    // quarantined.
    fn leave_link(&mut self, slot: SlotNo, at: &LinkPlace)
        requires gave { slice_get self.old.view.claims slot ≡ Some (claim.Gave at.now) }
        ensures view { self.new.view ≡ departed self.old.view slot }
        ensures streams { self.new.stored ≡ self.old.stored }
        ensures whole { IsPool self.new.view }
    {
        let pool = &mut self.pools[at.database.get() as usize];
        pool.forget_giver(at.index);
        self.claims[slot.get() as usize] = Claim::Nothing;
    }

    // The client of a slot gets back the link that it gave back, if that is still quarantined.
    fn take_back(&mut self, slot: SlotNo) -> Option<Lease<S>>
        ensures got { IfSome result
            (λ lease. GetsBack slot lease.details self.old.view self.new.view) }
        ensures stream { IfSome result
            (λ lease. Takes lease.details.at lease.stream self.old.stored self.new.stored) }
        ensures none { IfNone result
            ((at : LinkPlaceOf) → slice_get self.old.view.claims slot ≢ Some (claim.Gave at)) }
        ensures same { IfNone result (self.new ≡ self.old) }
        ensures whole { IsPool self.new.view }
    {
        let Some(at) = self.gave(slot) else {
            return None;
        };
        let pool = &mut self.pools[at.database.get() as usize];
        let lease = pool.take_back(at.index, slot);
        self.claims[slot.get() as usize] = Claim::Link(at);
        lease
    }

    /// The client of a slot leaves, unless it has a link or a permit. It no longer waits, a
    /// cancelled wait is forgotten, and it can't get back a link that it gave back and that is
    /// still quarantined.
    pub fn leave(&mut self, slot: SlotNo) -> LeaveReply
        ensures step { LeaveStep slot result self.old.view self.new.view }
        ensures streams { self.new.stored ≡ self.old.stored }
        ensures whole { IsPool self.new.view }
    {
        if self.is_holding(slot) {
            return LeaveReply::Holding;
        }
        if self.take_cancelled(slot) {
            return LeaveReply::Left;
        }
        match self.gave(slot) {
            Some(at) => self.leave_link(slot, &at),
            None => self.leave_queue(slot),
        }
        LeaveReply::Left
    }

    // The client of a slot, which has nothing or waits, gets an idle link of the database, if one
    // is idle.
    fn take_idle(&mut self, slot: SlotNo, database: DatabaseNo) -> Option<Lease<S>>
        requires slot { slot < length self.old.view.claims }
        requires database { database < length self.old.view.pools }
        requires free { may_ask (slice_get self.old.view.claims slot) ≡ true }
        ensures got { IfSome result
            (λ lease. Gets slot database lease.details self.old.view self.new.view) }
        ensures stream { IfSome result
            (λ lease. Takes lease.details.at lease.stream self.old.stored self.new.stored) }
        ensures none { IfNone result (NoIdle database self.old.view) }
        ensures same { IfNone result (self.new ≡ self.old) }
        ensures whole { IsPool self.new.view }
    {
        let pool = &mut self.pools[database.get() as usize];
        let Some(lease) = pool.take_idle(slot) else {
            return None;
        };
        self.queues.remove(slot);
        self.claims[slot.get() as usize] = Claim::Link(lease.details().at);
        Some(lease)
    }

    // The free place of the database that is taken next, if one is free.
    fn next_free(&self, database: DatabaseNo) -> Option<LinkPlace>
        requires { database < length self.now.view.pools }
        ensures free { IfSome result
            (λ at. IsNextFree self.now.view at × (at.database ≡ database)) }
        ensures none { IfNone result (NoneFree database self.now.view) }
        ensures whole { IsPool self.now.view }
    {
        let pool = &self.pools[database.get() as usize];
        let Some(index) = pool.next_free() else {
            return None;
        };
        Some(LinkPlace { database, index })
    }

    // The place of the idle link of the database that is got next, if one is idle.
    fn next_idle(&self, database: DatabaseNo) -> Option<LinkPlace>
        requires { database < length self.now.view.pools }
        ensures idle { IfSome result (λ at. (is_idle (place_at self.now.view at) ≡ true)
            × (at.database ≡ database)) }
        ensures none { IfNone result (NoIdle database self.now.view) }
    {
        let pool = &self.pools[database.get() as usize];
        let Some(index) = pool.next_idle() else {
            return None;
        };
        Some(LinkPlace { database, index })
    }

    /// The slot whose turn it is at a database: the first that waits for it, if a link is idle or a
    /// place is free. Its client's next `acquire` doesn't wait.
    pub fn turn(&self, database: DatabaseNo) -> Option<SlotNo>
        requires { database < length self.now.view.pools }
        ensures { IsTurn database result self.now.view }
    {
        let Some(first) = self.queues.first(database.get() as usize) else {
            return None;
        };
        if self.next_idle(database).is_none() && self.next_free(database).is_none() {
            return None;
        }
        Some(first)
    }

    // Whether nobody waits before the slot for the database.
    fn is_first(&self, slot: SlotNo, database: DatabaseNo) -> bool
        requires { database < length self.now.view.pools }
        ensures { result ≡ is_first slot (queue_at self.now.view database) }
    {
        match self.queues.first(database.get() as usize) {
            Some(first) => first == slot,
            None => true,
        }
    }

    // The client of a slot waits, if it doesn't yet.
    fn wait(&mut self, slot: SlotNo, database: DatabaseNo)
        requires slot { slot < length self.old.view.claims }
        requires database { database < length self.old.view.pools }
        requires asks { may_ask (slice_get self.old.view.claims slot) ≡ true }
        ensures view { self.new.view ≡ queued self.old.view slot database }
        ensures streams { self.new.stored ≡ self.old.stored }
        ensures whole { IsPool self.new.view }
    {
        if let Some(Claim::Nothing) = self.claim(slot) {
            self.join_queue(slot, database);
        }
    }

    // The client of a slot, which has nothing or waits, gets an idle link of the database, if
    // nobody waits before it; else a permit, if a place is free; else it waits.
    fn ask(&mut self, slot: SlotNo, database: DatabaseNo) -> AcquireReply<Lease<S>, Permit>
        requires slot { slot < length self.old.view.claims }
        requires database { database < length self.old.view.pools }
        requires asks { may_ask (slice_get self.old.view.claims slot) ≡ true }
        ensures step { AcquireStep slot database (acquire_said result) self.old.view self.new.view }
        ensures streams { AcquireStreams result self.old.stored self.new.stored }
        ensures whole { IsPool self.new.view }
    {
        if !self.is_first(slot, database) {
            self.wait(slot, database);
            return AcquireReply::Waiting;
        }
        if let Some(lease) = self.take_idle(slot, database) {
            return AcquireReply::Got(lease);
        }
        let Some(at) = self.next_free(database) else {
            self.wait(slot, database);
            return AcquireReply::Waiting;
        };
        let Some(number) = self.next_permit.give() else {
            return AcquireReply::Exhausted;
        };
        self.leave_queue(slot);
        let permit = Permit::new(PermitRecord {
            peer: self.peer,
            incarnation: self.incarnation,
            number,
            at,
        });
        self.keep(slot, &permit.details());
        AcquireReply::Open(permit)
    }

    /// The client of a slot asks for a link of a database. `Cancelled` is returned first, once, if
    /// its wait was cancelled. Otherwise the client gets the link that it gave back, if that is
    /// still quarantined, even if others wait; an idle one, if nobody waits before it; a permit, if
    /// no link is idle and a place is free. Otherwise it waits, or goes on waiting where it does.
    pub fn acquire(&mut self, slot: SlotNo, database: DatabaseNo) -> AcquireReply<Lease<S>, Permit>
        requires slot { slot < length self.old.view.claims }
        requires database { database < length self.old.view.pools }
        ensures step { AcquireStep slot database (acquire_said result) self.old.view self.new.view }
        ensures streams { AcquireStreams result self.old.stored self.new.stored }
        ensures whole { IsPool self.new.view }
    {
        if self.is_holding(slot) {
            return AcquireReply::Holding;
        }
        if self.take_cancelled(slot) {
            return AcquireReply::Cancelled;
        }
        match self.take_back(slot) {
            Some(lease) => AcquireReply::Got(lease),
            None => self.ask(slot, database),
        }
    }
}
