//! The links that clients ask for, open, and give back.
ghost use Rattle.std.specs.Prelude.{◌≡◌};
ghost use Rattle.link_pool.specs.Said.{acquire_said, up_said, release_said, close_said};
ghost use Rattle.link_pool.specs.Streams.{AcquireStreams, UpStreams, ReleaseStreams, CloseStreams};
ghost use Rattle.node_core.specs.declared.exchange.Exchange.TheVariants as call;
ghost use Rattle.node_core.specs.NodeStep.{IsStep};

use super::NodeCore;
use lease::{Lease, Pass, Permit};
use link_pool::{AcquireReply, CloseReply, ReleaseReply, UpFailedReply, UpReply};
use pg_ids::ServerKey;

impl<S: Drop> NodeCore<S> {
    /// The client of a pass asks for a link of its database. If its wait was cancelled, it gets
    /// `Cancelled`, once; otherwise the link that it gave back, if that is still quarantined, even
    /// where others wait; otherwise an idle one, if nobody waits before it; otherwise the leave to
    /// open one, if the pool isn't full; otherwise it waits.
    pub fn acquire(&mut self, pass: &Pass) -> AcquireReply<Lease<S>, Permit>
        ensures step { IsStep (call.Acquire pass.now (acquire_said result)) self.old self.new }
        ensures streams { AcquireStreams result self.old.stored self.new.stored }
    {
        let pass = pass.details();
        let Some(client) = self.client_of(&pass) else {
            return AcquireReply::Stale;
        };
        self.links.acquire(pass.key.slot(), client.database)
    }

    /// A link is open, over this stream, and its server cancels by this key: the permit's client
    /// has it.
    pub fn up(&mut self, permit: Permit, stream: S, key: ServerKey) -> UpReply<Lease<S>, Permit, S>
        ensures step { IsStep (call.Up permit key (up_said result)) self.old self.new }
        ensures streams { UpStreams stream result self.old.stored self.new.stored }
    {
        self.known();
        self.links.up(permit, stream, key)
    }

    /// A link couldn't be opened: its place is free.
    pub fn up_failed(&mut self, permit: Permit) -> UpFailedReply
        ensures step { IsStep (call.UpFailed permit result) self.old self.new }
        ensures streams { self.new.stored ≡ self.old.stored }
    {
        self.links.up_failed(permit)
    }

    /// A client gives its link back.
    pub fn release(&mut self, lease: Lease<S>) -> ReleaseReply<S>
        ensures step { IsStep (call.Release lease.details (release_said result)) self.old self.new }
        ensures streams { ReleaseStreams lease result self.old.stored self.new.stored }
    {
        self.known();
        self.links.release(lease)
    }

    /// A link leaves the pool.
    pub fn close(&mut self, lease: Lease<S>) -> CloseReply<S>
        ensures step { IsStep (call.Close lease.details (close_said result)) self.old self.new }
        ensures streams { CloseStreams lease result self.old.stored self.new.stored }
    {
        self.links.close(lease)
    }
}
