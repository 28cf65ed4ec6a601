//! The desk of a client's session.
ghost use Rattle.std.specs.Prelude.{◌≡◌};

use crate::session::above::tell_of_server;
use crate::{Desk, Link, LockDesk, Opener};
use lease::{Lease, Ticket};
use std::sync::Wait;

/// A node behind its lock, where a client's session hands its lease in. Where the next message on a
/// link that is closed is above the limit, it notifies the opener's observer. The stream of a link is a
/// type parameter without bounds that reads or writes, so no call is made on it here.
#[derive(Drop)]
pub(crate) struct SessionDesk<'a, O, L> {
    /// The node.
    pub desk: LockDesk<'a, Link<L>>,
    /// The opener.
    pub opener: &'a O,
}

impl<O: Opener, L: Drop> Desk<Link<L>> for SessionDesk<'_, O, L> {
    ghost use Rattle.std.specs.Prelude.{⊤};
    ghost use Rattle.node_threads.specs.Desks.{Tells};
    ghost use Rattle.node_threads.specs.declared.desk.call.DeskCall.TheVariants as call;

    ghost ready = { λ place. place.desk.caller.now.lock ≡ place.desk.shared.now };

    ghost told = { λ old call new. (new.desk.caller.ghost_name ≡ old.desk.caller.ghost_name)
        × Tells call old.desk.caller.now new.desk.caller.now };

    // What lies behind a lock isn't known.
    ghost took = { λ _ _ _. ⊤ };

    fn ended<R: Wait>(&mut self, rt: &R, ticket: Ticket) {
        self.desk.ended(rt, ticket);
    }

    fn failed<R: Wait>(&mut self, rt: &R, ticket: Ticket) {
        self.desk.failed(rt, ticket);
    }

    fn release<R: Wait>(&mut self, rt: &R, lease: Lease<Link<L>>)
        requires ready { self.old.desk.caller.now.lock ≡ self.old.desk.shared.now }
        ensures told { (self.new.desk.caller.ghost_name ≡ self.old.desk.caller.ghost_name)
            × Tells (call.Release lease.details) self.old.desk.caller.now self.new.desk.caller.now }
        ensures took { ⊤ }
    {
        self.desk.release(rt, lease);
    }

    fn close<R: Wait>(&mut self, rt: &R, lease: Lease<Link<L>>)
        requires ready { self.old.desk.caller.now.lock ≡ self.old.desk.shared.now }
        ensures told { (self.new.desk.caller.ghost_name ≡ self.old.desk.caller.ghost_name)
            × Tells (call.Close lease.details) self.old.desk.caller.now self.new.desk.caller.now }
        ensures took { ⊤ }
    {
        let mut lease = lease;
        let database = lease.details().at.database;
        tell_of_server(self.opener, database, lease.stream_mut());
        self.desk.close(rt, lease);
    }
}
