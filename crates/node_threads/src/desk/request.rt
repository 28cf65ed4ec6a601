//! A desk for a cancel request, with the connection that the request came on.
ghost use Rattle.std.specs.Prelude.{◌≡◌};
ghost use Rattle.peer_forward.specs.Finishing.{Finishes};
ghost use Rattle.node_threads.specs.declared.desk.call.DeskCall.TheVariants as call;
ghost use Rattle.peer_forward.specs.declared.verdict.Verdict.{Verdict};

use crate::Desk;
use lease::{Lease, Ticket};
use peer_forward::{Requester, Verdict, WriteCalls, finish};
use std::sync::Wait;

/// A desk to which a cancel request is reported, and at which its requester waits: so contracts see
/// in which order the desk is called and the requester's connection is finished.
pub trait RequestDesk<S>: Desk<S> {
    /// How a finished connection changes the desk.
    ghost finished: { Self → Verdict → Self → Type 0 };

    /// Finishes the connection that the request came on.
    fn finish(&mut self, verdict: Verdict)
        ensures finished { finished self.old verdict self.new };
}

/// A desk, and the connection that a cancel request came on.
#[derive(Drop)]
pub struct Requested<'a, D, Q> {
    /// The desk.
    pub desk: D,
    /// The requester's connection.
    pub requester: &'a mut Q,
}

impl<S, D: Desk<S>, Q: WriteCalls + Requester> Desk<S> for Requested<'_, D, Q> {
    ghost use Rattle.std.specs.Prelude.{◌≡◌};

    ghost ready = { λ place. D.ready place.desk };

    ghost told = { λ old call new. D.told old.desk call new.desk
        × (new.requester.now ≡ old.requester.now)
        × (new.requester.ghost_name ≡ old.requester.ghost_name) };

    ghost took = { λ old stream new. D.took old.desk stream new.desk };

    fn ended<R: Wait>(&mut self, rt: &R, ticket: Ticket) {
        self.desk.ended(rt, ticket);
    }

    fn failed<R: Wait>(&mut self, rt: &R, ticket: Ticket) {
        self.desk.failed(rt, ticket);
    }

    fn release<R: Wait>(&mut self, rt: &R, lease: Lease<S>)
        requires ready { D.ready self.old.desk }
        ensures told { D.told self.old.desk (call.Release lease.details) self.new.desk
            × (self.new.requester.now ≡ self.old.requester.now)
            × (self.new.requester.ghost_name ≡ self.old.requester.ghost_name) }
        ensures took { D.took self.old.desk lease.stream self.new.desk }
    {
        self.desk.release(rt, lease);
    }

    fn close<R: Wait>(&mut self, rt: &R, lease: Lease<S>)
        requires ready { D.ready self.old.desk }
        ensures told { D.told self.old.desk (call.Close lease.details) self.new.desk
            × (self.new.requester.now ≡ self.old.requester.now)
            × (self.new.requester.ghost_name ≡ self.old.requester.ghost_name) }
        ensures took { D.took self.old.desk lease.stream self.new.desk }
    {
        self.desk.close(rt, lease);
    }
}

impl<S, D: Desk<S>, Q: WriteCalls + Requester> RequestDesk<S> for Requested<'_, D, Q> {
    ghost finished = { λ old verdict new. (new.desk ≡ old.desk)
        × Finishes Q.wrote Q.takes old.requester.now verdict new.requester.now
        × (new.requester.ghost_name ≡ old.requester.ghost_name) };

    fn finish(&mut self, verdict: Verdict) {
        finish(self.requester, verdict);
    }
}
