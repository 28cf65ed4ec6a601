//! A node behind its lock as a desk.
ghost use Rattle.std.specs.Prelude.{◌≡◌};

use crate::Desk;
use lease::{Lease, Ticket};
use locked_node::{Caller, Shared};
use std::sync::Wait;

/// A node behind its lock, with a caller of that lock: each call of the desk is a step of the node.
/// The stream that a step hands back is dropped, which closes it.
#[derive(Drop)]
pub struct LockDesk<'a, S> {
    /// The node.
    pub shared: &'a Shared<S>,
    /// Who makes the steps.
    pub caller: &'a mut Caller<S>,
}

impl<S: Drop> Desk<S> for LockDesk<'_, S> {
    ghost use Rattle.std.specs.Prelude.{⊤};
    ghost use Rattle.node_threads.specs.Desks.{Tells};
    ghost use Rattle.node_threads.specs.declared.desk.call.DeskCall.TheVariants as call;

    ghost ready = { λ desk. desk.caller.now.lock ≡ desk.shared.now };

    ghost told = { λ old call new. (new.caller.ghost_name ≡ old.caller.ghost_name)
        × Tells call old.caller.now new.caller.now };

    // What lies behind a lock isn't known.
    ghost took = { λ _ _ _. ⊤ };

    fn ended<R: Wait>(&mut self, rt: &R, ticket: Ticket) {
        let _reply = self.shared.ended(rt, self.caller, ticket);
    }

    fn failed<R: Wait>(&mut self, rt: &R, ticket: Ticket) {
        let _reply = self.shared.failed(rt, self.caller, ticket);
    }

    fn release<R: Wait>(&mut self, rt: &R, lease: Lease<S>)
        requires ready { self.old.caller.now.lock ≡ self.old.shared.now }
        ensures told { (self.new.caller.ghost_name ≡ self.old.caller.ghost_name)
            × Tells (call.Release lease.details) self.old.caller.now self.new.caller.now }
        ensures took { ⊤ }
    {
        let _reply = self.shared.release(rt, self.caller, lease);
    }

    fn close<R: Wait>(&mut self, rt: &R, lease: Lease<S>)
        requires ready { self.old.caller.now.lock ≡ self.old.shared.now }
        ensures told { (self.new.caller.ghost_name ≡ self.old.caller.ghost_name)
            × Tells (call.Close lease.details) self.old.caller.now self.new.caller.now }
        ensures took { ⊤ }
    {
        let _reply = self.shared.close(rt, self.caller, lease);
    }
}
