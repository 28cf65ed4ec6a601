//! Requests on their way from clients to server processes, and their answers.
ghost use Rattle.std.specs.Prelude.{◌≡◌, IfOk, OnErr};
ghost use Rattle.world.specs.declared.event.Event.TheVariants as event;
ghost use Rattle.world.specs.Admissible.{Admissible};
ghost use Rattle.world.specs.Facts.{Facts};
ghost use Rattle.world.specs.WorldRun.{WorldStep};

use super::State;
use crate::memory::Memory;
use crate::numbers::{BackendNo, Label};
use crate::reply::{Reply, Took};
use crate::session::{Hand, InHand};

impl State {
    /// A client sends a request on its link.
    pub fn send(&mut self, label: Label) -> Result<Took, Memory>
        requires { Facts self.old }
        ensures step { IfOk result (λ took. WorldStep (event.Send label) took self.old self.new) }
        ensures err { OnErr result (self.new ≡ self.old) }
        ensures may { OnErr result (Admissible self.old (event.Send label)) }
    {
        let Some(held) = self.held(label) else {
            return Ok(Took::Skipped);
        };
        let InHand {
            lease,
            at,
            outstanding,
        } = held.hand;
        let Some(outstanding) = outstanding.checked_add(1) else {
            return Err(Memory);
        };
        self.backends.send(at, label)?;
        self.put_in_hand(
            held.place,
            &held.session,
            Hand::Lease(lease, at, outstanding),
        );
        Ok(Took::Done(Reply::Done))
    }

    /// A server process begins with the next request.
    pub fn take(&mut self, at: BackendNo) -> Took
        ensures { WorldStep (event.Take at) result self.old self.new }
    {
        let Some(process) = self.backends.get(at) else {
            return Took::Skipped;
        };
        let None = process.running else {
            return Took::Skipped;
        };
        if !self.backends.take(at) {
            return Took::Skipped;
        }
        Took::Done(Reply::Done)
    }

    /// A server process has run its request.
    pub fn finish(&mut self, at: BackendNo) -> Result<Took, Memory>
        ensures step { IfOk result (λ took. WorldStep (event.Finish at) took self.old self.new) }
        ensures err { OnErr result (self.new ≡ self.old) }
        ensures may { OnErr result (Admissible self.old (event.Finish at)) }
    {
        let Some(process) = self.backends.get(at) else {
            return Ok(Took::Skipped);
        };
        let Some(_) = process.running else {
            return Ok(Took::Skipped);
        };
        self.backends.rest(at)?;
        Ok(Took::Done(Reply::Done))
    }

    /// A client gets a ReadyForQuery.
    pub fn ready(&mut self, label: Label) -> Took
        requires { Facts self.old }
        ensures { WorldStep (event.Ready label) result self.old self.new }
    {
        let Some(held) = self.held(label) else {
            return Took::Skipped;
        };
        let InHand {
            lease,
            at,
            outstanding,
        } = held.hand;
        let Some(process) = self.backends.get(at) else {
            return Took::Skipped;
        };
        if process.readies == 0 {
            return Took::Skipped;
        }
        self.backends.ready(at);
        self.put_in_hand(
            held.place,
            &held.session,
            Hand::Lease(lease, at, outstanding - 1),
        );
        Took::Done(Reply::Done)
    }
}
