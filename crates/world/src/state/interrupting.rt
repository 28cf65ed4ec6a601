//! What servers do with cancel connections, and how their ends are reported.
ghost use Rattle.std.specs.Prelude.{◌≡◌, ◌<◌, ◌++◌, ◌∷◌, [], IfOk, OnErr};
ghost use Rattle.std.specs.Vec.{vec_len, vec_capacity};
ghost use Rattle.world.specs.declared.event.Event.TheVariants as event;
ghost use Rattle.world.specs.Admissible.{Admissible};
ghost use Rattle.world.specs.Facts.{Facts};
ghost use Rattle.world.specs.WorldRun.{WorldStep};

use super::State;
use super::replies::{breaking, ending};
use crate::memory::Memory;
use crate::numbers::ConnectionNo;
use crate::reply::{Reply, Took};
use crate::request::{Interrupt, Report};

impl State {
    /// A server does what a cancel connection asks.
    pub fn act(&mut self, place: ConnectionNo) -> Result<Took, Memory>
        requires { Facts self.old }
        ensures step { IfOk result (λ took. WorldStep (event.Act place) took self.old self.new) }
        ensures err { OnErr result (self.new ≡ self.old) }
        ensures may { OnErr result (Admissible self.old (event.Act place)) }
    {
        let Some(connection) = self.connections.get(place.0 as usize) else {
            return Ok(Took::Skipped);
        };
        if connection.acted || connection.ended {
            return Ok(Took::Skipped);
        }
        let Some(process) = self.backends.get(connection.backend) else {
            unreachable!()
        };
        let Some(label) = process.running else {
            self.connections.set(place.0 as usize, connection.acting());
            return Ok(Took::Done(Reply::Nothing));
        };
        self.interrupts.reserve(1)?;
        self.backends.rest(connection.backend)?;
        note(
            &mut self.interrupts,
            Interrupt {
                backend: connection.backend,
                label,
                arrival: connection.arrival,
            },
        );
        self.connections.set(place.0 as usize, connection.acting());
        Ok(Took::Done(Reply::Struck(connection.backend, label)))
    }

    /// A server ends a cancel connection.
    pub fn end(&mut self, place: ConnectionNo) -> Took
        ensures { WorldStep (event.End place) result self.old self.new }
    {
        let Some(connection) = self.connections.get(place.0 as usize) else {
            return Took::Skipped;
        };
        if !connection.acted || connection.ended {
            return Took::Skipped;
        }
        self.connections.set(place.0 as usize, connection.ending());
        Took::Done(Reply::Done)
    }

    /// A node learns of the clean end of a cancel connection.
    pub fn told(&mut self, place: ConnectionNo) -> Took
        requires { Facts self.old }
        ensures { WorldStep (event.Told place) result self.old self.new }
    {
        let Some(connection) = self.connections.get(place.0 as usize) else {
            return Took::Skipped;
        };
        if connection.report.is_some() || !connection.ended {
            return Took::Skipped;
        }
        let reply = self.nodes.ended(connection.node(), connection.ticket());
        self.connections
            .set(place.0 as usize, connection.reported(Report::Clean));
        Took::Done(ending(reply))
    }

    /// A node learns that a cancel connection broke.
    pub fn broken(&mut self, place: ConnectionNo) -> Took
        requires { Facts self.old }
        ensures { WorldStep (event.Broken place) result self.old self.new }
    {
        let Some(connection) = self.connections.get(place.0 as usize) else {
            return Took::Skipped;
        };
        if connection.report.is_some() {
            return Took::Skipped;
        }
        let reply = self.nodes.failed(connection.node(), connection.ticket());
        self.connections
            .set(place.0 as usize, connection.reported(Report::Fault));
        Took::Done(breaking(reply))
    }
}

// A server process was interrupted.
fn note(interrupts: &mut Vec<Interrupt>, interrupt: Interrupt)
    requires room { vec_len interrupts.old < vec_capacity interrupts.old }
    ensures { interrupts.new.items ≡ interrupts.old.items ++ interrupt ∷ [] }
{
    let Ok(()) = interrupts.push(interrupt) else {
        unreachable!()
    };
}
