//! A connection whose first packets are read.

use startup::StartupError;

/// What a connection's first packets ask for.
#[derive(Clone, Copy, Debug, PartialEq, Eq)]
pub enum Asks {
    /// A session on a database.
    Session,
    /// A session on the console.
    Console,
    /// That a client's request is cancelled.
    Cancel,
}

/// A connection that is told what its first packets ask for, and may then end unserved.
pub trait Arrival {
    ghost use Rattle.std.specs.Prelude.{Bool};
    ghost use Rattle.startup.specs.declared.startup_error.StartupError.{StartupError as Refusal};
    ghost use Rattle.peer_forward.specs.declared.arrival.Asks.{Asks};

    /// What asking it makes of it, with its answer.
    ghost admitted: { Self → Asks → Bool → Self → Type 0 };

    /// What the refusal of its first packets makes of it, with its answer.
    ghost refused: { Self → Refusal → Bool → Self → Type 0 };

    /// The first packets ask for this, and nothing was served yet. Returns whether it is to be
    /// served. If it isn't, nothing more is read or written.
    fn admits(&mut self, asks: Asks) -> bool
        ensures asked { admitted self.old asks result self.new };

    /// The first packets are refused for this reason. Returns whether the error that says so is to be
    /// written.
    fn refuse(&mut self, error: StartupError) -> bool
        ensures told { refused self.old error result self.new };
}
