//! What a node refuses, and why.
ghost use Rattle.std.specs.Prelude.{◌≡◌};
ghost use Rattle.node_core.specs.Refusals.{step_number, join_number, cancel_number};

use cancel_router::RouteRefusal;
use key_table::Full;
use quarantine::Busy;
use thiserror::Error;

/// Why a step of a client, a link or a ticket changes nothing.
#[derive(Clone, Copy, Debug, PartialEq, Eq, Hash, Error)]
pub enum StepRefusal {
    /// The value is of another node or another incarnation, or its slot, link or place is no longer
    /// its own.
    #[error("the value is stale")]
    Stale,
    /// No number is left to give.
    #[error("no number is left to give")]
    Exhausted,
    /// The client has a link or a permit.
    #[error("the client has a link or a permit")]
    Holding,
}

impl StepRefusal {
    /// Its number among all refusals.
    pub const fn number(self) -> u8
        ensures { result ≡ step_number self }
    {
        match self {
            StepRefusal::Stale => 32,
            StepRefusal::Exhausted => 33,
            StepRefusal::Holding => 35,
        }
    }
}

/// Why a client gets no slot.
#[derive(Clone, Copy, Debug, PartialEq, Eq, Hash, Error)]
pub enum JoinRefusal {
    /// No slot is free.
    #[error("{}", Full)]
    Full,
    /// No number is left to give.
    #[error("{}", StepRefusal::Exhausted)]
    Exhausted,
}

impl JoinRefusal {
    /// Its number among all refusals.
    pub const fn number(self) -> u8
        ensures { result ≡ join_number self }
    {
        match self {
            JoinRefusal::Full => Full.number(),
            JoinRefusal::Exhausted => StepRefusal::Exhausted.number(),
        }
    }
}

/// Why a cancel request gives no order.
#[derive(Clone, Copy, Debug, PartialEq, Eq, Hash, Error)]
pub enum CancelRefusal {
    /// It goes nowhere from here.
    #[error("{0}")]
    Route(RouteRefusal),
    /// The link has as many open tickets as it may have.
    #[error("{}", Busy)]
    Busy,
    /// No number is left to give.
    #[error("{}", StepRefusal::Exhausted)]
    Exhausted,
}

impl CancelRefusal {
    /// Its number among all refusals.
    pub const fn number(self) -> u8
        ensures { result ≡ cancel_number self }
    {
        match self {
            CancelRefusal::Route(refusal) => refusal.number(),
            CancelRefusal::Busy => Busy.number(),
            CancelRefusal::Exhausted => StepRefusal::Exhausted.number(),
        }
    }
}
