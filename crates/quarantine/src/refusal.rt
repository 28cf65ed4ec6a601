//! Why a link takes no further ticket.
ghost use Rattle.std.specs.Prelude.{◌≡◌};
ghost use Rattle.quarantine.specs.Refusals.{BUSY};

use thiserror::Error;

/// The link has as many open tickets as it may have.
#[derive(Clone, Copy, Debug, PartialEq, Eq, Hash, Error)]
#[error("the link has as many open tickets as it may have")]
pub struct Busy;

impl Busy {
    /// Its number among all refusals.
    pub const fn number(self) -> u8
        ensures { result ≡ BUSY }
    {
        31
    }
}
