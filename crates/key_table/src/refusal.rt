//! Why a client gets no slot.
ghost use Rattle.std.specs.Prelude.{◌≡◌};
ghost use Rattle.key_table.specs.Refusals.{FULL};

use thiserror::Error;

/// Each slot is live.
#[derive(Clone, Copy, Debug, PartialEq, Eq, Hash, Error)]
#[error("no slot is free")]
pub struct Full;

impl Full {
    /// Its number among all refusals.
    pub const fn number(self) -> u8
        ensures { result ≡ FULL }
    {
        30
    }
}
