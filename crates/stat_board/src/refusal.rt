//! Why nothing is counted.
ghost use Rattle.std.specs.Prelude.{◌≡◌};
ghost use Rattle.stat_board.specs.Refusals.{NO_ALLOWANCE};

use thiserror::Error;

/// The seat has no allowance left.
#[derive(Clone, Copy, Debug, PartialEq, Eq, Hash, Error)]
#[error("the seat has no allowance left")]
pub struct NoAllowance;

impl NoAllowance {
    /// Its number among all refusals.
    pub const fn number(self) -> u8
        ensures { result ≡ NO_ALLOWANCE }
    {
        70
    }
}
