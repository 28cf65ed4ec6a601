//! Why a value that a server reports isn't kept.
ghost use Rattle.std.specs.Prelude.{◌≡◌};

use std::alloc::AllocError;
use thiserror::Error;

/// Why a value that a server reports isn't kept.
#[derive(Clone, Copy, Debug, PartialEq, Eq, Error)]
pub enum ValueError {
    /// It has more than 10,000 bytes.
    #[error("the value is longer than 10000 bytes")]
    TooLong,
    /// Memory was refused.
    #[error("out of memory")]
    Memory,
}

impl From<AllocError> for ValueError {
    ghost use Rattle.tracked_parameters.specs.declared.value_error.ValueError.TheVariants.{Memory};

    ghost from_gives = { λ _ error. error ≡ Memory };

    fn from(_error: AllocError) -> ValueError {
        ValueError::Memory
    }
}
