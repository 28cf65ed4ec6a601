//! Why a name isn't tracked.
ghost use Rattle.std.specs.Prelude.{◌≡◌};

use std::alloc::AllocError;
use thiserror::Error;

/// Why a further name isn't tracked, or out of memory.
#[derive(Clone, Copy, Debug, PartialEq, Eq, Error)]
pub enum NameError {
    /// It is empty, begins with a digit, or has another byte than an ASCII letter, a digit, `_` or
    /// `.`.
    #[error("the name isn't one of letters, digits, _ and . that begins with no digit")]
    Form,
    /// It is tracked already, perhaps in other case.
    #[error("the name is tracked already")]
    Twice,
    /// Memory was refused.
    #[error("out of memory")]
    Memory,
}

impl From<AllocError> for NameError {
    ghost use Rattle.tracked_parameters.specs.declared.name_error.NameError.TheVariants.{Memory};

    ghost from_gives = { λ _ error. error ≡ Memory };

    fn from(_error: AllocError) -> NameError {
        NameError::Memory
    }
}
