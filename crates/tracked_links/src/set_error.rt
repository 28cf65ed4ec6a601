//! Why a query isn't sent.
ghost use Rattle.std.specs.Prelude.{◌≡◌};

use std::alloc::AllocError;
use thiserror::Error;

/// Why a query of the pooler's own isn't sent.
#[derive(Clone, Copy, Debug, PartialEq, Eq, Error)]
pub enum SetError {
    /// It isn't one whole request within the limit of the link's messages.
    #[error("the query is longer than a message may be")]
    TooLong,
    /// Memory was refused.
    #[error("out of memory")]
    Memory,
}

impl From<AllocError> for SetError {
    ghost use Rattle.tracked_links.specs.declared.set_error.SetError.TheVariants.{Memory};

    ghost from_gives = { λ _ error. error ≡ Memory };

    fn from(_error: AllocError) -> SetError {
        SetError::Memory
    }
}
