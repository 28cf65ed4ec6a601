//! Why a parameter can't be reported.
ghost use Rattle.std.specs.Prelude.{◌≡◌};

use std::alloc::AllocError;
use thiserror::Error;

/// Why a parameter can't be reported, or out of memory.
#[derive(Clone, Copy, Debug, PartialEq, Eq, Error)]
pub enum ReportError {
    /// The name is empty or has a zero byte.
    #[error("the name is empty or has a zero byte")]
    Name,
    /// The value has a zero byte.
    #[error("the value has a zero byte")]
    Value,
    /// What each login reports of the encodings is fixed.
    #[error("server_encoding and client_encoding are always reported as UTF8")]
    Fixed,
    /// The name is reported already.
    #[error("the name is given twice")]
    Twice,
    /// All messages together would have more than 8,000 bytes.
    #[error("the parameters are too long: their messages have more than 8000 bytes")]
    TooLong,
    /// Memory was refused.
    #[error("out of memory")]
    Memory,
}

impl From<AllocError> for ReportError {
    ghost use Rattle.startup.specs.declared.report_error.ReportError.TheVariants.{Memory};

    ghost from_gives = { λ _ error. error ≡ Memory };

    fn from(_error: AllocError) -> ReportError {
        ReportError::Memory
    }
}
