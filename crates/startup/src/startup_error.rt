//! Why a first packet is refused.
ghost use Rattle.std.specs.Prelude.{◌≡◌};

use crate::error_code::ErrorCode;
use std::alloc::AllocError;
use thiserror::Error;

/// A refusal of a first packet, or out of memory.
#[derive(Clone, Copy, Debug, PartialEq, Eq, Error)]
pub enum StartupError {
    /// The length field is below 8.
    #[error("the packet's length is below 8")]
    TooShort,
    /// The length field is above 10,000, or above 8 for a request to negotiate.
    #[error("the packet's length is above its limit")]
    TooLong,
    /// The code is of no first packet.
    #[error("the packet's code is unknown")]
    BadVersion,
    /// The StartupMessage's body isn't pairs of texts and a zero byte, a name comes twice, or one
    /// may not be set.
    #[error("the start-up parameters are malformed or not allowed")]
    BadText,
    /// No user is named.
    #[error("no user is named")]
    NoUser,
    /// A CancelRequest's length is neither 16 nor 32.
    #[error("a cancel request's length is neither 16 nor 32")]
    BadCancelLength,
    /// The connection has seen this kind of negotiation.
    #[error("this negotiation was asked for before")]
    Repeated,
    /// The input ended before the packet did.
    #[error("the input ended within the packet")]
    Truncated,
    /// Memory was refused.
    #[error("out of memory")]
    Memory,
}

impl StartupError {
    ghost use Rattle.startup.specs.Numbers.{number_of_refusal};
    ghost use Rattle.startup.specs.ErrorCode.{told_of_refusal};

    /// The number of the refusal, 1 to 9.
    pub const fn number(self) -> u8
        ensures { result ≡ number_of_refusal self }
    {
        match self {
            StartupError::TooShort => 1,
            StartupError::TooLong => 2,
            StartupError::BadVersion => 3,
            StartupError::BadText => 4,
            StartupError::NoUser => 5,
            StartupError::BadCancelLength => 6,
            StartupError::Repeated => 7,
            StartupError::Truncated => 8,
            StartupError::Memory => 9,
        }
    }

    /// The FATAL error that the client gets before its connection is closed; none where the packet
    /// might not be a client's (own).
    pub const fn error_code(self) -> Option<ErrorCode>
        ensures { result ≡ told_of_refusal self }
    {
        match self {
            StartupError::TooShort
            | StartupError::TooLong
            | StartupError::BadText
            | StartupError::Repeated => Some(ErrorCode::ProtocolViolation),
            StartupError::BadVersion => Some(ErrorCode::FeatureNotSupported),
            StartupError::NoUser => Some(ErrorCode::InvalidAuthorization),
            StartupError::BadCancelLength | StartupError::Truncated => None,
            StartupError::Memory => Some(ErrorCode::OutOfMemory),
        }
    }
}

impl From<AllocError> for StartupError {
    ghost use Rattle.startup.specs.declared.startup_error.StartupError.TheVariants.{Memory};

    ghost from_gives = { λ _ error. error ≡ Memory };

    fn from(_error: AllocError) -> StartupError {
        StartupError::Memory
    }
}
