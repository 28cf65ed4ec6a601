//! Why a stream isn't a list of frames, or why a frame can't be written.
ghost use Rattle.std.specs.Prelude.{◌≡◌};
ghost use Rattle.pg_frames.specs.FrameError.{number_of};

use thiserror::Error;

/// An error of this crate.
#[derive(Clone, Copy, Debug, PartialEq, Eq, Error)]
pub enum FrameError {
    /// A length field below 4: it counts itself.
    #[error("a length field below 4")]
    BadLength = 10,
    /// A length field above the limit.
    #[error("a length field above the limit")]
    TooLong = 11,
    /// A type byte that is no ASCII letter or digit. It is judged before the length.
    #[error("a type byte that is no letter or digit")]
    BadType = 12,
    /// Out of memory.
    #[error("out of memory")]
    Memory = 13,
}

impl FrameError {
    /// The number of the error.
    pub const fn number(self) -> u8
        ensures { result ≡ number_of self }
    {
        self as u8
    }
}
