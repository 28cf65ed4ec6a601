//! Small errors. An `io::Error` has 88 bytes, which each function that passes one on would move, and
//! clear beforehand even if nothing failed.
ghost use Rattle.std.specs.Prelude.{◌≡◌, Ok, IfOk};

use std::io;
use std::io::ErrorKind;

/// Replaces an error by its kind.
pub fn with_kind(done: io::Result<usize>) -> Result<usize, ErrorKind>
    ensures { IfOk result (λ count. done ≡ Ok count) }
{
    match done {
        Ok(count) => Ok(count),
        Err(error) => Err(error.kind()),
    }
}

/// Replaces a kind by an error of this kind.
#[inline(always)]
pub fn with_error(done: Result<usize, ErrorKind>) -> io::Result<usize>
    ensures { IfOk result (λ count. done ≡ Ok count) }
{
    match done {
        Ok(count) => Ok(count),
        Err(kind) => Err(io::Error::from(kind)),
    }
}

/// The error of a socket: the system's error number, or the kind of an error without one.
#[derive(Clone, Copy)]
pub enum Cause {
    /// The system's error number.
    System(i32),
    /// The kind.
    Kind(ErrorKind),
}

impl Cause {
    /// Returns the cause of this error.
    pub fn of(error: &io::Error) -> Cause {
        match error.raw_os_error() {
            Some(code) => Cause::System(code),
            None => Cause::Kind(error.kind()),
        }
    }

    /// Returns the error.
    pub fn error(self) -> io::Error {
        match self {
            Cause::System(code) => io::Error::from_raw_os_error(code),
            Cause::Kind(kind) => io::Error::from(kind),
        }
    }
}
