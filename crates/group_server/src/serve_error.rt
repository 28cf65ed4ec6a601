//! Why a group can't serve.
use std::alloc::AllocError;
use std::io;

/// An address that can't be bound.
#[derive(Debug, Drop)]
pub struct Unbound {
    /// The address.
    pub address: String,
    /// Its port.
    pub port: u16,
    /// The error.
    pub error: io::Error,
}

/// An error of `serve_group`.
#[derive(Debug, Drop)]
pub enum ServeError {
    /// This address can't be bound.
    Address(Unbound),
    /// Out of memory.
    Memory,
    /// A thread can't be started.
    Thread,
    /// The sockets of the drain signal can't be made.
    Sockets,
    /// Standard output can't be written to.
    Output,
}

impl ServeError {
    /// Returns its message, without the address.
    pub fn text(&self) -> &'static str {
        match self {
            ServeError::Address(_) => "cannot listen",
            ServeError::Memory => "out of memory",
            ServeError::Thread => "cannot start a thread",
            ServeError::Sockets => "cannot make a pair of sockets",
            ServeError::Output => "cannot write to standard output",
        }
    }
}

impl From<AllocError> for ServeError {
    ghost use Rattle.std.specs.Prelude.{◌≡◌};
    ghost use Rattle.group_server.specs.declared.serve_error.ServeError.TheVariants.{Memory};

    ghost from_gives = { λ _ error. error ≡ Memory };

    fn from(_: AllocError) -> ServeError {
        ServeError::Memory
    }
}
