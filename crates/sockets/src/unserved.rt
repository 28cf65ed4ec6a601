//! How a connection ends that isn't served.
ghost use Rattle.std.specs.Prelude.{◌≡◌, ◌≢◌, false};
ghost use Rattle.sockets.specs.UnservedEnds.{unserved_end, IsGivenUp};
ghost use Rattle.sockets.specs.declared.unserved.UnservedEnd.TheVariants as ends;

use crate::final_error::{fatal_error, shutdown_error};
use crate::resetting::reset;
use libc::net as c;
use startup::{ErrorCode, First, Opening, StartupError};
use std::alloc::Global;
use std::io::Write;
use std::net::TcpStream;
use std::os::fd::{AsRawFd, RawFd};

/// Why a connection isn't served.
#[derive(Clone, Copy, Debug, PartialEq, Eq)]
pub enum Unserved {
    /// Its first packet is refused, and gets no error.
    Refused,
    /// Its client ended its input within the first packets, or a read failed.
    Left,
    /// Its first packets weren't complete in time.
    Late,
    /// It was evicted, to accept another one.
    Evicted,
    /// There is no thread, no memory or no connection for it, or the console has too many sessions.
    Shortage,
    /// The group drains.
    Draining,
}

/// How a connection ends that isn't served.
#[derive(Clone, Copy, Debug, PartialEq, Eq)]
pub enum UnservedEnd {
    /// Cleanly, without a byte.
    Clean,
    /// By a reset, without a byte.
    Reset,
    /// Cleanly, after the error that there are too many clients.
    TooMany,
    /// Cleanly, after the error that the group drains.
    Shutdown,
}

// How many bytes of a connection are examined at most that is refused when it was accepted. Its
// thread's stack keeps room for them.
const MAX_PEEK: usize = 1_024;

// How much input is discarded at the end of a connection: at most this many reads of this many bytes.
const DISCARD_READS: usize = 16;

const DISCARD_READ: usize = 1_024;

impl Unserved {
    /// Returns its name in the log, if it is logged.
    pub fn reason(self) -> Option<&'static str> {
        match self {
            Unserved::Refused | Unserved::Left | Unserved::Draining => None,
            Unserved::Late => Some("late"),
            Unserved::Evicted => Some("evicted"),
            Unserved::Shortage => Some("shortage"),
        }
    }
}

impl UnservedEnd {
    /// Returns how a connection ends that isn't served for this reason, by whether its client has sent a
    /// whole StartupMessage. One that this side gives up otherwise is reset: it may carry a cancel
    /// request that wasn't read, whose sender takes a clean end for the end of its request.
    pub fn of(why: Unserved, has_startup: bool) -> UnservedEnd
        ensures end { result ≡ unserved_end why has_startup }
        // The sender of a cancel request that wasn't read gets no byte and no clean end.
        ensures unread { IsGivenUp why → has_startup ≡ false → result ≡ ends.Reset }
    {
        match (why, has_startup) {
            (Unserved::Refused | Unserved::Left, _) => UnservedEnd::Clean,
            (Unserved::Evicted | Unserved::Shortage, true) => UnservedEnd::TooMany,
            (Unserved::Draining, true) => UnservedEnd::Shutdown,
            (Unserved::Late, _) => UnservedEnd::Reset,
            (Unserved::Evicted | Unserved::Shortage | Unserved::Draining, false) => {
                UnservedEnd::Reset
            }
        }
    }

    /// Returns the code of the error that the client gets, if any.
    pub fn code(self) -> Option<ErrorCode> {
        match self {
            UnservedEnd::Clean | UnservedEnd::Reset => None,
            UnservedEnd::TooMany => Some(ErrorCode::TooManyConnections),
            UnservedEnd::Shutdown => Some(ErrorCode::AdminShutdown),
        }
    }

    /// Returns the error that the client gets, if any. If there is no memory for it, it gets none.
    pub fn error(self, alloc: Global) -> Option<Vec<u8>> {
        match self {
            UnservedEnd::Clean | UnservedEnd::Reset => None,
            UnservedEnd::TooMany => fatal_error(alloc, ErrorCode::TooManyConnections).ok(),
            UnservedEnd::Shutdown => shutdown_error(alloc).ok(),
        }
    }

    /// Ends a connection so, with this error. Its socket has still to be closed. If there is no memory
    /// for the error, the connection is reset.
    pub fn apply(self, socket: &TcpStream, error: Option<Vec<u8>>) {
        match (self, &error) {
            (UnservedEnd::Clean, _) => discard(socket.as_raw_fd()),
            (UnservedEnd::TooMany | UnservedEnd::Shutdown, Some(error)) => {
                let mut writer = socket;
                let _ = writer.write_all(error.as_slice());
                discard(socket.as_raw_fd());
            }
            _ => reset(socket.as_raw_fd()),
        }
    }
}

/// Ends a connection that was accepted and can't be served, and of which nothing was read. Doesn't
/// wait. Its socket has still to be closed.
#[inline(never)]
pub fn refuse_accepted(alloc: Global, socket: &TcpStream) {
    let has_startup = has_startup(alloc, socket.as_raw_fd());
    let end = UnservedEnd::of(Unserved::Shortage, has_startup);
    end.apply(socket, end.error(alloc));
}

// Returns whether a whole StartupMessage has come, of at most `MAX_PEEK` bytes. Leaves it unread.
fn has_startup(alloc: Global, socket: RawFd) -> bool {
    let mut buffer = [0; MAX_PEEK];
    let count = unsafe { c::recv(socket, &mut buffer, c::MSG_PEEK | c::MSG_DONTWAIT) };
    let Ok(count) = usize::try_from(count) else {
        return false;
    };
    let bytes = buffer.get(..count).unwrap_or(&[]);
    let mut opening = Opening::new(alloc);
    // Memory runs out only if a session begins.
    matches!(
        &opening.read(bytes, false),
        Ok(First::Startup { .. }) | Err(StartupError::Memory)
    )
}

// Reads what has come to this socket: with unread input, closing it would reset the connection.
// Doesn't wait.
fn discard(socket: RawFd) {
    let mut buffer = [0; DISCARD_READ];
    for _ in 0..DISCARD_READS {
        if unsafe { c::recv(socket, &mut buffer, c::MSG_DONTWAIT) } <= 0 {
            return;
        }
    }
}
