//! The final error of a session that a server or the group ends, and of a connection that isn't served.
use link_state::first_error;
use startup::{ErrorCode, Severity, write_error};
use std::alloc::{AllocError, Global};
use std::os::fd::RawFd;

// PostgreSQL's message at a shutdown.
const SHUTDOWN: &str = "terminating connection due to administrator command";

// How many bytes of a server's last messages are read.
const MAX_BYTES: usize = 4_096;

/// Returns the error with which the server ended the link on this socket, or `ConnectionFailure` if
/// it sent none. Doesn't wait if the server has closed its side of the connection.
pub fn final_error(alloc: Global, link: RawFd) -> Result<Vec<u8>, AllocError> {
    let mut buffer = [0; MAX_BYTES];
    let count = read_rest(link, &mut buffer);
    let Some(error) = first_error(buffer.get(..count).unwrap_or(&[])) else {
        return fatal_error(alloc, ErrorCode::ConnectionFailure);
    };
    let mut message = Vec::new(alloc);
    message.extend_from_slice(error)?;
    Ok(message)
}

/// Returns this error, after which a connection is closed.
pub fn fatal_error(alloc: Global, error: ErrorCode) -> Result<Vec<u8>, AllocError> {
    let mut message = Vec::new(alloc);
    match write_error(Severity::Fatal, error.code(), error.message(), &mut message) {
        Ok(()) => Ok(message),
        Err(_) => Err(AllocError),
    }
}

/// Returns the error of a session that ends because the group drains.
pub fn shutdown_error(alloc: Global) -> Result<Vec<u8>, AllocError> {
    let mut message = Vec::new(alloc);
    let code = ErrorCode::AdminShutdown.code();
    match write_error(Severity::Fatal, code, SHUTDOWN, &mut message) {
        Ok(()) => Ok(message),
        Err(_) => Err(AllocError),
    }
}

// Reads until the end of the input, or until the buffer is full. Returns the number of bytes read.
fn read_rest(link: RawFd, buffer: &mut [u8]) -> usize {
    let mut count = 0;
    for _ in 0..MAX_BYTES {
        let Some(rest) = buffer.get_mut(count..) else {
            break;
        };
        match usize::try_from(libc::read(link, rest)) {
            Ok(more) if more > 0 => count = count.saturating_add(more),
            _ => break,
        }
    }
    count
}
