//! TCP keepalives.
use libc::net as c;
use std::os::fd::RawFd;

/// Enables keepalives on this socket, with the system's times. So the connection fails when the peer
/// stops responding.
pub fn keep_alive(socket: RawFd) {
    let mut on = [0; 16];
    on[..4].copy_from_slice(&1i32.to_ne_bytes());
    // An error is ignored.
    let _ = unsafe { c::setsockopt(socket, c::SOL_SOCKET, c::SO_KEEPALIVE, &on, 4) };
}
