//! Resets of connections.
use libc::net as c;
use std::os::fd::RawFd;

// An address of no family (AF_UNSPEC), and how many bytes of it the system reads.
const NOWHERE: [u8; c::_SS_SIZE] = [0; c::_SS_SIZE];

const NOWHERE_LEN: u32 = 16;

/// Resets the connection of this TCP socket: its peer reads an error in place of the end. Linux does
/// that if the socket is connected to an address of no family (manual page connect(2): it dissolves
/// the association). If that fails, the connection stays as it is, and ends as the system closes its
/// socket: by a reset only if input is unread.
pub fn reset(socket: RawFd) {
    // An error is ignored.
    let _ = unsafe { c::connect(socket, &NOWHERE, NOWHERE_LEN) };
}
