//! The state of sockets, without reading them.
use crate::limits::POLL_MILLIS;
use libc::net as c;
use libc::types::pollfd;
use std::os::fd::RawFd;
use std::time::Duration;

// The events of a socket that was closed or reset on either side.
const ENDED: i16 = c::POLLRDHUP | c::POLLHUP | c::POLLERR | c::POLLNVAL;

// The events of a socket of which a read returns at once.
const READABLE: i16 = c::POLLIN | ENDED;

/// Returns whether nothing can be read from this socket, and its peer hasn't closed it. Doesn't wait.
pub fn is_quiet(socket: RawFd) -> bool {
    wait_for(socket, c::POLLIN | c::POLLRDHUP, 0) == Some(0)
}

/// Returns whether the peer of this socket has closed it. Doesn't wait.
pub fn is_ended(socket: RawFd) -> bool {
    match wait_for(socket, c::POLLRDHUP, 0) {
        Some(events) => events & ENDED != 0,
        None => false,
    }
}

/// Waits at most for `limit` until a read of this socket returns at once. Returns whether it does.
pub fn wait_readable(socket: RawFd, limit: Duration) -> bool {
    match wait_for(socket, c::POLLIN, millis(limit)) {
        Some(events) => events & READABLE != 0,
        None => false,
    }
}

/// Waits until a read of one of these sockets returns at once; at most for `limit`, if there is
/// one.
pub fn wait_either(one: RawFd, other: RawFd, limit: Option<Duration>) {
    let mut asked = [ask(one, c::POLLIN), ask(other, c::POLLIN)];
    let millis = match limit {
        Some(limit) => millis(limit),
        None => -1,
    };
    c::poll(&mut asked, millis);
}

/// What a link and its client are ready for.
#[derive(Clone, Copy)]
pub struct Ready {
    /// A read of the link returns at once.
    pub link_reads: bool,
    /// A write to the link returns at once.
    pub link_writes: bool,
    /// The client has closed its connection.
    pub client_ended: bool,
}

/// Waits until the link can be read or written, or until its client, if any, has closed its
/// connection; at most for `POLL_MILLIS`.
pub fn wait_both(link: RawFd, client: Option<RawFd>) -> Ready {
    // A negative descriptor is ignored.
    let mut asked = [
        ask(link, c::POLLIN | c::POLLOUT),
        ask(client.unwrap_or(-1), c::POLLRDHUP),
    ];
    if c::poll(&mut asked, POLL_MILLIS as i32) < 0 {
        return Ready {
            link_reads: false,
            link_writes: false,
            client_ended: false,
        };
    }
    let [link, client] = asked;
    Ready {
        link_reads: link.revents & READABLE != 0,
        link_writes: link.revents & c::POLLOUT != 0,
        client_ended: client.revents & ENDED != 0,
    }
}

const fn ask(fd: RawFd, events: i16) -> pollfd {
    pollfd {
        fd,
        events,
        revents: 0,
    }
}

// Waits at most this many milliseconds for these events. Returns the events that occurred, or `None`
// if the call failed or was interrupted.
fn wait_for(socket: RawFd, events: i16, millis: i32) -> Option<i16> {
    let mut asked = [ask(socket, events)];
    if c::poll(&mut asked, millis) < 0 {
        return None;
    }
    let [answer] = asked;
    Some(answer.revents)
}

// Returns a time in milliseconds, at least 1.
fn millis(time: Duration) -> i32 {
    i32::try_from(time.as_millis()).unwrap_or(i32::MAX).max(1)
}
