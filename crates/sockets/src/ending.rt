//! Closes a client's connection.
use crate::limits::{ENDING_MILLIS, ENDING_PAUSE_MILLIS, SENDING_PAUSE_MILLIS};
use crate::poll::wait_readable;
use crate::{ClientStream, Connection, Deadline, Machine};
use std::io;
use std::io::{ErrorKind, Read, Write};
use std::net::Shutdown;
use std::time::Duration;

// How many bytes are read at once at the end of a connection.
const DRAIN_READ: usize = 1_024;

/// Ends a connection, once nothing is held for its client any more. Its socket has still to be closed.
/// If something was written to the client, its input is first read for a while: a socket that is closed
/// with unread input resets the connection, and the client may lose what was written.
#[inline(never)]
pub fn end<M: Machine>(machine: &M, connection: &Connection, client: &mut ClientStream<'_, M>) {
    if let Some(error) = client.take_final_error() {
        let limit = Duration::from_millis(ENDING_MILLIS);
        let _ = connection.socket().set_write_timeout(Some(limit));
        let _ = client.write_all(error.as_slice());
    }
    if let Some(why) = client.unserved() {
        client.dismiss(why);
        return;
    }
    // A byte of a cancel request that wasn't taken stays unread: so the connection is reset.
    if client.wrote_last() {
        client.linger();
        let _ = finish_reading(machine, connection, client.is_sending());
    }
}

// Gives a client time to read what was written to it, unless its connection is evicted. A client
// that is sending may not read it if the write side is shut down at once.
fn finish_reading<M: Machine>(
    machine: &M,
    connection: &Connection,
    is_sending: bool,
) -> io::Result<()> {
    let deadline = Deadline::after(machine, ENDING_MILLIS)?;
    if is_sending {
        drain(machine, connection, deadline, SENDING_PAUSE_MILLIS)?;
    }
    connection.socket().shutdown(Shutdown::Write)?;
    drain(machine, connection, deadline, ENDING_PAUSE_MILLIS)
}

// Reads what a client sends, until nothing was received for `pause` milliseconds. Fails if the
// client has closed the connection, or if the deadline has passed.
fn drain<M: Machine>(
    machine: &M,
    connection: &Connection,
    deadline: Deadline,
    pause: u64,
) -> io::Result<()> {
    let mut buffer = [0; DRAIN_READ];
    for _ in 0..u64::MAX {
        let left = deadline.left(machine)?;
        if !wait_readable(
            connection.descriptor(),
            left.min(Duration::from_millis(pause)),
        ) {
            return Ok(());
        }
        let mut socket = connection.socket();
        if socket.read(&mut buffer)? == 0 {
            return Err(io::Error::from(ErrorKind::UnexpectedEof));
        }
    }
    Ok(())
}
