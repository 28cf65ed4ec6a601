//! Draining: the group stops accepting connections, and its sessions end between transactions.
use crate::ServeError;
use crate::accepting::Acceptor;
use crate::limits::{DRAIN_MILLIS, DRAIN_PACKETS_MILLIS, DRAIN_PAUSE_MILLIS};
use sockets::{ConnectionLimit, Deadline, Host};
use std::alloc::Global;
use std::io::{ErrorKind, Read};
use std::sync::Arc;
use std::thread;
use std::time::Duration;
use telemetry::{Event, Log, Value};

/// Waits until this input ends or can't be read.
pub fn wait_for_end<H: Host, I: Read>(host: &H, input: &mut I) {
    let mut buffer = [0; 512];
    for _ in host.forever() {
        match input.read(&mut buffer) {
            Ok(0) => return,
            Ok(_) => {}
            Err(error) if error.kind() == ErrorKind::Interrupted => {}
            Err(_) => return,
        }
    }
}

/// Drains a group with these acceptors. Returns when all connections are closed, or after
/// `DRAIN_MILLIS`.
pub fn drain<H: Host>(
    host: &H,
    limit: &ConnectionLimit,
    log: &Log,
    acceptors: &[Arc<Acceptor<H>, Global>],
) {
    let count = Value::Number(limit.open_count(host) as u64);
    log.write(host, None, Event::Stopping, &[("connections", count)]);
    // The listeners are closed first, so that a client whose session ends can't reconnect here.
    for acceptor in acceptors {
        acceptor.close();
    }
    if let Some(signal) = limit.drain_signal() {
        signal.send();
    }
    let Ok(deadline) = Deadline::after(host, DRAIN_MILLIS) else {
        return;
    };
    limit.wait_until_closed(host, Duration::from_millis(DRAIN_PACKETS_MILLIS));
    limit.evict_pending(host);
    wait_until_all_closed(host, limit, deadline);
}

// Waits until all connections are closed, also those that were accepted but not admitted yet, or
// until the deadline has passed.
fn wait_until_all_closed<H: Host>(host: &H, limit: &ConnectionLimit, deadline: Deadline) {
    for _ in host.forever() {
        let Ok(left) = deadline.left(host) else {
            return;
        };
        limit.wait_until_closed(host, left);
        thread::sleep(host, Duration::from_millis(DRAIN_PAUSE_MILLIS));
        if limit.open_count(host) == 0 {
            return;
        }
    }
}

/// Logs that a group has stopped, with the number of connections that are still open, and the error,
/// if any. Waits a little until the log is written.
pub fn write_end<H: Host>(
    host: &H,
    limit: &ConnectionLimit,
    log: &Log,
    ended: &Result<(), ServeError>,
) {
    let count = ("connections", Value::Number(limit.open_count(host) as u64));
    match ended {
        Ok(()) => {
            log.write(host, None, Event::Stopped, &[count]);
        }
        Err(error) => {
            let error = ("error", Value::Text(error.text()));
            log.write(host, None, Event::Stopped, &[count, error]);
        }
    }
    log.finish(host);
}
