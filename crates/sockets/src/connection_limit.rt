//! The limit of a process's connections, which its threads share.
use crate::DrainSignal;
use crate::connections::{Begun, Capacity, Connections, PendingId};
use libc::net as c;
use std::alloc::Global;
use std::os::fd::RawFd;
use std::sync::{Condvar, CondvarTimeouts, Mutex, Wait};
use std::time::{Clock, Duration};

/// Limits the connections of a process: at capacity, a pending connection is evicted for a new one,
/// and sessions never have all. So clients that send nothing, refused ones that stay and sessions
/// don't block cancel requests, and descriptors are left for links and for cancel requests.
#[derive(Drop)]
pub struct ConnectionLimit {
    connections: Mutex<Connections>,
    // Notified when a connection was closed while the group drains.
    on_close: Condvar,
    drain: Option<DrainSignal>,
}

impl ConnectionLimit {
    /// Returns a limit without connections, of a group that never drains.
    pub fn new(alloc: Global, capacity: Capacity) -> ConnectionLimit {
        ConnectionLimit::with_drain(alloc, capacity, None)
    }

    /// Returns a limit without connections, of a group that drains once this signal is sent.
    pub fn with_drain(
        alloc: Global,
        capacity: Capacity,
        drain: Option<DrainSignal>,
    ) -> ConnectionLimit {
        ConnectionLimit {
            connections: Mutex::new(Connections::new(alloc, capacity)),
            on_close: Condvar::new(),
            drain,
        }
    }

    /// Returns the signal that makes the group drain, if it can.
    #[inline]
    pub fn drain_signal(&self) -> Option<&DrainSignal> {
        self.drain.as_ref()
    }

    /// Returns whether the group drains.
    #[inline]
    pub fn is_draining(&self) -> bool {
        match &self.drain {
            Some(signal) => signal.is_sent(),
            None => false,
        }
    }

    /// Admits an accepted connection, or returns `None`. May evict the oldest pending one for it.
    pub fn admit<R: Wait + Clock>(&self, rt: &R, socket: RawFd) -> Option<PendingId> {
        let now = rt.monotonic().ok()?;
        let mut connections = self.connections.lock(rt);
        let admission = connections.admit(socket, now);
        shut_down(admission.evicted);
        admission.pending
    }

    /// Evicts a pending connection, if there is one that became so more than `age` milliseconds
    /// ago.
    pub fn evict<R: Wait + Clock>(&self, rt: &R, age: u64) {
        let Ok(now) = rt.monotonic() else {
            return;
        };
        let mut connections = self.connections.lock(rt);
        shut_down(connections.evict(now.saturating_sub(Duration::from_millis(age))));
    }

    /// Makes a connection no longer pending, since its first packets were read. Returns false if it
    /// was evicted.
    pub fn activate<R: Wait>(&self, rt: &R, id: PendingId) -> bool {
        self.connections.lock(rt).activate(id)
    }

    /// Begins the session of a pending connection, which is no longer pending, unless sessions have
    /// all connections that aren't kept, or it was evicted.
    pub fn begin_session<R: Wait>(&self, rt: &R, id: PendingId) -> Begun {
        self.connections.lock(rt).begin_session(id)
    }

    /// Records that a session has ended. Its connection is still open.
    pub fn end_session<R: Wait>(&self, rt: &R) {
        self.connections.lock(rt).end_session();
    }

    /// Makes a connection pending again, since its client was told its last error: it may be
    /// evicted while it stays open. Returns its new id, if it can be evicted.
    pub fn linger<R: Wait + Clock>(&self, rt: &R, socket: RawFd) -> Option<PendingId> {
        let now = rt.monotonic().ok()?;
        let mut connections = self.connections.lock(rt);
        let lingering = connections.linger(socket, now);
        shut_down(lingering.evicted);
        lingering.pending
    }

    /// Makes a connection no longer pending, since its socket is about to be closed: it can't be
    /// evicted any more.
    pub fn closing<R: Wait>(&self, rt: &R, id: PendingId) {
        let _ = self.connections.lock(rt).activate(id);
    }

    /// Records that a connection was closed.
    pub fn closed<R: Wait>(&self, rt: &R) {
        self.connections.lock(rt).closed();
        if self.is_draining() {
            self.on_close.notify_all();
        }
    }

    /// Returns the number of open connections.
    pub fn open_count<R: Wait>(&self, rt: &R) -> usize {
        self.connections.lock(rt).open_count()
    }

    /// Evicts all connections whose first packets weren't read.
    pub fn evict_pending<R: Wait>(&self, rt: &R) {
        let mut connections = self.connections.lock(rt);
        for _ in 0..connections.pending_count() {
            shut_down(connections.evict_unread());
        }
    }

    /// Waits until all connections are closed, or until `limit` has passed. The group must be
    /// draining.
    pub fn wait_until_closed<R: Wait + Clock>(&self, rt: &R, limit: Duration) {
        let connections = self.connections.lock(rt);
        let _ = self
            .on_close
            .wait_timeout_while(rt, connections, limit, |connections| {
                connections.open_count() > 0
            });
    }
}

// Ends the reads of an evicted connection, whose thread then closes it: if bytes were received that
// weren't read, as of a cancel request, it is reset. The caller holds the lock, so that no thread
// closes the socket meanwhile.
fn shut_down(socket: Option<RawFd>) {
    if let Some(socket) = socket {
        c::shutdown(socket, c::SHUT_RD);
    }
}
