//! The open connections of a process, and which of them is evicted for a new one.
ghost use Rattle.std.specs.Prelude.{◌≡◌, ◌≢◌, ◌≤◌, ◌<◌, ◌+◌, ◌-◌, None, true, false};
ghost use Rattle.sockets.specs.OpenConnections.{IsFull, HasRoom, IsWithin, how_many, session_room};
ghost use Rattle.sockets.specs.declared.connections.Begun.TheVariants as begun;

use crate::limits::SPARE_CONNECTIONS;
use slab::Slab;
use std::alloc::Global;
use std::marker::Model;
use std::os::fd::RawFd;
use std::time::Duration;

/// How many connections there may be at a time.
#[derive(Clone, Copy, Debug, PartialEq, Eq)]
pub struct Capacity {
    /// In all.
    pub connections: usize,
    /// Of these, pending ones.
    pub pending: usize,
    /// Of these, how many no session has: they are kept for what isn't known yet, and for cancel
    /// requests.
    pub kept: usize,
}

/// The open connections of a process. One is pending, and may be evicted, until its first packets
/// were read, and again once its client was told its last error.
#[derive(Drop)]
pub struct Connections {
    capacity: Capacity,
    // How many connections are open.
    open_count: usize,
    pending: Slab<PendingConnection>,
    // How many connections sessions have.
    sessions: usize,
    next_number: u64,
}

impl Model for Connections {
    ghost use Rattle.slab.specs.Slab.{slab_len};
    ghost use Rattle.sockets.specs.OpenConnections.{OpenConnections, IsWithin};

    ghost Value = { OpenConnections };

    ghost view = { λ c. record {
      capacity = c.capacity;
      all = c.open_count;
      pending = slab_len c.pending;
      sessions = c.sessions;
    } };

    ghost invariant = { λ c.
        IsWithin (record {
          capacity = c.capacity;
          all = c.open_count;
          pending = slab_len c.pending;
          sessions = c.sessions;
        }) };
}

// A connection that may be evicted. An older one has a lower number.
#[derive(Clone, Copy)]
struct PendingConnection {
    number: u64,
    socket: RawFd,
    // When it was accepted, or told its last error.
    since: Duration,
    // Whether it was told its last error. Otherwise its first packets weren't read yet.
    is_told: bool,
}

impl PendingConnection {
    // Returns whether it is evicted before the other: those that were told their last error are,
    // and else older ones.
    fn goes_before(&self, other: &PendingConnection) -> bool {
        if self.is_told == other.is_told {
            self.number < other.number
        } else {
            self.is_told
        }
    }
}

/// Identifies a pending connection: its slot, and its number, since slots are used again.
#[derive(Clone, Copy, Debug, PartialEq, Eq)]
pub struct PendingId {
    slot: usize,
    number: u64,
}

/// The result of `Connections::admit`.
#[derive(Clone, Copy, Debug, PartialEq, Eq)]
pub struct Admission {
    /// The new connection, or `None` if it isn't admitted.
    pub pending: Option<PendingId>,
    /// The socket of the connection that is evicted for it, which the caller shuts down.
    pub evicted: Option<RawFd>,
}

/// The result of `Connections::begin_session`.
#[derive(Clone, Copy, Debug, PartialEq, Eq)]
pub enum Begun {
    /// The session has begun.
    Begun,
    /// Sessions have all connections that aren't kept.
    Full,
    /// The connection isn't pending.
    Gone,
}

impl Connections {
    /// Returns an empty set of connections.
    pub fn new(alloc: Global, capacity: Capacity) -> Connections
        ensures { result ≡ record { capacity = capacity; all = 0; pending = 0; sessions = 0 } }
    {
        Connections {
            capacity,
            open_count: 0,
            pending: Slab::new(alloc),
            sessions: 0,
            next_number: 0,
        }
    }

    /// Admits a connection that was accepted at the time `now`, of which isn't known yet what it
    /// asks for. At capacity, evicts a pending connection for it. The connection isn't admitted if
    /// none is pending then, if too many evicted ones are still open, or if memory runs out.
    pub fn admit(&mut self, socket: RawFd, now: Duration) -> Admission
        // It counts as open from then on, unless it isn't admitted.
        ensures all { self.new.all ≡ self.old.all + how_many result.pending }
        ensures pending { self.new.pending + how_many result.evicted
            ≡ self.old.pending + how_many result.pending }
        // At capacity one is admitted only in the place of another that is evicted.
        ensures full { IsFull self.old → result.evicted ≡ None → result.pending ≡ None }
        ensures within { IsWithin self.new }
        ensures sessions { self.new.sessions ≡ self.old.sessions }
        ensures capacity { self.new.capacity ≡ self.old.capacity }
    {
        if !self.is_full() {
            let pending = self.insert(socket, now);
            return Admission {
                pending,
                evicted: None,
            };
        }
        let evicted = self.evict(Duration::MAX);
        let pending = match evicted {
            Some(_) => self.insert(socket, now),
            None => None,
        };
        Admission { pending, evicted }
    }

    // Returns whether a connection has to be evicted before another is admitted.
    fn is_full(&self) -> bool
        ensures full { IsFull self.now → result ≡ true }
        ensures within { IsWithin self.now }
        ensures room { result ≡ false → HasRoom self.now }
    {
        self.open_count >= self.capacity.connections || self.pending.len() >= self.capacity.pending
    }

    // Adds a pending connection, unless too many evicted ones are still open.
    fn insert(&mut self, socket: RawFd, since: Duration) -> Option<PendingId>
        requires { self.old.pending < self.old.capacity.pending }
        ensures all { self.new.all ≡ self.old.all + how_many result }
        ensures pending { self.new.pending ≡ self.old.pending + how_many result }
        ensures sessions { self.new.sessions ≡ self.old.sessions }
        ensures capacity { self.new.capacity ≡ self.old.capacity }
        ensures within { IsWithin self.new }
    {
        if self.open_count >= self.capacity.connections.saturating_add(SPARE_CONNECTIONS) {
            return None;
        }
        let id = self.put(socket, since, false)?;
        self.open_count = self.open_count.saturating_add(1);
        Some(id)
    }

    // Makes an open connection pending. Returns `None` if memory runs out.
    fn put(&mut self, socket: RawFd, since: Duration, is_told: bool) -> Option<PendingId>
        requires { self.old.pending < self.old.capacity.pending }
        ensures all { self.new.all ≡ self.old.all }
        ensures pending { self.new.pending ≡ self.old.pending + how_many result }
        ensures sessions { self.new.sessions ≡ self.old.sessions }
        ensures capacity { self.new.capacity ≡ self.old.capacity }
        ensures within { IsWithin self.old × IsWithin self.new }
    {
        let number = self.next_number;
        let connection = PendingConnection {
            number,
            socket,
            since,
            is_told,
        };
        let Ok(slot) = self.pending.insert(connection) else {
            return None;
        };
        self.next_number = number.wrapping_add(1);
        Some(PendingId { slot, number })
    }

    /// Makes a connection pending again, since its client was told its last error at the time
    /// `now`. Evicts another one for it if there are as many pending ones as there may be. Returns
    /// its new id, or `None` if there is no room or no memory for it: it can't be evicted then.
    pub fn linger(&mut self, socket: RawFd, now: Duration) -> Admission
        ensures all { self.new.all ≡ self.old.all }
        ensures pending { self.new.pending + how_many result.evicted
            ≡ self.old.pending + how_many result.pending }
        ensures within { IsWithin self.old × IsWithin self.new }
        ensures sessions { self.new.sessions ≡ self.old.sessions }
        ensures capacity { self.new.capacity ≡ self.old.capacity }
    {
        let evicted = if self.pending.len() < self.capacity.pending {
            None
        } else {
            self.evict(Duration::MAX)
        };
        let pending = if self.pending.len() < self.capacity.pending {
            self.put(socket, now, true)
        } else {
            None
        };
        Admission { pending, evicted }
    }

    /// Evicts a pending connection that became so before this time, and returns its socket, which
    /// the caller shuts down: the oldest of those that were told their last error, or else the
    /// oldest one. It counts as open until `closed` is called.
    pub fn evict(&mut self, before: Duration) -> Option<RawFd>
        ensures all { self.new.all ≡ self.old.all }
        ensures pending { self.old.pending ≡ self.new.pending + how_many result }
        ensures sessions { self.new.sessions ≡ self.old.sessions }
        ensures capacity { self.new.capacity ≡ self.old.capacity }
        ensures within { IsWithin self.old × IsWithin self.new }
    {
        self.evict_first(before, true)
    }

    /// Evicts the oldest connection whose first packets weren't read, and returns its socket, which the
    /// caller shuts down. It counts as open until `closed` is called.
    pub fn evict_unread(&mut self) -> Option<RawFd>
        ensures all { self.new.all ≡ self.old.all }
        ensures pending { self.old.pending ≡ self.new.pending + how_many result }
        ensures sessions { self.new.sessions ≡ self.old.sessions }
        ensures capacity { self.new.capacity ≡ self.old.capacity }
        ensures within { IsWithin self.old × IsWithin self.new }
    {
        self.evict_first(Duration::MAX, false)
    }

    // Returns the slot and the socket of the pending connection that is evicted first of those that
    // became so before this time. Only with `may_be_told` it may have been told its last error.
    fn first(&self, before: Duration, may_be_told: bool) -> Option<(usize, RawFd)>
        ensures within { IsWithin self.now }
    {
        let mut first: Option<(usize, PendingConnection)> = None;
        for (slot, connection) in self.pending.iter() {
            let goes = match first {
                Some((_, found)) => connection.goes_before(&found),
                None => true,
            };
            let may_go = connection.since < before && (may_be_told || !connection.is_told);
            if goes && may_go {
                first = Some((slot, *connection));
            }
        }
        let (slot, connection) = first?;
        Some((slot, connection.socket))
    }

    // Makes that connection no longer pending, and returns its socket.
    fn evict_first(&mut self, before: Duration, may_be_told: bool) -> Option<RawFd>
        ensures all { self.new.all ≡ self.old.all }
        ensures pending { self.old.pending ≡ self.new.pending + how_many result }
        ensures sessions { self.new.sessions ≡ self.old.sessions }
        ensures capacity { self.new.capacity ≡ self.old.capacity }
        ensures within { IsWithin self.old × IsWithin self.new }
    {
        let (slot, socket) = self.first(before, may_be_told)?;
        self.pending.try_remove(slot)?;
        Some(socket)
    }

    /// Begins the session of a pending connection, which is no longer pending. Doesn't if sessions
    /// have all connections that aren't kept, or if it isn't pending, for example because it was
    /// evicted.
    pub fn begin_session(&mut self, id: PendingId) -> Begun
        ensures all { self.new.all ≡ self.old.all }
        ensures begun { result ≡ begun.Begun → (self.old.pending ≡ self.new.pending + 1)
            × (self.new.sessions ≡ self.old.sessions + 1) }
        // Sessions have no connection that is kept.
        ensures bounded { IsWithin self.old × IsWithin self.new }
        ensures refused { result ≢ begun.Begun → self.new ≡ self.old }
        // One is refused only where sessions have all the others, or where it isn't pending.
        ensures full { result ≡ begun.Full
            → session_room self.old.capacity ≤ self.old.sessions }
        ensures capacity { self.new.capacity ≡ self.old.capacity }
    {
        if self.sessions >= self.capacity.connections.saturating_sub(self.capacity.kept) {
            return Begun::Full;
        }
        if !self.activate(id) {
            return Begun::Gone;
        }
        self.sessions = self.sessions.saturating_add(1);
        Begun::Begun
    }

    /// Records that a session has ended. Its connection is still open.
    pub fn end_session(&mut self)
        ensures all { self.new.all ≡ self.old.all }
        ensures pending { self.new.pending ≡ self.old.pending }
        ensures sessions { self.new.sessions ≡ self.old.sessions - 1 }
        ensures capacity { self.new.capacity ≡ self.old.capacity }
    {
        self.sessions = self.sessions.saturating_sub(1);
    }

    /// Makes a connection no longer pending. Returns false if it isn't pending, for example because
    /// it was evicted.
    pub fn activate(&mut self, id: PendingId) -> bool
        ensures all { self.new.all ≡ self.old.all }
        ensures activated { result ≡ true → self.old.pending ≡ self.new.pending + 1 }
        ensures gone { result ≡ false → self.new ≡ self.old }
        ensures sessions { self.new.sessions ≡ self.old.sessions }
        ensures capacity { self.new.capacity ≡ self.old.capacity }
    {
        match self.pending.get(id.slot) {
            Some(connection) if connection.number == id.number => {}
            _ => return false,
        }
        self.pending.try_remove(id.slot).is_some()
    }

    /// Returns the number of open connections.
    pub fn open_count(&self) -> usize
        ensures value { result ≡ self.now.all }
        // This is true of every value of this type.
        ensures within { IsWithin self.now }
    {
        self.open_count
    }

    /// Returns the number of pending connections.
    pub fn pending_count(&self) -> usize
        ensures { result ≡ self.now.pending }
    {
        self.pending.len()
    }

    /// Records that a connection was closed.
    pub fn closed(&mut self)
        ensures all { self.new.all ≡ self.old.all - 1 }
        ensures pending { self.new.pending ≡ self.old.pending }
        ensures sessions { self.new.sessions ≡ self.old.sessions }
        ensures capacity { self.new.capacity ≡ self.old.capacity }
    {
        self.open_count = self.open_count.saturating_sub(1);
    }
}
