//! Counters of the databases of a node.
use crate::board::Board;
use crate::metrics::ends::{ENDS, Ends};
use crate::metrics::histogram::{Histogram, Times};
use ini_config::{Group, Settings};
use pg_ids::PeerNo;
use std::alloc::{AllocError, Global};
use std::sync::Arc;
use std::sync::atomic::{AtomicU64, Ordering};

/// The counters of a group's nodes, in their order.
#[derive(Drop)]
pub struct Counters {
    nodes: Vec<Arc<NodeCounters, Global>>,
}

/// The counters of a node's databases, in the order of its settings, and what its sessions and links
/// do.
#[derive(Drop)]
pub struct NodeCounters {
    pools: Vec<Arc<PoolCounters, Global>>,
    // The waits of clients that closed their connection before their database was known.
    strangers: Histogram,
    forwards: Vec<Forwards>,
    board: Board,
}

// The cancel requests that were forwarded to a peer and failed.
#[derive(Drop)]
struct Forwards {
    peer: u16,
    failed: AtomicU64,
}

/// The counters of a database of a node.
#[derive(Drop)]
pub struct PoolCounters {
    // The number of logins of its clients.
    logins: AtomicU64,
    // The ends of its sessions.
    ends: Ends,
    // The number of transactions that have ended on its links.
    transactions: AtomicU64,
    // The number of bytes received from its clients, and sent to them.
    received: AtomicU64,
    sent: AtomicU64,
    waits: Histogram,
    // How long clients had a link.
    turns: Histogram,
    // How long its links took to be opened.
    opens: Histogram,
}

/// The values of the counters of a database of a node.
#[derive(Clone, Copy, Debug, PartialEq, Eq)]
pub struct Passed {
    /// The number of logins of its clients.
    pub logins: u64,
    /// The number of ends of its sessions, by kind.
    pub ends: [u64; ENDS],
    /// The number of transactions that have ended on its links.
    pub transactions: u64,
    /// The number of bytes received from its clients.
    pub received: u64,
    /// The number of bytes sent to its clients.
    pub sent: u64,
    /// How long its clients waited for a link.
    pub waits: Times,
    /// How long its clients had a link, each time.
    pub turns: Times,
    /// How long its links took to be opened.
    pub opens: Times,
}

impl Counters {
    /// Returns the counters of this group's nodes, all zero.
    pub fn new(alloc: Global, group: &Group) -> Result<Counters, AllocError> {
        let mut nodes = Vec::with_capacity(alloc, group.len())?;
        for settings in group.nodes() {
            nodes.push(Arc::new(alloc, NodeCounters::new(alloc, settings)?)?)?;
        }
        Ok(Counters { nodes })
    }

    /// Returns the counters of the node at this place of the group.
    pub fn node(&self, place: usize) -> Option<&Arc<NodeCounters, Global>> {
        self.nodes.get(place)
    }
}

impl NodeCounters {
    /// Returns the counters of a node with these settings, all zero.
    pub fn new(alloc: Global, settings: &Settings) -> Result<NodeCounters, AllocError> {
        let mut pools = Vec::with_capacity(alloc, settings.database_count())?;
        for _ in 0..settings.database_count() {
            pools.push(Arc::new(alloc, PoolCounters::new(alloc)?)?)?;
        }
        Ok(NodeCounters {
            pools,
            strangers: Histogram::new(alloc)?,
            forwards: forwards_of(alloc, settings)?,
            board: Board::new(alloc),
        })
    }

    /// Returns the counters of the database at this place of the settings.
    pub fn pool(&self, place: usize) -> Option<&Arc<PoolCounters, Global>> {
        self.pools.get(place)
    }

    /// Returns the waits of clients that closed their connection before their database was known.
    pub fn strangers(&self) -> &Histogram {
        &self.strangers
    }

    /// Returns what its sessions and links do.
    pub fn board(&self) -> &Board {
        &self.board
    }

    /// Counts a cancel request that was forwarded to this peer and failed.
    pub fn fail_forward(&self, peer: PeerNo) {
        for forwards in &self.forwards {
            if forwards.peer == peer.get() {
                forwards.failed.fetch_add(1, Ordering::SeqCst);
            }
        }
    }

    /// Returns the peers, each with the number of cancel requests that were forwarded to it and failed.
    pub fn failed_forwards(&self, alloc: Global) -> Result<Vec<(u16, u64)>, AllocError> {
        let mut failed = Vec::with_capacity(alloc, self.forwards.len())?;
        for forwards in &self.forwards {
            failed.push((forwards.peer, forwards.failed.load(Ordering::SeqCst)))?;
        }
        Ok(failed)
    }
}

// Returns counts for the peers of these settings.
fn forwards_of(alloc: Global, settings: &Settings) -> Result<Vec<Forwards>, AllocError> {
    let mut forwards = Vec::with_capacity(alloc, settings.peer_count())?;
    for place in 0..settings.peer_count() {
        if let Some(entry) = settings.peer(place) {
            let peer = entry.number.get();
            let failed = AtomicU64::new(0);
            forwards.push(Forwards { peer, failed })?;
        }
    }
    Ok(forwards)
}

impl PoolCounters {
    // Returns the counters of a database, all zero.
    fn new(alloc: Global) -> Result<PoolCounters, AllocError> {
        Ok(PoolCounters {
            logins: AtomicU64::new(0),
            ends: Ends::new(alloc)?,
            transactions: AtomicU64::new(0),
            received: AtomicU64::new(0),
            sent: AtomicU64::new(0),
            waits: Histogram::new(alloc)?,
            turns: Histogram::new(alloc)?,
            opens: Histogram::new(alloc)?,
        })
    }

    /// Counts a login.
    pub fn log_in(&self) {
        self.logins.fetch_add(1, Ordering::SeqCst);
    }

    /// Returns the ends of its sessions.
    pub fn ends(&self) -> &Ends {
        &self.ends
    }

    /// Counts a transaction that has ended.
    #[inline]
    pub fn end(&self) {
        self.transactions.fetch_add(1, Ordering::SeqCst);
    }

    /// Counts bytes that were received from a client and sent to it.
    #[inline]
    pub fn pass(&self, received: u64, sent: u64) {
        self.received.fetch_add(received, Ordering::SeqCst);
        self.sent.fetch_add(sent, Ordering::SeqCst);
    }

    /// Returns the waits of its clients.
    pub fn waits(&self) -> &Histogram {
        &self.waits
    }

    /// Returns how long clients had a link.
    pub fn turns(&self) -> &Histogram {
        &self.turns
    }

    /// Returns how long its links took to be opened.
    pub fn opens(&self) -> &Histogram {
        &self.opens
    }

    /// Returns the values.
    pub fn passed(&self) -> Passed {
        Passed {
            logins: self.logins.load(Ordering::SeqCst),
            ends: self.ends.counts(),
            transactions: self.transactions.load(Ordering::SeqCst),
            received: self.received.load(Ordering::SeqCst),
            sent: self.sent.load(Ordering::SeqCst),
            waits: self.waits.times(),
            turns: self.turns.times(),
            opens: self.opens.times(),
        }
    }
}
