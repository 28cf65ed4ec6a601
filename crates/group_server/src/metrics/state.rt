//! The state of a node at one moment, for its metrics.
use ini_config::Settings;
use libc::clock;
use node_threads::PoolCensus;
use pg_ids::DatabaseNo;
use sockets::descriptor_limit;
use std::alloc::{AllocError, Global};
use std::time::Duration;
use telemetry::{NodeCounters, Passed, Times, labels_with, micros_of};

/// The states of a node's clients and links at one moment, by database in the order of its settings,
/// and how many cancel requests there were, in the order in which the console shows them.
#[derive(Debug, Drop)]
pub struct Census {
    /// Clients and links, by database.
    pub pools: Vec<PoolCensus>,
    /// Cancel requests, by kind.
    pub cancels: [u64; 8],
}

/// What the process uses, at one moment.
#[derive(Clone, Copy, Debug, PartialEq, Eq)]
pub struct ProcessState {
    /// When it started, in microseconds since 1970, if that is known.
    pub started: Option<u64>,
    /// The processor time that it has used, in microseconds, if that is known.
    pub processor: Option<u64>,
    /// How many descriptors it may open.
    pub descriptors: u64,
}

impl ProcessState {
    /// Returns what the process uses now, which started at this time since 1970.
    pub fn now(started: Option<Duration>) -> ProcessState {
        ProcessState {
            started: started.map(micros_of),
            processor: u64::try_from(clock()).ok(),
            descriptors: descriptor_limit() as u64,
        }
    }
}

/// A node at one moment.
#[derive(Debug, Drop)]
pub struct NodeState {
    /// Its labels.
    pub labels: Vec<u8>,
    /// The maximum number of its clients.
    pub most_clients: u64,
    /// The number of cancel requests, by kind.
    pub cancels: [u64; 8],
    /// The waits of clients that closed their connection before their database was known.
    pub strangers: Times,
    /// Its peers, each with the number of cancel requests that were forwarded to it and failed.
    pub forwards: Vec<(u16, u64)>,
    /// Its databases, in the order of its settings.
    pub pools: Vec<PoolState>,
}

/// A database of a node at one moment.
#[derive(Debug, Drop)]
pub struct PoolState {
    /// Its labels.
    pub labels: Vec<u8>,
    /// The maximum number of its links.
    pub most_links: u64,
    /// The states of its clients and links.
    pub census: PoolCensus,
    /// The values of its counters.
    pub passed: Passed,
    /// How long the client has waited for a link that waits longest, in microseconds, or 0.
    pub oldest_wait: u64,
}

impl NodeState {
    /// Returns the state of the node with these settings, with this census, these counters and, by
    /// database, the longest waits that go on.
    pub fn new(
        alloc: Global,
        settings: &Settings,
        census: &Census,
        counters: &NodeCounters,
        oldest: &[u64],
    ) -> Result<NodeState, AllocError> {
        let number = settings.peer_id().get().to_string(alloc)?;
        let labels = labels_with(alloc, &[], "node", number.as_str())?;
        let mut pools = Vec::with_capacity(alloc, census.pools.len())?;
        for (place, found) in census.pools.iter().enumerate() {
            if let Some(mut pool) = pool_of(alloc, settings, &labels, place, found, counters)? {
                pool.oldest_wait = oldest.get(place).copied().unwrap_or(0);
                pools.push(pool)?;
            }
        }
        Ok(NodeState {
            labels,
            most_clients: u64::from(settings.max_client_conn()),
            cancels: census.cancels,
            strangers: counters.strangers().times(),
            forwards: counters.failed_forwards(alloc)?,
            pools,
        })
    }
}

// Returns the state of the database at this place of the settings, if there is one.
fn pool_of(
    alloc: Global,
    settings: &Settings,
    labels: &[u8],
    place: usize,
    census: &PoolCensus,
    counters: &NodeCounters,
) -> Result<Option<PoolState>, AllocError> {
    let Ok(number) = u8::try_from(place) else {
        return Ok(None);
    };
    let Some(entry) = settings.database(DatabaseNo(number)) else {
        return Ok(None);
    };
    let Some(counted) = counters.pool(place) else {
        return Ok(None);
    };
    Ok(Some(PoolState {
        labels: labels_with(alloc, labels, "database", entry.name)?,
        most_links: u64::from(entry.pool_size),
        census: *census,
        passed: counted.passed(),
        oldest_wait: 0,
    }))
}
