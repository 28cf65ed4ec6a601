//! Connections to a node's servers and peers, and what the log and the metrics say of its clients.
mod lines;
mod observing;
mod opening;

use ini_config::{Group, Peer, Settings};
use pg_ids::{DatabaseNo, PeerNo, SlotNo};
use sockets::{Connection, Machine, ToldNames};
use startup::Reports;
use std::alloc::Global;
use std::cell::Cell;
use std::io;
use std::io::ErrorKind;
use std::sync::Arc;
use telemetry::{Log, Meter, NodeCounters};

/// Connects a node to its servers and peers over TCP.
#[derive(Drop)]
pub struct Dialer<M: Machine> {
    machine: M,
    alloc: Global,
    group: Arc<Group, Global>,
    place: usize,
    log: Arc<Log, Global>,
    reports: Arc<Reports, Global>,
    // Names of start-up parameters without effect that the log had lately.
    told_names: ToldNames,
    // For how many seconds a server is tried again.
    server_wait: u32,
    counters: Option<Arc<NodeCounters, Global>>,
}

/// Connects a node to its servers and peers for the client of one connection, and observes that.
#[derive(Drop)]
pub struct ClientDialer<'a, M: Machine> {
    dialer: &'a Dialer<M>,
    connection: &'a Connection,
    // The database of its session. A session on the console has none.
    database: Cell<Option<DatabaseNo>>,
    // The slot of its cancel request's key, and where the request is sent.
    slot: Cell<Option<SlotNo>>,
    target: Cell<Option<Target>>,
}

// Where a cancel request is sent.
#[derive(Clone, Copy, Debug, PartialEq, Eq)]
enum Target {
    // To the server of this database, for its process of this number.
    Server(DatabaseNo, u32),
    // To this peer.
    Peer(PeerNo),
}

impl<M: Machine> Dialer<M> {
    /// Returns the dialer of the node at this place of the group, whose logins have these reports.
    /// Nothing is counted.
    pub fn new(
        machine: M,
        alloc: Global,
        group: Arc<Group, Global>,
        place: usize,
        log: Arc<Log, Global>,
        reports: Arc<Reports, Global>,
    ) -> Dialer<M> {
        Dialer {
            machine,
            alloc,
            group,
            place,
            log,
            reports,
            told_names: ToldNames::new(alloc),
            server_wait: 0,
            counters: None,
        }
    }

    /// Tries a server again for this many seconds if it takes no connections.
    pub fn wait_for_servers(&mut self, seconds: u32) {
        self.server_wait = seconds;
    }

    /// Counts what passes over the node's connections in these counters.
    pub fn count_at(&mut self, counters: Arc<NodeCounters, Global>) {
        self.counters = Some(counters);
    }

    /// Returns the meter of a new connection to the node.
    pub fn meter(&self) -> Meter {
        match &self.counters {
            Some(counters) => Meter::of(Arc::try_clone(counters).ok()),
            None => Meter::none(),
        }
    }

    /// Returns the dialer for the client of this connection.
    pub fn on_behalf<'a>(&'a self, connection: &'a Connection) -> ClientDialer<'a, M> {
        ClientDialer {
            dialer: self,
            connection,
            database: Cell::new(None),
            slot: Cell::new(None),
            target: Cell::new(None),
        }
    }

    /// Returns the parameters that are reported to clients beside those of every login.
    pub fn reports(&self) -> &Reports {
        &self.reports
    }

    /// Returns the number of its node.
    pub fn number(&self) -> u16 {
        match self.group.get(self.place) {
            Some(settings) => settings.peer_id().get(),
            None => 0,
        }
    }

    fn settings(&self) -> io::Result<&Settings> {
        self.group
            .get(self.place)
            .ok_or(io::Error::from(ErrorKind::NotFound))
    }
}

// Returns the entry of this peer, if there is one.
fn find_peer<'a>(settings: &'a Settings, peer: PeerNo) -> Option<Peer<'a>> {
    for place in 0..settings.peer_count() {
        match settings.peer(place) {
            Some(entry) if entry.number == peer => return Some(entry),
            _ => {}
        }
    }
    None
}
