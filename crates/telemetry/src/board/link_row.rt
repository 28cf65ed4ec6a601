//! The row of a link.
use crate::board::moment::Moment;
use std::sync::atomic::{AtomicU64, Ordering};
use std::time::Duration;

/// What a link is for.
#[derive(Clone, Copy, Debug, PartialEq, Eq)]
pub enum LinkState {
    /// It is opened.
    Opening,
    /// No client has it.
    Idle,
    /// A client has it.
    Active,
}

impl LinkState {
    /// Returns its name.
    pub fn name(self) -> &'static str {
        match self {
            LinkState::Opening => "opening",
            LinkState::Idle => "idle",
            LinkState::Active => "active",
        }
    }

    fn number(self) -> u64 {
        match self {
            LinkState::Opening => 0,
            LinkState::Idle => 1,
            LinkState::Active => 2,
        }
    }

    fn of(number: u64) -> LinkState {
        match number {
            0 => LinkState::Opening,
            1 => LinkState::Idle,
            _ => LinkState::Active,
        }
    }
}

/// The row of a link. The thread of its client changes it, and pages read it.
#[derive(Drop)]
pub struct LinkRow {
    // The place of its database in the settings.
    database: usize,
    // The port of this side, once it is connected, or 0.
    port: AtomicU64,
    state: Moment,
    // The server's process, once its login is done.
    process: AtomicU64,
    // The place of its client's row among those of the node.
    client: AtomicU64,
}

/// A link at one moment.
#[derive(Clone, Copy, Debug, PartialEq, Eq)]
pub struct LinkSight {
    /// The place of its database in the settings.
    pub database: usize,
    /// The port of this side, or 0 if it isn't known.
    pub port: u64,
    /// What it is for.
    pub state: LinkState,
    /// For how many microseconds.
    pub micros: u64,
    /// The server's process, once its login is done.
    pub process: Option<u64>,
    /// The place of its client's row, if a client has it.
    pub client: Option<usize>,
}

impl LinkRow {
    /// Returns the row of a link of this database that begins to be opened.
    pub fn new(database: usize, now: Duration) -> LinkRow {
        LinkRow {
            database,
            port: AtomicU64::new(0),
            state: Moment::new(LinkState::Opening.number(), now),
            process: AtomicU64::new(0),
            client: AtomicU64::new(0),
        }
    }

    /// It is connected from this port.
    pub fn connect(&self, port: u16) {
        self.port.store(u64::from(port), Ordering::SeqCst);
    }

    /// Its login is done, at this process of the server.
    pub fn log_in(&self, process: u32, now: Duration) {
        self.process.store(u64::from(process), Ordering::SeqCst);
        self.rest(now);
    }

    /// No client has it from now on.
    #[inline]
    pub fn rest(&self, now: Duration) {
        self.state.set(LinkState::Idle.number(), now);
    }

    /// The client with the row at this place has it from now on. Returns the server's process.
    #[inline]
    pub fn give(&self, client: usize, now: Duration) -> u64 {
        self.client.store(client as u64, Ordering::SeqCst);
        self.state.set(LinkState::Active.number(), now);
        self.process.load(Ordering::SeqCst)
    }

    /// Returns what is seen of it now.
    pub fn sight(&self, now: Duration) -> LinkSight {
        let (number, micros) = self.state.get(now);
        let state = LinkState::of(number);
        let process = match state {
            LinkState::Opening => None,
            _ => Some(self.process.load(Ordering::SeqCst)),
        };
        let client = match state {
            LinkState::Active => usize::try_from(self.client.load(Ordering::SeqCst)).ok(),
            _ => None,
        };
        LinkSight {
            database: self.database,
            port: self.port.load(Ordering::SeqCst),
            state,
            micros,
            process,
            client,
        }
    }
}
