//! The row of a session.
use crate::board::moment::Moment;
use std::net::SocketAddr;
use std::sync::atomic::{AtomicU64, Ordering};
use std::time::Duration;

/// What a session does.
#[derive(Clone, Copy, Debug, PartialEq, Eq)]
pub enum ClientState {
    /// It is between transactions.
    Idle,
    /// It waits for a link.
    Waiting,
    /// A link is opened for it.
    Opening,
    /// It has a link.
    Active,
    /// It is on the console.
    Console,
}

impl ClientState {
    /// Returns its name.
    pub fn name(self) -> &'static str {
        match self {
            ClientState::Idle => "idle",
            ClientState::Waiting => "waiting",
            ClientState::Opening => "opening",
            ClientState::Active => "active",
            ClientState::Console => "console",
        }
    }

    fn number(self) -> u64 {
        match self {
            ClientState::Idle => 0,
            ClientState::Waiting => 1,
            ClientState::Opening => 2,
            ClientState::Active => 3,
            ClientState::Console => 4,
        }
    }

    fn of(number: u64) -> ClientState {
        match number {
            0 => ClientState::Idle,
            1 => ClientState::Waiting,
            2 => ClientState::Opening,
            3 => ClientState::Active,
            _ => ClientState::Console,
        }
    }
}

/// Who a session's client is.
#[derive(Clone, Copy, Debug, PartialEq, Eq)]
pub struct ClientNames {
    /// Its address, if it is known.
    pub address: Option<SocketAddr>,
    /// The place of its database in the settings. A session on the console has none.
    pub database: Option<usize>,
    /// Its slot. A session on the console has none.
    pub slot: Option<u16>,
}

/// The row of a session. Its own thread changes it, and pages read it.
#[derive(Drop)]
pub struct ClientRow {
    names: ClientNames,
    state: Moment,
    // When its wait for a link began, in microseconds, and 1; or 0.
    waits_since: AtomicU64,
    // The server's process of its link.
    process: AtomicU64,
}

/// A session at one moment.
#[derive(Clone, Copy, Debug, PartialEq, Eq)]
pub struct ClientSight {
    /// Who its client is.
    pub names: ClientNames,
    /// What it does.
    pub state: ClientState,
    /// For how many microseconds.
    pub micros: u64,
    /// The server's process of its link, if it has one.
    pub process: Option<u64>,
    /// For how many microseconds it waits for a link, if it does.
    pub wait: Option<u64>,
}

impl ClientRow {
    /// Returns the row of a session that has begun now, and is in this state.
    pub fn new(names: ClientNames, state: ClientState, now: Duration) -> ClientRow {
        ClientRow {
            names,
            state: Moment::new(state.number(), now),
            waits_since: AtomicU64::new(0),
            process: AtomicU64::new(0),
        }
    }

    /// It does nothing from now on.
    #[inline]
    pub fn rest(&self, now: Duration) {
        self.state.set(ClientState::Idle.number(), now);
    }

    /// It waits for a link from now on.
    pub fn wait(&self, now: Duration) {
        self.state.set(ClientState::Waiting.number(), now);
        self.begin_wait(now);
    }

    /// A link is opened for it from now on.
    pub fn open(&self, now: Duration) {
        self.state.set(ClientState::Opening.number(), now);
        self.begin_wait(now);
    }

    // Its wait begins now, unless it has begun.
    fn begin_wait(&self, now: Duration) {
        if self.waits_since.load(Ordering::SeqCst) == 0 {
            let since = Moment::micros_of(now).saturating_add(1);
            self.waits_since.store(since, Ordering::SeqCst);
        }
    }

    /// It doesn't wait any more.
    pub fn end_wait(&self, now: Duration) {
        self.waits_since.store(0, Ordering::SeqCst);
        self.rest(now);
    }

    /// It has a link to this process of a server from now on.
    #[inline]
    pub fn begin(&self, process: u64, now: Duration) {
        self.process.store(process, Ordering::SeqCst);
        self.state.set(ClientState::Active.number(), now);
    }

    /// Returns what is seen of it now.
    pub fn sight(&self, now: Duration) -> ClientSight {
        let (number, micros) = self.state.get(now);
        let state = ClientState::of(number);
        let process = match state {
            ClientState::Active => Some(self.process.load(Ordering::SeqCst)),
            _ => None,
        };
        ClientSight {
            names: self.names,
            state,
            micros,
            process,
            wait: self.waited(now),
        }
    }

    // Returns for how many microseconds it waits, if it does.
    fn waited(&self, now: Duration) -> Option<u64> {
        let since = self.waits_since.load(Ordering::SeqCst);
        if since == 0 {
            return None;
        }
        Some(Moment::micros_of(now).saturating_sub(since.saturating_sub(1)))
    }
}
