//! The counts of one connection, which are added to the counters of its database, and the row of its
//! session.
use crate::board::{ClientNames, ClientRow, ClientState, LinkRow};
use crate::metrics::counters::{NodeCounters, PoolCounters};
use pg_ids::{DatabaseNo, PeerNo, SlotNo};
use std::alloc::Global;
use std::cell::{Cell, OnceCell};
use std::net::SocketAddr;
use std::sync::{Arc, Wait};
use std::time::{Clock, Duration};

/// The counts of one connection, if anything is counted. The clock is only read when its client waits
/// for a link, gets one, or releases it.
#[derive(Drop)]
pub struct Meter {
    node: Option<Arc<NodeCounters, Global>>,
    // The counters of its database, once that is known.
    pool: OnceCell<Arc<PoolCounters, Global>>,
    // The number of bytes received and sent since they were last added to the counters.
    received: Cell<u64>,
    sent: Cell<u64>,
    // Whether its client waits for a link, or may have to.
    may_wait: Cell<bool>,
    // Whether its client waits for a link.
    waits: Cell<bool>,
    // When its client last began to wait, if known.
    since: Cell<Option<Duration>>,
    // When its client got the link that it has, if known.
    began: Cell<Option<Duration>>,
    // When a link began to be opened for its client, if known.
    opened: Cell<Option<Duration>>,
    // The row of its session, once its client is logged in, and the row's place.
    row: OnceCell<Arc<ClientRow, Global>>,
    place: Cell<usize>,
    // The row of the link that its client has.
    link: Cell<Option<Arc<LinkRow, Global>>>,
}

impl Meter {
    /// Returns a meter that counts nothing.
    pub fn none() -> Meter {
        Meter::of(None)
    }

    /// Returns the meter of a connection to this node.
    pub fn of(node: Option<Arc<NodeCounters, Global>>) -> Meter {
        Meter {
            node,
            pool: OnceCell::new(),
            received: Cell::new(0),
            sent: Cell::new(0),
            may_wait: Cell::new(false),
            waits: Cell::new(false),
            since: Cell::new(None),
            began: Cell::new(None),
            opened: Cell::new(None),
            row: OnceCell::new(),
            place: Cell::new(0),
            link: Cell::new(None),
        }
    }

    /// Counts bytes of its session that were received from the client.
    #[inline]
    pub fn receive(&self, count: usize) {
        add(&self.received, count);
    }

    /// Counts bytes that were sent to the client. If it waits for a link, the wait has ended.
    #[inline]
    pub fn send<R: Clock>(&self, rt: &R, count: usize) {
        add(&self.sent, count);
        if self.may_wait.get() {
            self.end_wait(rt.monotonic().ok());
        }
    }

    /// The client of this address is logged in on this database, with this slot.
    pub fn log_in<R: Wait + Clock>(
        &self,
        rt: &R,
        address: Option<SocketAddr>,
        database: DatabaseNo,
        slot: SlotNo,
    ) {
        self.know(database);
        if let Some(pool) = self.pool.get() {
            pool.log_in();
        }
        let names = ClientNames {
            address,
            database: Some(usize::from(database.get())),
            slot: Some(slot.get()),
        };
        self.add_row(rt, names, ClientState::Idle);
    }

    /// The client of this address is logged in on the console.
    pub fn log_in_on_console<R: Wait + Clock>(&self, rt: &R, address: Option<SocketAddr>) {
        let names = ClientNames {
            address,
            database: None,
            slot: None,
        };
        self.add_row(rt, names, ClientState::Console);
    }

    // Adds the row of its session.
    fn add_row<R: Wait + Clock>(&self, rt: &R, names: ClientNames, state: ClientState) {
        let (Some(node), Ok(now)) = (&self.node, rt.monotonic()) else {
            return;
        };
        let row = ClientRow::new(names, state, now);
        if let Some((row, place)) = node.board().add_client(rt, row) {
            self.place.set(place);
            let _ = self.row.set(row);
        }
    }

    /// The session has ended, with an error of this code, for this reason; or without.
    pub fn count_end(&self, code: Option<&str>, refused: Option<&str>) {
        if let Some(pool) = self.pool.get() {
            pool.ends().add(code, refused);
        }
    }

    /// The client may have to wait for a link from now on.
    pub fn begin_wait<R: Clock>(&self, rt: &R) {
        if self.node.is_none() || self.waits.get() {
            return;
        }
        let now = rt.monotonic().ok();
        self.since.set(now);
        self.may_wait.set(true);
        if let (Some(row), Some(now)) = (self.row.get(), now) {
            row.wait(now);
        }
    }

    /// The client waits for a link, since the last `begin_wait`.
    pub fn wait(&self) {
        if self.node.is_some() {
            self.waits.set(true);
        }
    }

    /// The client waits for a link of this database, which is opened for it.
    pub fn open<R: Clock>(&self, rt: &R, database: DatabaseNo) {
        self.begin_wait(rt);
        self.wait();
        self.know(database);
        if self.node.is_none() {
            return;
        }
        let now = rt.monotonic().ok();
        self.opened.set(now);
        if let (Some(row), Some(now)) = (self.row.get(), now) {
            row.open(now);
        }
    }

    /// The link with this row, which was opened for the client, is logged in at this process of its
    /// server.
    pub fn open_link<R: Clock>(&self, rt: &R, link: Option<&Arc<LinkRow, Global>>, process: u32) {
        if self.node.is_none() {
            return;
        }
        let Ok(now) = rt.monotonic() else {
            return;
        };
        if let (Some(pool), Some(since)) = (self.pool.get(), self.opened.get()) {
            pool.opens().add(now.saturating_sub(since));
        }
        if let Some(link) = link {
            link.log_in(process, now);
        }
    }

    // Ends a wait.
    #[inline(never)]
    fn end_wait(&self, now: Option<Duration>) {
        self.may_wait.set(false);
        let has_waited = self.waits.replace(false);
        let Some(now) = now else {
            return;
        };
        if let Some(row) = self.row.get() {
            row.end_wait(now);
        }
        if has_waited {
            if let Some(since) = self.since.get() {
                self.add_wait(now.saturating_sub(since));
            }
        }
    }

    // Counts a wait of this length.
    fn add_wait(&self, time: Duration) {
        if let Some(pool) = self.pool.get() {
            pool.waits().add(time);
        } else if let Some(node) = &self.node {
            node.strangers().add(time);
        }
    }

    /// Sets the database of the client, or of its cancel request, if it wasn't known.
    #[inline(never)]
    pub fn know(&self, database: DatabaseNo) {
        if self.pool.get().is_some() {
            return;
        }
        if let Some(node) = &self.node {
            if let Some(pool) = node.pool(usize::from(database.get())) {
                if let Ok(pool) = Arc::try_clone(pool) {
                    let _ = self.pool.set(pool);
                }
            }
        }
    }

    /// The client has got a link of this database, with this row.
    #[inline]
    pub fn begin<R: Clock>(
        &self,
        rt: &R,
        database: DatabaseNo,
        link: Option<&Arc<LinkRow, Global>>,
    ) {
        if self.node.is_none() {
            return;
        }
        if self.pool.get().is_none() {
            self.know(database);
        }
        let now = rt.monotonic().ok();
        if self.may_wait.get() {
            self.end_wait(now);
        }
        self.began.set(now);
        if let (Some(link), Some(now)) = (link, now) {
            self.show_link(link, now);
        }
    }

    // Shows that the client has the link with this row from now on.
    fn show_link(&self, link: &Arc<LinkRow, Global>, now: Duration) {
        let Some(row) = self.row.get() else {
            return;
        };
        let process = link.give(self.place.get(), now);
        row.begin(process, now);
        self.link.set(Arc::try_clone(link).ok());
    }

    /// The client has ended its transaction and released its link.
    #[inline]
    pub fn end<R: Clock>(&self, rt: &R) {
        if self.node.is_none() {
            return;
        }
        let now = rt.monotonic().ok();
        if let Some(pool) = self.pool.get() {
            pool.end();
            pool.pass(self.received.replace(0), self.sent.replace(0));
            if let (Some(began), Some(now)) = (self.began.replace(None), now) {
                pool.turns().add(now.saturating_sub(began));
            }
        }
        if let Some(now) = now {
            self.show_rest(now);
        }
    }

    // Shows that the client has no link from now on.
    fn show_rest(&self, now: Duration) {
        if let Some(row) = self.row.get() {
            row.rest(now);
        }
        if let Some(link) = self.link.replace(None) {
            link.rest(now);
        }
    }

    /// Counts that the cancel request of its client wasn't forwarded to this peer, or failed there.
    pub fn fail_forward(&self, peer: PeerNo) {
        if let Some(node) = &self.node {
            node.fail_forward(peer);
        }
    }

    /// The connection has ended.
    pub fn finish<R: Wait + Clock>(&self, rt: &R) {
        if self.may_wait.get() {
            self.end_wait(rt.monotonic().ok());
        }
        if let Some(pool) = self.pool.get() {
            pool.pass(self.received.replace(0), self.sent.replace(0));
        }
        if let (Some(node), Some(_row)) = (&self.node, self.row.get()) {
            node.board().remove_client(rt, self.place.get());
        }
    }
}

// Adds a number of bytes to a count.
#[inline]
fn add(count: &Cell<u64>, bytes: usize) {
    count.set(count.get().wrapping_add(bytes as u64));
}
