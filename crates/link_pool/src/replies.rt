//! What each step returns. `L` is a lease, `P` a permit and `T` a ticket, or what these carry; `S`
//! is a stream, or `()` where only the kind of reply matters. Some replies are a node's: the pools
//! alone never return them.
use pg_ids::{DatabaseNo, ServerKey};

/// The result of asking for a link.
#[derive(Clone, Copy, Debug, PartialEq, Eq)]
pub enum AcquireReply<L, P> {
    /// The client has this link: an idle one, or the one that it gave back and that is still
    /// quarantined.
    Got(L),
    /// No link is idle, and the client may open one.
    Open(P),
    /// The client waits for its turn.
    Waiting,
    /// The client's wait was cancelled, which is returned once: it has nothing, and may ask again.
    Cancelled,
    /// The client has a link or a permit, so nothing changes.
    Holding,
    /// No number is left for a permit, or for a node's step, so nothing changes.
    Exhausted,
    /// The client's pass is stale, so nothing changes (a node's reply).
    Stale,
}

/// The result of reporting that a link is open.
#[derive(Clone, Copy, Debug, PartialEq, Eq)]
pub enum UpReply<L, P, S> {
    /// The client has the link.
    Up(L),
    /// No number is left for a link, so nothing changes.
    Exhausted(P, S),
    /// The permit is no longer open, so nothing changes.
    Stale(S),
    /// No number is left for a step, so nothing changes, and the permit is spent (a node's reply).
    AtEnd(S),
}

/// The result of reporting that a link couldn't be opened.
#[derive(Clone, Copy, Debug, PartialEq, Eq)]
pub enum UpFailedReply {
    /// The place is free again.
    Freed,
    /// The permit is no longer open, so nothing changes.
    Stale,
    /// No number is left for a step, so nothing changes, and the permit is spent (a node's reply).
    Exhausted,
}

/// The result of giving a link back.
#[derive(Clone, Copy, Debug, PartialEq, Eq)]
pub enum ReleaseReply<S> {
    /// The link is free for others.
    Idle,
    /// The link waits for cancel requests to end.
    Quarantined,
    /// A cancel request for the link failed: it has left the pool, and its stream is to be closed.
    Closed(S),
    /// The lease is stale, so nothing changes.
    Stale(S),
    /// No number is left for a step, so nothing changes, and the lease is spent (a node's reply).
    Exhausted(S),
}

/// The result of closing a link.
#[derive(Clone, Copy, Debug, PartialEq, Eq)]
pub enum CloseReply<S> {
    /// The link has left the pool, and its stream is to be closed.
    Closed(S),
    /// The lease is stale, so nothing changes.
    Stale(S),
    /// No number is left for a step, so nothing changes, and the lease is spent (a node's reply).
    Exhausted(S),
}

/// The result of leaving.
#[derive(Clone, Copy, Debug, PartialEq, Eq)]
pub enum LeaveReply {
    /// The client has nothing here.
    Left,
    /// The client has a link or a permit, so nothing changes.
    Holding,
}

/// The result of a cancel request for the client of a slot.
#[derive(Clone, Copy, Debug, PartialEq, Eq)]
pub enum ServeReply<T> {
    /// Carry it to the server of this database, with this key, and report its end by the ticket.
    Serve(T, DatabaseNo, ServerKey),
    /// The client has no link, so nothing changes.
    NoLink,
    /// The link has as many open tickets as it may have, so nothing changes.
    Busy,
    /// No number is left for a ticket, so nothing changes.
    Exhausted,
}

/// The result of a cancel request's clean end.
#[derive(Clone, Copy, Debug, PartialEq, Eq)]
pub enum EndedReply {
    /// It was the last for its link, which is idle now.
    Freed,
    /// The link's client has it still, or others are on their way.
    Counted,
    /// The ticket is stale, so nothing changes.
    Stale,
    /// No number is left for a step, so nothing changes, and the ticket is spent (a node's reply).
    Exhausted,
}

/// The result of a cancel request that didn't end cleanly.
#[derive(Clone, Copy, Debug, PartialEq, Eq)]
pub enum FailedReply<S> {
    /// Its link is closed once its client gives it back.
    Condemned,
    /// Its link was quarantined: it has left the pool, and its stream is to be closed.
    Closed(S),
    /// The ticket is stale, so nothing changes.
    Stale,
    /// No number is left for a step, so nothing changes, and the ticket is spent (a node's reply).
    Exhausted,
}

/// The result of starting the pools again.
#[derive(Clone, Copy, Debug, PartialEq, Eq)]
pub enum RestartReply {
    /// A new incarnation began.
    Restarted,
    /// No incarnation is left, so nothing changes.
    Exhausted,
}
