//! Time limits, in milliseconds, and other limits of a group. No setting changes them.

/// How long connecting to a server and logging in there may take together.
pub const LOGIN_MILLIS: u64 = 15_000;

/// While a server is tried again: after how long it is looked whether the client has left.
pub const RETRY_LOOK_MILLIS: u64 = 250;

/// How long connecting for a cancel request may take.
pub const CANCEL_CONNECT_MILLIS: u64 = 5_000;

/// How long the end of a connection on which a cancel request was sent is awaited.
pub const CANCEL_END_MILLIS: u64 = 10_000;

/// How long the first packets of a connection may take together.
pub const FIRST_PACKETS_MILLIS: u64 = 60_000;

/// The same, if no other thread could accept the next connection meanwhile.
pub const ALONE_MILLIS: u64 = 1_000;

/// How long connections may stay open while the group drains.
pub const DRAIN_MILLIS: u64 = 60_000;

/// How long pending connections may stay open while the group drains.
pub const DRAIN_PACKETS_MILLIS: u64 = 1_000;

/// The pause after all connections are closed, before this is checked again: by then a connection
/// that was accepted before the listeners were closed is counted.
pub const DRAIN_PAUSE_MILLIS: u64 = 100;

/// How long a connection at the metrics port may take.
pub const METRICS_MILLIS: u64 = 5_000;

/// How much of that its request may take.
pub const METRICS_REQUEST_MILLIS: u64 = 1_000;

/// How many threads serve connections at the metrics port.
pub const METRICS_READERS: usize = 4;

/// How long metrics are cached.
pub const METRICS_AGE_MILLIS: u64 = 1_000;

/// How old a connection has to be to be evicted because no thread or descriptor is left.
pub const EVICTION_AGE_MILLIS: u64 = 1_000;

/// How many connections may wait at an address to be accepted. The system's `net.core.somaxconn` may
/// be lower.
pub const BACKLOG: i32 = 4_096;
