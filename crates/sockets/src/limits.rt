//! Time limits of connections, in milliseconds, and how many there may be. No setting changes them.

/// How often a thread that waits for one side of a session checks the other, at least.
pub const POLL_MILLIS: u64 = 500;

/// How long a write to a server may block. The rest is buffered, and is written while the reply is
/// read.
pub const WRITE_MILLIS: u64 = 50;

/// How long the rest of an error with which a server refuses a login is awaited, for the log.
pub const REFUSAL_MILLIS: u64 = 500;

/// How long a client's input is still read at the end of its connection.
pub const ENDING_MILLIS: u64 = 5_000;

/// After which pause in it the write side of the connection is shut down, if the client was
/// sending.
pub const SENDING_PAUSE_MILLIS: u64 = 200;

/// After which pause, once the write side is shut down, the connection is closed.
pub const ENDING_PAUSE_MILLIS: u64 = 1_000;

/// How many connections of a node may be pending at a time: 256 cancel requests and 64 others.
pub const PENDING_PER_NODE: usize = 320;

/// How many connections of a node no session has.
pub const KEPT_PER_NODE: usize = 128;

/// How many sessions on the console a node serves at a time.
pub const CONSOLES_PER_NODE: u64 = 32;

/// After which silence a session on the console ends.
pub const CONSOLE_MILLIS: u64 = 60_000;

/// How long a client may take to complete a message that it has begun, once the group drains.
pub const DRAIN_MESSAGE_MILLIS: u64 = 4_000;

/// How many cancel requests a node serves at a time.
pub const CANCELS_PER_NODE: usize = 256;

/// How many connections above the limit are admitted while evicted ones are still open.
pub const SPARE_CONNECTIONS: usize = 8;

/// After how long the log has a start-up parameter without effect again.
pub const NAME_MILLIS: u64 = 60_000;

/// How many such names are kept, at most.
pub const NAMES_KEPT: usize = 64;
