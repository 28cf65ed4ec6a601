//! Limits of the log. No setting changes them.

/// How many lines of the log are queued, at most.
pub const LINES_KEPT: usize = 128;

/// How many lines of one kind the log has per second, at most.
pub const LINES_PER_SECOND: u32 = 10;

/// How long the process waits for the queued lines to be written before it exits.
pub const LAST_LINES_MILLIS: u64 = 1_000;

/// How many characters of a value a line of the log has, at most.
pub const LONGEST_VALUE: usize = 500;
