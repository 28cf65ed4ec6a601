//! Tries to reach a server that takes no connections for now.
use crate::Deadline;
use std::cell::Cell;
use std::time::{Clock, Duration};

// The first pause between two tries, and the longest one, in milliseconds.
const FIRST_PAUSE: u64 = 50;

const LONGEST_PAUSE: u64 = 1_000;

/// How far a client's connection has tried to reach a server.
#[derive(Drop)]
pub struct Retries {
    // Whether the last try failed because the server takes no connections for now.
    is_for_now: Cell<bool>,
    // When trying ends, once a try has failed.
    end: Cell<Option<Deadline>>,
    // The next pause, in milliseconds.
    pause: Cell<u64>,
}

impl Retries {
    /// Returns the state before any try.
    pub const fn new() -> Retries {
        Retries {
            is_for_now: Cell::new(false),
            end: Cell::new(None),
            pause: Cell::new(FIRST_PAUSE),
        }
    }

    /// The last try failed because the server takes no connections for now.
    pub fn note_refused(&self) {
        self.is_for_now.set(true);
    }

    /// Returns how long to wait before the next try, or nothing if there is to be none: the last one
    /// failed for another reason, or it is more than this many seconds since the first one failed.
    pub fn next_pause<R: Clock>(&self, rt: &R, seconds: u32) -> Option<Duration> {
        if !self.is_for_now.get() {
            return None;
        }
        self.is_for_now.set(false);
        let end = self.end_after(rt, seconds)?;
        let left = end.left(rt).ok()?;
        let pause = self.pause.get();
        self.pause.set(pause.saturating_mul(2).min(LONGEST_PAUSE));
        Some(left.min(Duration::from_millis(pause)))
    }

    /// Forgets all tries: the server was reached, or the client's session ends.
    pub fn forget(&self) {
        self.is_for_now.set(false);
        self.end.set(None);
        self.pause.set(FIRST_PAUSE);
    }

    // Returns when trying ends: this many seconds after the first try failed.
    fn end_after<R: Clock>(&self, rt: &R, seconds: u32) -> Option<Deadline> {
        if let Some(end) = self.end.get() {
            return Some(end);
        }
        let end = Deadline::after(rt, u64::from(seconds).saturating_mul(1_000)).ok()?;
        self.end.set(Some(end));
        Some(end)
    }
}
