//! A state, and when it began, as one number.
use crate::metrics::micros_of;
use std::sync::atomic::{AtomicU64, Ordering};
use std::time::Duration;

// How many states there may be.
const STATES: u64 = 8;

/// A state below 8 and the microsecond of its begin, which are read and written together.
#[derive(Drop)]
pub struct Moment {
    word: AtomicU64,
}

impl Moment {
    /// Returns a state that begins now.
    pub fn new(state: u64, now: Duration) -> Moment {
        Moment {
            word: AtomicU64::new(word_of(state, now)),
        }
    }

    /// Sets a state that begins now.
    #[inline]
    pub fn set(&self, state: u64, now: Duration) {
        self.word.store(word_of(state, now), Ordering::SeqCst);
    }

    /// Returns the state, and for how many microseconds it is there.
    pub fn get(&self, now: Duration) -> (u64, u64) {
        let word = self.word.load(Ordering::SeqCst);
        let since = word / STATES;
        (word % STATES, Moment::micros_of(now).saturating_sub(since))
    }

    /// Returns a time in microseconds.
    pub fn micros_of(time: Duration) -> u64 {
        micros_of(time)
    }
}

fn word_of(state: u64, now: Duration) -> u64 {
    micros_of(now)
        .saturating_mul(STATES)
        .saturating_add(state % STATES)
}
