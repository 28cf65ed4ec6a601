//! The threads that wait for connections at a listener.
use std::sync::Wait;
use std::sync::atomic::{AtomicBool, AtomicU64, Ordering};
use std::time::Duration;

// How many threads are to wait for a connection, at least: so simultaneous connections aren't
// accepted by one thread after the other.
const MIN_WAITING: u64 = 2;

// How many threads may wait for a connection: one that has served a connection and finds as many
// ends.
pub const MAX_WAITING: u64 = 8;

// How often a thread that accepted a connection checks whether another one waits, and how many
// milliseconds it waits each time.
const CHECKS: u32 = 1_000;

const CHECK_MILLIS: u64 = 5;

/// Counts the threads that wait for connections at a listener.
#[derive(Drop)]
pub struct AcceptThreads {
    waiting: AtomicU64,
    // How many are being started.
    starting: AtomicU64,
    // Whether the last one couldn't be started.
    start_failed: AtomicBool,
    is_shut_down: AtomicBool,
    // Counts changes of the above. Threads that wait for a change park here.
    changes: AtomicU64,
}

impl AcceptThreads {
    /// No thread waits.
    pub const fn new() -> AcceptThreads {
        AcceptThreads {
            waiting: AtomicU64::new(0),
            starting: AtomicU64::new(0),
            start_failed: AtomicBool::new(false),
            is_shut_down: AtomicBool::new(false),
            changes: AtomicU64::new(0),
        }
    }

    // Wakes the threads that wait for a change.
    fn notify(&self) {
        self.changes.fetch_add(1, Ordering::SeqCst);
        self.changes.wake_all();
    }

    // Returns the number of changes, modulo 2^32.
    fn changes(&self) -> u32 {
        (self.changes.load(Ordering::SeqCst) % (1 << 32)) as u32
    }

    /// Returns how many threads are to wait, at least.
    pub const fn min_waiting(&self) -> usize {
        MIN_WAITING as usize
    }

    /// No thread is to be started or to wait from now on.
    pub fn shut_down(&self) {
        self.is_shut_down.store(true, Ordering::SeqCst);
        self.notify();
    }

    /// Returns whether `shut_down` was called.
    pub fn is_shut_down(&self) -> bool {
        self.is_shut_down.load(Ordering::SeqCst)
    }

    /// Waits until another thread has to be started, and returns true. Returns false after
    /// `shut_down`.
    pub fn wait_until_needed<R: Wait>(&self, rt: &R) -> bool {
        for _ in rt.forever() {
            let seen = self.changes();
            if self.is_shut_down() {
                return false;
            }
            let waiting = self.waiting.load(Ordering::SeqCst);
            let starting = self.starting.load(Ordering::SeqCst);
            if waiting.saturating_add(starting) < MIN_WAITING {
                return true;
            }
            self.start_failed.store(false, Ordering::SeqCst);
            self.changes.park(rt, seen);
        }
        unreachable!()
    }

    /// A thread is about to be started.
    pub fn begin_start(&self) {
        self.starting.fetch_add(1, Ordering::SeqCst);
    }

    /// The thread couldn't be started.
    pub fn fail_start(&self) {
        self.starting.fetch_sub(1, Ordering::SeqCst);
        self.start_failed.store(true, Ordering::SeqCst);
        self.notify();
    }

    /// The thread was started and waits.
    pub fn finish_start(&self) {
        self.waiting.fetch_add(1, Ordering::SeqCst);
        self.starting.fetch_sub(1, Ordering::SeqCst);
        self.start_failed.store(false, Ordering::SeqCst);
        self.notify();
    }

    /// A thread has accepted a connection, and waits no longer. Returns true if another one waits or
    /// soon does, or after `shut_down`.
    pub fn stop_waiting<R: Wait>(&self, rt: &R) -> bool {
        let waited = self.waiting.fetch_sub(1, Ordering::SeqCst);
        if waited <= MIN_WAITING {
            self.notify();
        }
        waited > 1 || self.wait_for_other(rt)
    }

    // Waits until another thread waits for connections, and returns true. Returns false if none
    // can be started, or after some seconds.
    fn wait_for_other<R: Wait>(&self, rt: &R) -> bool {
        for _ in 0..CHECKS {
            let seen = self.changes();
            if self.waiting.load(Ordering::SeqCst) > 0 {
                return true;
            }
            if self.is_shut_down() {
                return true;
            }
            if self.start_failed.load(Ordering::SeqCst) {
                return false;
            }
            self.changes
                .park_timeout(rt, seen, Duration::from_millis(CHECK_MILLIS));
        }
        false
    }

    /// A thread has served its connection. Returns whether it waits for another one: it doesn't if
    /// enough others do.
    pub fn resume_waiting(&self) -> bool {
        if self.waiting.load(Ordering::SeqCst) >= MAX_WAITING {
            return false;
        }
        if self.waiting.fetch_add(1, Ordering::SeqCst) == 0 {
            self.notify();
        }
        true
    }
}
