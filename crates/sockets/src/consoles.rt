//! The limit of a node's sessions on the console.
use crate::limits::CONSOLES_PER_NODE;
use std::sync::atomic::{AtomicU64, Ordering};

/// Counts the sessions on a node's console. They aren't among its clients, so they have a limit of
/// their own.
#[derive(Drop)]
pub struct Consoles {
    open: AtomicU64,
}

impl Consoles {
    /// No session.
    pub const fn new() -> Consoles {
        Consoles {
            open: AtomicU64::new(0),
        }
    }

    /// Begins a session, and returns true; or returns false if there are as many as there may be.
    pub fn enter(&self) -> bool {
        if self.open.fetch_add(1, Ordering::SeqCst) < CONSOLES_PER_NODE {
            return true;
        }
        self.leave();
        false
    }

    /// Ends a session.
    pub fn leave(&self) {
        self.open.fetch_sub(1, Ordering::SeqCst);
    }
}
