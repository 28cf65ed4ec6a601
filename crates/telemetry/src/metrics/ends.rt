//! How sessions of a database ended, by the code of the error and by what was refused.
use std::alloc::{AllocError, Global};
use std::sync::atomic::{AtomicU64, Ordering};

// The name of what isn't known, or isn't there.
const NONE: &str = "none";

/// The number of kinds of ends.
pub const ENDS: usize = 19;

/// The kinds of ends: the code of the error that the client got, and what was refused. All others are
/// counted as the last.
pub const END_KINDS: [(&str, &str); ENDS] = [
    (NONE, NONE),
    ("0A000", "named_statement"),
    ("0A000", "portal"),
    ("0A000", "flush"),
    ("0A000", "function_call"),
    ("0A000", "copy"),
    ("08P01", "too_long"),
    ("08P01", "malformed"),
    ("08P01", "out_of_place"),
    ("08P01", "unknown_type"),
    ("08006", "link_lost"),
    ("08006", "link_message"),
    ("08006", "out_of_place"),
    ("08006", "notification"),
    ("08006", NONE),
    ("53200", NONE),
    ("53300", NONE),
    ("57P01", NONE),
    ("other", NONE),
];

/// Counts ends of sessions by their kind.
#[derive(Drop)]
pub struct Ends {
    counts: Vec<AtomicU64>,
}

impl Ends {
    /// Returns counts that are zero.
    pub fn new(alloc: Global) -> Result<Ends, AllocError> {
        let mut counts = Vec::with_capacity(alloc, ENDS)?;
        for _ in 0..ENDS {
            counts.push(AtomicU64::new(0))?;
        }
        Ok(Ends { counts })
    }

    /// Counts an end with an error of this code, for this reason; or without.
    pub fn add(&self, code: Option<&str>, refused: Option<&str>) {
        let place = place_of(code.unwrap_or(NONE), refused.unwrap_or(NONE));
        if let Some(count) = self.counts.get(place) {
            count.fetch_add(1, Ordering::SeqCst);
        }
    }

    /// Returns the values, in the order of the kinds.
    pub fn counts(&self) -> [u64; ENDS] {
        let mut counts = [0; ENDS];
        for (count, own) in counts.iter_mut().zip(&self.counts) {
            *count = own.load(Ordering::SeqCst);
        }
        counts
    }
}

// Returns the place of the kind of an end.
fn place_of(code: &str, refused: &str) -> usize {
    let found = END_KINDS
        .iter()
        .position(|kind| kind.0 == code && kind.1 == refused);
    found.unwrap_or(ENDS - 1)
}
