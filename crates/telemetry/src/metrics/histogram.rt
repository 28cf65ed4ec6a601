//! How long something took, as a histogram.
ghost use Rattle.std.specs.Prelude.{◌≡◌, ◌<◌, ◌≤◌, length};
ghost use Rattle.telemetry.specs.MetricsText.{IsBucketOf};

use std::alloc::{AllocError, Global};
use std::sync::atomic::{AtomicU64, Ordering};
use std::time::Duration;

/// The number of bounds.
pub const BOUNDS: usize = 15;

/// The number of buckets: one up to each bound, and one above the last.
pub const BUCKETS: usize = 16;

/// The bounds of the buckets, in microseconds.
pub const BOUNDS_MICROS: [u64; BOUNDS] = [
    1_000, 2_500, 5_000, 10_000, 25_000, 50_000, 100_000, 250_000, 500_000, 1_000_000, 2_500_000,
    5_000_000, 10_000_000, 30_000_000, 60_000_000,
];

/// Counts times by their length.
#[derive(Drop)]
pub struct Histogram {
    // The number of times in each bucket.
    buckets: Vec<AtomicU64>,
    // The sum of all times.
    micros: AtomicU64,
}

/// The number of times in each bucket, and the sum of all times in microseconds.
#[derive(Clone, Copy, Debug, PartialEq, Eq)]
pub struct Times {
    /// By bucket, not cumulated.
    pub buckets: [u64; BUCKETS],
    /// The sum.
    pub micros: u64,
}

impl Histogram {
    /// Returns a histogram without times.
    pub fn new(alloc: Global) -> Result<Histogram, AllocError> {
        let mut buckets = Vec::with_capacity(alloc, BUCKETS)?;
        for _ in 0..BUCKETS {
            buckets.push(AtomicU64::new(0))?;
        }
        Ok(Histogram {
            buckets,
            micros: AtomicU64::new(0),
        })
    }

    /// Counts a time of this length.
    pub fn add(&self, time: Duration) {
        let micros = micros_of(time);
        if let Some(bucket) = self.buckets.get(bucket_of(&BOUNDS_MICROS, micros)) {
            bucket.fetch_add(1, Ordering::SeqCst);
            self.micros.fetch_add(micros, Ordering::SeqCst);
        }
    }

    /// Returns the values.
    pub fn times(&self) -> Times {
        let mut buckets = [0; BUCKETS];
        for (count, bucket) in buckets.iter_mut().zip(&self.buckets) {
            *count = bucket.load(Ordering::SeqCst);
        }
        Times {
            buckets,
            micros: self.micros.load(Ordering::SeqCst),
        }
    }
}

/// Returns the bucket in which a value is counted: that of the first bound that isn't below it, or
/// the one after the last.
pub fn bucket_of(bounds: &[u64], value: u64) -> usize
    ensures { IsBucketOf bounds.now value result }
{
    for place in 0..bounds.len() {
        if value <= bounds[place] {
            return place;
        }
    }
    bounds.len()
}

/// Returns a time in microseconds.
pub fn micros_of(time: Duration) -> u64 {
    u64::try_from(time.as_micros()).unwrap_or(u64::MAX)
}
