//! Deadlines.
use std::io;
use std::io::ErrorKind;
use std::time::{Clock, Duration};

/// A time by which something has to be done.
#[derive(Clone, Copy, Debug, PartialEq, Eq)]
pub struct Deadline(Duration);

impl Deadline {
    /// Returns the deadline in `millis` milliseconds.
    #[inline(never)]
    pub fn after<R: Clock>(rt: &R, millis: u64) -> io::Result<Deadline> {
        let now = rt.monotonic()?;
        Ok(Deadline(now.saturating_add(Duration::from_millis(millis))))
    }

    /// Returns the earlier of this deadline and another.
    pub fn or_earlier(self, other: Deadline) -> Deadline {
        Deadline(self.0.min(other.0))
    }

    /// Returns the time that is left. Fails with `TimedOut` if there is none.
    pub fn left<R: Clock>(self, rt: &R) -> io::Result<Duration> {
        let left = self.0.saturating_sub(rt.monotonic()?);
        if left.is_zero() {
            return Err(io::Error::from(ErrorKind::TimedOut));
        }
        Ok(left)
    }
}
