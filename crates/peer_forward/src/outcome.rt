//! How carrying ended.

/// How carrying a packet ended.
#[derive(Clone, Copy, Debug, PartialEq, Eq, Hash)]
#[must_use]
pub enum Outcome {
    /// The whole packet was written, and then the input ended with no byte.
    Ended,
    /// Anything else: a call failed, a write took no byte, or the other side sent one.
    Failed,
}
