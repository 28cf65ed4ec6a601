//! What a server reports otherwise than clients get it.

/// A parameter that a server reported with another value than clients get.
#[derive(Clone, Copy, Debug)]
pub struct Difference<'a> {
    /// Its name.
    pub name: &'a str,
    /// The value that clients get.
    pub told: &'a str,
    /// The value that the server reported last: its first bytes, at most 64 more than `told` has.
    pub reported: &'a [u8],
}
