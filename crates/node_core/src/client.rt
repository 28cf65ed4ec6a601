//! The client of a live slot.
use pg_ids::DatabaseNo;

/// The client of a live slot.
#[derive(Clone, Copy, Debug, PartialEq, Eq, Hash)]
pub struct Client {
    /// The database that it logged in to.
    pub database: DatabaseNo,
    /// The number of its pass.
    pub pass: u64,
}
