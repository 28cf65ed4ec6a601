//! Where a link is in its node's pool.
use pg_ids::DatabaseNo;

/// The place of a link, or of a permit to open one, in its node's pool.
#[derive(Clone, Copy, Debug, PartialEq, Eq, Hash)]
pub struct LinkPlace {
    /// The database, whose pool has as many places as its size.
    pub database: DatabaseNo,
    /// The place there, from 0 to below the pool's size.
    pub index: u16,
}
