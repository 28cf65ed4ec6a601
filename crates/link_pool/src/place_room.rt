//! Memory for a copy of the places of a node's pools.
use crate::place::Place;
use std::alloc::{AllocError, Global};

/// Memory for a copy of what is at each place. Where it was taken for pools of these sizes, the
/// copy takes no more.
#[derive(Drop)]
pub struct PlaceRoom {
    // Room for a row for each database.
    pub(crate) all: Vec<Vec<Place>>,
    // The rows, that of the first database last.
    pub(crate) rows: Vec<Vec<Place>>,
}

impl PlaceRoom {
    /// Room for the places of pools of these sizes.
    pub fn new(alloc: Global, pool_sizes: &[u16]) -> Result<PlaceRoom, AllocError> {
        let all = Vec::with_capacity(alloc, pool_sizes.len())?;
        let mut rows = Vec::with_capacity(alloc, pool_sizes.len())?;
        for &size in pool_sizes {
            rows.push(Vec::with_capacity(alloc, size as usize)?)?;
        }
        rows.reverse();
        Ok(PlaceRoom { all, rows })
    }
}
