//! Memory for a copy of a node's state.
use crate::client::Client;
use link_pool::{Claim, PlaceRoom};
use std::alloc::{AllocError, Global};

/// Memory for what a `View` shows, taken before the node is looked at.
#[derive(Drop)]
pub struct ViewRoom {
    pub(crate) clients: Vec<Option<Client>>,
    pub(crate) claims: Vec<Claim>,
    pub(crate) places: PlaceRoom,
}

impl ViewRoom {
    /// Room for a node with this number of slots and pools of these sizes, which no step changes.
    pub fn new(alloc: Global, slots: usize, pool_sizes: &[u16]) -> Result<ViewRoom, AllocError> {
        Ok(ViewRoom {
            clients: Vec::with_capacity(alloc, slots)?,
            claims: Vec::with_capacity(alloc, slots)?,
            places: PlaceRoom::new(alloc, pool_sizes)?,
        })
    }
}
