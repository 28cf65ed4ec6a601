//! The places of a group, at each of which one node is made.
ghost use Rattle.std.specs.Prelude.{◌≡◌, IfOk, Some, slice_get};
ghost use Rattle.std.specs.Arc.{arc_value};
ghost use Rattle.node_threads.specs.NodePlaces.{places_of};

use ini_config::{Group, Settings};
use std::alloc::{AllocError, Global};
use std::marker::Model;
use std::sync::Arc;

/// A place of a group at which no node was made yet. It can't be copied, and `of_group` alone makes
/// it: so no two nodes of a group have one place, and with it one number. In contracts it is a
/// `PlaceView`: the group, and the place, from 0.
#[derive(Drop)]
pub struct NodePlace {
    pub(crate) group: Arc<Group, Global>,
    pub(crate) place: usize,
}

impl Model for NodePlace {
    ghost use Rattle.std.specs.Prelude.{◌<◌, length};
    ghost use Rattle.std.specs.Arc.{arc_value};
    ghost use Rattle.node_threads.specs.NodePlaces.{PlaceView};

    ghost Value = { PlaceView };

    ghost view = { λ p. record { group = arc_value p.group; place = p.place } };

    ghost invariant = { λ p. p.place < length (arc_value p.group) };
}

impl NodePlace {
    /// The group, to be shared, and its places: each once, in the order of its nodes.
    pub fn of_group(
        alloc: Global,
        group: Group,
    ) -> Result<(Arc<Group, Global>, Vec<NodePlace>), AllocError>
        ensures group { IfOk result (λ made. arc_value made.0 ≡ group) }
        ensures places { IfOk result (λ made. made.1.items ≡ places_of group) }
    {
        let shared = Arc::new(alloc, group)?;
        let places = NodePlace::all(alloc, &shared)?;
        Ok((shared, places))
    }

    // Each place of a group.
    fn all(alloc: Global, shared: &Arc<Group, Global>) -> Result<Vec<NodePlace>, AllocError>
        ensures { IfOk result (λ places. places.items ≡ places_of (arc_value shared.now)) }
    {
        let mut places = Vec::with_capacity(alloc, shared.len())?;
        for place in 0..shared.len() {
            let group = Arc::try_clone(shared)?;
            places.push(NodePlace { group, place })?;
        }
        Ok(places)
    }

    /// The place, from 0.
    pub fn index(&self) -> usize
        ensures { result ≡ self.now.place }
    {
        self.place
    }

    /// The settings of the place.
    pub fn settings(&self) -> &Settings
        ensures { slice_get self.now.group self.now.place ≡ Some result.now }
    {
        &self.group.nodes()[self.place]
    }
}
