//! What a node was at one moment, for whoever shows it.
ghost use Rattle.std.specs.Prelude.{◌≡◌, IfOk, slice_get};
ghost use Rattle.link_pool.specs.Pool.{place_at};
ghost use Rattle.node_core.specs.View.{IsView};

use crate::client::Client;
use crate::node::NodeCore;
use crate::view_room::ViewRoom;
use lease::LinkPlace;
use link_pool::{Claim, Place};
use std::alloc::{AllocError, Global};
use std::marker::Model;
use std::snapshot::Snapshot;

/// A node's state as it was at one moment, without its streams and secrets: who is logged in, what
/// each client has, and what is at each place. It makes no steps.
#[derive(Drop)]
pub struct View<S> {
    node: Snapshot<NodeCore<S>>,
    clients: Vec<Option<Client>>,
    claims: Vec<Claim>,
    places: Vec<Vec<Place>>,
}

impl<S> Model for View<S> {
    ghost use Rattle.std.specs.Prelude.{◌≡◌, map};
    ghost use Rattle.node_core.specs.View.{NodeView, IsView};

    ghost Value = { NodeView };

    ghost view = { λ v. v.node.value.view };

    ghost invariant = { λ v. IsView v.node.value.view
        × (v.clients.items ≡ v.node.value.view.clients)
        × (v.claims.items ≡ v.node.value.view.links.claims)
        × (map (λ places. places.items) v.places.items
        ≡ map (λ pool. pool.places) v.node.value.view.links.pools) };
}

impl<S: Drop> View<S> {
    /// What the node is now, in memory that is taken for it.
    pub fn of(alloc: Global, node: &NodeCore<S>) -> Result<View<S>, AllocError>
        ensures { IfOk result (λ view. view ≡ node.now.view) }
    {
        let room = ViewRoom::new(alloc, node.slots(), node.pool_sizes())?;
        View::fill(alloc, room, node)
    }

    /// What the node is now, in memory that was taken before. It takes more only where that was
    /// taken for fewer slots, or for other pools, than the node has.
    pub fn fill(alloc: Global, room: ViewRoom, node: &NodeCore<S>) -> Result<View<S>, AllocError>
        ensures { IfOk result (λ view. view ≡ node.now.view) }
    {
        node.known();
        let ViewRoom {
            clients,
            claims,
            places,
        } = room;
        let links = node.links();
        Ok(View {
            node: Snapshot::of(node),
            clients: node.clients(clients)?,
            claims: links.claims(claims)?,
            places: links.places(alloc, places)?,
        })
    }

    /// The client of each live slot, by slot.
    pub fn clients(&self) -> &[Option<Client>]
        ensures value { result.now ≡ self.now.clients }
        // This is true of every view: each link is in one place, and each client has one of what it
        // has.
        ensures whole { IsView self.now }
    {
        self.clients.as_slice()
    }

    /// What each client has, by slot.
    pub fn claims(&self) -> &[Claim]
        ensures { result.now ≡ self.now.links.claims }
    {
        self.claims.as_slice()
    }

    /// What is at a place, where there is such a place.
    pub fn place(&self, at: LinkPlace) -> Option<Place>
        ensures { result ≡ place_at self.now.links at }
    {
        let database = at.database.get() as usize;
        if database >= self.places.len() {
            return None;
        }
        at_index(&self.places[database], at.index)
    }
}

// What is at this index of a pool.
fn at_index(places: &[Place], index: u16) -> Option<Place>
    ensures { result ≡ slice_get places.now index }
{
    places.get(index as usize).copied()
}
