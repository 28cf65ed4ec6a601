//! A group of nodes, whose peer numbers differ.
ghost use Rattle.std.specs.Prelude.{◌≡◌, ◌<◌, ◌↔◌, List, ℕ, length, slice_get, All, AllPairs, IsTrue, IsOk, IfOk, IsErrOf};
ghost use Rattle.std.specs.Option.{option_copied};
ghost use Rattle.ini_config.specs.Node.{NodeSettings};
ghost use Rattle.ini_config.specs.Group.{AllPeer, PeersDiffer, AllListed, IsGroup, Differ, ListEachOther};

use crate::fault::GroupError;
use crate::node_settings::Settings;
use std::marker::Model;

/// The settings of the nodes of one group, in the order in which they were given. There may be no
/// nodes.
#[derive(Drop)]
pub struct Group {
    nodes: Vec<Settings>,
}

impl Model for Group {
    ghost use Rattle.std.specs.Prelude.{List};
    ghost use Rattle.ini_config.specs.Node.{NodeSettings};
    ghost use Rattle.ini_config.specs.Group.{IsGroup};

    ghost Value = { List NodeSettings };

    ghost view = { λ g. g.nodes.items };

    ghost invariant = { λ g. IsGroup g.nodes.items };
}

impl Group {
    /// The nodes as a group, or the first refusal of 42, 40 and 41 that applies. A refusal drops
    /// the settings.
    pub fn check(nodes: Vec<Settings>) -> Result<Group, GroupError>
        ensures accepted { IsOk result ↔ IsGroup nodes.items }
        ensures nodes { IfOk result (λ group. group ≡ nodes.items) }

        // Which refusal it is.
        ensures no_peering { IsErrOf result GroupError.NoPeering ↔ ¬ AllPeer nodes.items }
        ensures same_peer { IsErrOf result GroupError.SamePeer
            ↔ (AllPeer nodes.items × ¬ PeersDiffer nodes.items) }
        ensures missing_peer { IsErrOf result GroupError.MissingPeer
            ↔ (AllPeer nodes.items × PeersDiffer nodes.items × ¬ AllListed nodes.items) }
    {
        if !all_peer(&nodes) {
            return Err(GroupError::NoPeering);
        }
        if !peers_differ(&nodes) {
            return Err(GroupError::SamePeer);
        }
        if !all_listed(&nodes) {
            return Err(GroupError::MissingPeer);
        }
        Ok(Group { nodes })
    }

    /// The number of nodes.
    pub fn len(&self) -> usize
        ensures { result ≡ length self.now }
    {
        self.nodes.len()
    }

    /// Whether there are no nodes.
    pub fn is_empty(&self) -> bool
        ensures { IsTrue result ↔ (length self.now ≡ 0) }
    {
        self.nodes.is_empty()
    }

    /// The node at a place, from 0.
    pub fn get(&self, place: usize) -> Option<&Settings>
        ensures { option_copied result ≡ slice_get self.now place }
    {
        self.nodes.get(place)
    }

    /// The nodes, in their order.
    pub fn nodes(&self) -> &[Settings]
        ensures nodes { result.now ≡ self.now }
        ensures group { IsGroup self.now }
    {
        self.nodes.as_slice()
    }
}

// Whether no node of two or more has the number 0.
fn all_peer(nodes: &[Settings]) -> bool
    ensures { IsTrue result ↔ AllPeer nodes.now }
{
    nodes.len() < 2 || have_numbers(nodes)
}

fn have_numbers(nodes: &[Settings]) -> bool
    ensures { IsTrue result ↔ All (λ node. 0 < node.peer_id) nodes.now }
{
    nodes.iter().all(|node| node.peer_id().get() > 0)
}

// Whether no two nodes have one number.
fn peers_differ(nodes: &[Settings]) -> bool
    ensures { IsTrue result ↔ PeersDiffer nodes.now }
{
    for (place, node) in nodes.iter().enumerate() {
        if !differs_from_all(node, &nodes[..place]) {
            return false;
        }
    }
    true
}

fn differs_from_all(node: &Settings, others: &[Settings]) -> bool
    ensures { IsTrue result ↔ All (λ other. Differ other node.now) others.now }
{
    let number = node.peer_id();
    others.iter().all(|other| other.peer_id() != number)
}

// Whether each node lists each other node.
fn all_listed(nodes: &[Settings]) -> bool
    ensures { IsTrue result ↔ AllListed nodes.now }
{
    for (place, node) in nodes.iter().enumerate() {
        if !is_listed(node, &nodes[..place]) {
            return false;
        }
    }
    true
}

fn is_listed(node: &Settings, others: &[Settings]) -> bool
    ensures { IsTrue result ↔ All (λ other. ListEachOther other node.now) others.now }
{
    others.iter().all(|other| other.lists_peer(node.peer_id()) && node.lists_peer(other.peer_id()))
}
