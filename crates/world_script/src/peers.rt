//! The settings of a script's nodes, each with all others as its peers.
ghost use Rattle.std.specs.Prelude.{◌≡◌, ◌≤◌, length, map, IfOk, OnOk, Contains, ◌&&◌, ◌==◌};
ghost use Rattle.std.specs.List.{list_any};
ghost use Rattle.world_script.specs.Peers.{is_listed, numbers_of, peers_of, settings_among, with_peer};

use crate::node_line::NodeLine;
use ini_config::Settings;
use pg_ids::PeerNo;
use std::alloc::{AllocError, Global};

/// The settings of these nodes.
pub(crate) fn settings_of(alloc: Global, nodes: &[NodeLine]) -> Result<Vec<Settings>, AllocError>
    requires { length nodes.now ≤ 65 }
    ensures { IfOk result (λ all. all.items ≡ map (settings_among nodes.now) nodes.now) }
{
    let mut all = Vec::new(alloc);
    for node in nodes {
        all.push(settings_among(alloc, nodes, node)?)?;
    }
    Ok(all)
}

// The settings of a node among these.
fn settings_among(
    alloc: Global,
    nodes: &[NodeLine],
    node: &NodeLine,
) -> Result<Settings, AllocError>
    requires few { length nodes.now ≤ 65 }
    requires among { Contains (numbers_of nodes.now) node.now.number }
    ensures { IfOk result (λ settings. settings ≡ settings_among nodes.now node.now) }
{
    let peers = peers_of(alloc, node.number(), nodes)?;
    Settings::plain(alloc, node.number(), peers, node.pool(), node.clients())
}

// The numbers that a node lists.
fn peers_of(alloc: Global, own: PeerNo, nodes: &[NodeLine]) -> Result<Vec<PeerNo>, AllocError>
    ensures { IfOk result (λ peers. peers.items ≡ peers_of own (numbers_of nodes.now)) }
{
    let mut peers = Vec::new(alloc);
    for node in nodes {
        add_peer(own, node.number(), &mut peers)?;
    }
    Ok(peers)
}

// Appends a number, unless the node doesn't list it or it is there.
fn add_peer(own: PeerNo, number: PeerNo, peers: &mut Vec<PeerNo>) -> Result<(), AllocError>
    ensures { OnOk result (peers.new.items ≡ with_peer own peers.old.items number) }
{
    if is_listed(own, number) && !is_among(number, peers) {
        peers.push(number)?;
    }
    Ok(())
}

// Whether a node with the first number lists one with the second.
fn is_listed(own: PeerNo, number: PeerNo) -> bool
    ensures { result ≡ is_listed own number }
{
    number.get() != 0 && number.get() != own.get()
}

fn is_among(number: PeerNo, numbers: &[PeerNo]) -> bool
    ensures { result ≡ list_any (λ other. other == number) numbers.now }
{
    numbers.iter().any(|other| other.get() == number.get())
}
