//! The numbers of servers.
ghost use Rattle.std.specs.Prelude.{◌≡◌, ◌&&◌, ◌==◌, ℕ, IfSome, IfNone, position, slice_get};
ghost use Rattle.std.specs.Str.{bytes_eq};
ghost use Rattle.world.specs.World.{IsServer, all_databases};

use crate::numbers::ServerNo;
use ini_config::{Group, Settings};
use node_core::DatabaseNo;
use pg_ids::PeerNo;

/// The server of a database of a node, by the first database of the group that has its host and
/// port.
pub(crate) fn server_of(group: &Group, node: PeerNo, database: DatabaseNo) -> Option<ServerNo>
    ensures found { IfSome result (λ server. IsServer group.now node database server) }
    ensures none { IfNone result ((server : ℕ) → IsServer group.now node database server → ⊥) }
    // It has no other.
    ensures one { (a b : ℕ) → IsServer group.now node database a
        → IsServer group.now node database b → a ≡ b }
{
    let nodes = group.nodes();
    let settings = &nodes[place_of(nodes, node)?];
    let entry = settings.database(database)?;
    first_on(nodes, entry.host, entry.port)
}

// The place of the node with this number.
fn place_of(nodes: &[Settings], node: PeerNo) -> Option<usize>
    ensures { result ≡ position (λ settings. settings.peer_id == node) nodes.now }
{
    nodes.iter().position(|settings| settings.peer_id() == node)
}

// The number of the first database, of all, with this host and port.
fn first_on(nodes: &[Settings], host: &str, port: u16) -> Option<ServerNo>
    ensures { result ≡ position (λ d. bytes_eq host.now d.host && (port == d.port))
        (all_databases nodes.now) }
{
    let mut before = 0;
    for settings in nodes {
        if let Some(place) = first_in(settings, host, port) {
            return Some(ServerNo(before + place as u128));
        }
        before += settings.database_count() as u128;
    }
    None
}

// The place of the node's first database with this host and port.
fn first_in(settings: &Settings, host: &str, port: u16) -> Option<usize>
    ensures { result ≡ position (λ d. bytes_eq host.now d.host && (port == d.port))
        settings.now.databases }
{
    for place in 0..settings.database_count() {
        if is_on(settings, DatabaseNo(place as u8), host, port) {
            return Some(place);
        }
    }
    None
}

// Whether the database at a place of a node has this host and port.
fn is_on(settings: &Settings, place: DatabaseNo, host: &str, port: u16) -> bool
    ensures { IfSome (slice_get settings.now.databases place)
        (λ d. result ≡ (bytes_eq host.now d.host && (port == d.port))) }
{
    match settings.database(place) {
        Some(entry) => entry.host == host && entry.port == port,
        None => false,
    }
}
