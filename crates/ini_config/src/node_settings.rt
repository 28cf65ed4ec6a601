//! The settings of a node, which lend their values by name.
ghost use Rattle.std.specs.Prelude.{◌≡◌, ◌<◌, ◌≤◌, ◌^◌, ◌↔◌, ℕ, length, map, position, slice_get, unwrap_or, IsTrue, IfOk, IfSome};
ghost use Rattle.std.specs.Option.{option_map};
ghost use Rattle.std.specs.Str.{bytes_eq};
ghost use Rattle.indexmap.specs.IndexMap.{keys, values};
ghost use Rattle.ini_config.specs.Node.{NodeSettings, pool_total};
ghost use Rattle.ini_config.specs.Group.{lists};

use crate::entry::{DatabaseEntry, PeerEntry};
use indexmap::IndexMap;
use pg_ids::{DatabaseNo, PeerNo};
use std::alloc::{AllocError, Global};
use std::marker::Model;

/// A database of a node.
#[derive(Clone, Copy, Debug)]
pub struct Database<'a> {
    /// What clients call it.
    pub name: &'a str,
    /// Where its server is.
    pub host: &'a str,
    /// The server's port, 1 to 65535.
    pub port: u16,
    /// The user as whom links log in.
    pub user: &'a str,
    /// The database to which links log in.
    pub dbname: &'a str,
    /// How many links there may be, 1 to 65535.
    pub pool_size: u16,
}

/// Another pooler of the group.
#[derive(Clone, Copy, Debug)]
pub struct Peer<'a> {
    /// Its number, 1 to 16383.
    pub number: PeerNo,
    /// Where it listens.
    pub host: &'a str,
    /// Its port, 1 to 65535.
    pub port: u16,
    /// A pool size, 1 to 65535, that bounds nothing.
    pub pool_size: u16,
}

/// The settings of a node.
#[derive(Drop)]
pub struct Settings {
    pub(crate) listen_addr: String,
    pub(crate) listen_port: u16,
    pub(crate) peer_id: PeerNo,
    pub(crate) default_pool_size: u16,
    pub(crate) max_client_conn: u32,
    pub(crate) databases: IndexMap<String, DatabaseEntry>,
    pub(crate) peers: IndexMap<PeerNo, PeerEntry>,
}

impl Model for Settings {
    ghost use Rattle.std.specs.Prelude.{map};
    ghost use Rattle.std.specs.String.{string_bytes};
    ghost use Rattle.ini_config.specs.Node.{NodeSettings, IsNode};

    ghost Value = { NodeSettings };

    ghost use Rattle.ini_config.specs.Inside.{node_settings};

    ghost view = { node_settings };

    ghost invariant = { λ s. IsNode (node_settings s) };
}

impl Settings {
    ghost use Rattle.ini_config.specs.View.{lent_database, lent_peer};

    /// The host that the node listens at.
    pub fn listen_addr(&self) -> &str
        ensures { result.now ≡ self.now.listen_addr }
    {
        self.listen_addr.as_str()
    }

    /// The port that the node listens at, 1 to 65535.
    pub fn listen_port(&self) -> u16
        ensures value { result ≡ self.now.listen_port }
        ensures range { 0 < result }
    {
        self.listen_port
    }

    /// The node's number in its group, or 0 for a node without peers.
    pub fn peer_id(&self) -> PeerNo
        ensures { result ≡ self.now.peer_id }
    {
        self.peer_id
    }

    /// The pool size of a database that names none, 1 to 65535.
    pub fn default_pool_size(&self) -> u16
        ensures value { result ≡ self.now.default_pool_size }
        ensures range { 0 < result }
    {
        self.default_pool_size
    }

    /// How many clients there may be, 1 to 65536.
    pub fn max_client_conn(&self) -> u32
        ensures value { result ≡ self.now.max_client_conn }
        ensures range { (0 < result) × (result ≤ 2 ^ 16) }
    {
        self.max_client_conn
    }

    /// The number of databases, at most 64.
    pub fn database_count(&self) -> usize
        ensures count { result ≡ length self.now.databases }
        ensures limit { result ≤ 64 }
        // All databases together have at most 65,535 links.
        ensures links { pool_total self.now < 2 ^ 16 }
    {
        self.databases.len()
    }

    /// The database at a place.
    pub fn database(&self, place: DatabaseNo) -> Option<Database<'_>>
        ensures entry { option_map lent_database result ≡ slice_get self.now.databases place }
        ensures range { IfSome result (λ d. (0 < d.port) × (0 < d.pool_size)) }
    {
        let (name, entry) = self.databases.get_index(usize::from(place.0))?;
        let dbname = match &entry.dbname {
            Some(dbname) => dbname.as_str(),
            None => name.as_str(),
        };
        Some(Database {
            name: name.as_str(),
            host: entry.host.as_str(),
            port: entry.port,
            user: entry.user.as_str(),
            dbname,
            pool_size: entry.pool_size.unwrap_or(self.default_pool_size),
        })
    }

    /// The place of the database with a name.
    pub fn find_database(&self, name: &str) -> Option<DatabaseNo>
        ensures { result ≡ position (λ d. bytes_eq name.now d.name) self.now.databases }
    {
        let place = self.databases.get_index_of(name)?;
        Some(DatabaseNo(place as u8))
    }

    /// The pool size of each database, in the order of the file.
    pub fn pool_sizes(&self, alloc: Global) -> Result<Vec<u16>, AllocError>
        ensures { IfOk result (λ v. v.items ≡ map (λ d. d.pool_size) self.now.databases) }
    {
        pools_of(alloc, &self.databases, self.default_pool_size)
    }

    /// The number of peers, at most 64.
    pub fn peer_count(&self) -> usize
        ensures count { result ≡ length self.now.peers }
        ensures limit { result ≤ 64 }
    {
        self.peers.len()
    }

    /// The peer at a place, from 0.
    pub fn peer(&self, place: usize) -> Option<Peer<'_>>
        ensures entry { option_map lent_peer result ≡ slice_get self.now.peers place }
        ensures range { IfSome result (λ p. (0 < p.port) × (0 < p.pool_size)) }
    {
        let (number, entry) = self.peers.get_index(place)?;
        Some(Peer {
            number: *number,
            host: entry.host.as_str(),
            port: entry.port,
            pool_size: entry.pool_size,
        })
    }

    /// The numbers of the peers, in the order of the file.
    pub fn peer_numbers(&self, alloc: Global) -> Result<Vec<PeerNo>, AllocError>
        ensures { IfOk result (λ v. v.items ≡ map (λ p. p.number) self.now.peers) }
    {
        keys_of(alloc, &self.peers)
    }

    /// Whether the node lists a peer with this number.
    pub fn lists_peer(&self, number: PeerNo) -> bool
        ensures { result ≡ lists self.now number }
    {
        self.peers.contains_key(&number)
    }
}

// The pool size of each database: its own, or the default.
fn pools_of(
    alloc: Global,
    databases: &IndexMap<String, DatabaseEntry>,
    default: u16,
) -> Result<Vec<u16>, AllocError>
    ensures { IfOk result
        (λ v. v.items ≡ map (λ d. unwrap_or d.pool_size default) (values databases.now)) }
{
    databases
        .values()
        .map(|entry| entry.pool_size.unwrap_or(default))
        .collect(alloc)
}

fn keys_of(alloc: Global, peers: &IndexMap<PeerNo, PeerEntry>) -> Result<Vec<PeerNo>, AllocError>
    ensures { IfOk result (λ v. v.items ≡ keys peers.now) }
{
    peers.keys().copied().collect(alloc)
}
