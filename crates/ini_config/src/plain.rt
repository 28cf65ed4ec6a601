//! Settings that come from no file.
ghost use Rattle.std.specs.Prelude.{◌≡◌, ◌≢◌, ◌<◌, ◌≤◌, ◌^◌, ℕ, map, length, All, AllPairs, IfOk};
ghost use Rattle.ini_config.specs.Plain.{plain_settings, plain_peer};
ghost use Rattle.ini_config.specs.View.{peer_settings};

use crate::entries::add_entry;
use crate::entry::{DatabaseEntry, PeerEntry};
use crate::node_settings::Settings;
use indexmap::IndexMap;
use pg_ids::PeerNo;
use std::alloc::{AllocError, Global};

const HOST: &str = "127.0.0.1";

const NAME: &str = "plain";

const SERVER_PORT: u16 = 5432;

const PEER_PORT: u16 = 6432;

impl Settings {
    /// The settings of a node with one database, whose host and port are the same for all such
    /// nodes: a `pool` of 1 to 65535 links, 1 to 65536 `clients`, at most 64 `peers`, each from 1
    /// and none twice. The only error is out of memory.
    pub fn plain(
        alloc: Global,
        peer: PeerNo,
        peers: Vec<PeerNo>,
        pool: u16,
        clients: u32,
    ) -> Result<Settings, AllocError>
        requires some_pool { 0 < pool }
        requires some_client { 0 < clients }
        requires clients { clients ≤ 2 ^ 16 }
        requires peers { length peers.items ≤ 64 }
        requires numbered { All (λ number. 0 < number) peers.items }
        requires distinct { AllPairs (λ a b. a ≢ b) peers.items }
        ensures { IfOk result
            (λ settings. settings ≡ plain_settings peer peers.items pool clients) }
    {
        let mut databases = IndexMap::new(alloc);
        let database = DatabaseEntry {
            host: String::from_str(alloc, HOST)?,
            port: SERVER_PORT,
            user: String::from_str(alloc, NAME)?,
            dbname: None,
            pool_size: Some(pool),
        };
        add_entry(&mut databases, String::from_str(alloc, NAME)?, database)?;
        let peers = plain_peers(alloc, &peers)?;
        Ok(Settings {
            listen_addr: String::from_str(alloc, HOST)?,
            listen_port: PEER_PORT,
            peer_id: peer,
            default_pool_size: pool,
            max_client_conn: clients,
            databases,
            peers,
        })
    }
}

fn plain_peers(alloc: Global, peers: &[PeerNo]) -> Result<IndexMap<PeerNo, PeerEntry>, AllocError>
    requires { AllPairs (λ a b. a ≢ b) peers.now }
    ensures { IfOk result
        (λ m. map (λ e. peer_settings e.0 e.1) m.entries ≡ map plain_peer peers.now) }
{
    let mut entries = IndexMap::new(alloc);
    for number in peers {
        let entry = plain_entry(alloc)?;
        add_entry(&mut entries, *number, entry)?;
    }
    Ok(entries)
}

// The entry of a peer, of any number.
fn plain_entry(alloc: Global) -> Result<PeerEntry, AllocError>
    ensures { IfOk result (λ e. (number : ℕ) → peer_settings number e ≡ plain_peer number) }
{
    let host = String::from_str(alloc, HOST)?;
    Ok(PeerEntry {
        host,
        port: PEER_PORT,
        pool_size: 1,
    })
}
