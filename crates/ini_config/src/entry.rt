//! The entries of `[databases]` and `[peers]`, as they are kept.
ghost use Rattle.std.specs.Prelude.{◌<◌};
ghost use Rattle.std.specs.Option.{ForSome};

use crate::fault::IniCode;
use crate::words::{EntryKind, EntryWords};
use std::alloc::Global;

/// A database. Its name is the key that it is kept under.
#[derive(Drop)]
pub(crate) struct DatabaseEntry {
    pub host: String,
    pub port: u16,
    pub user: String,
    /// The name by default.
    pub dbname: Option<String>,
    /// The node's default by default.
    pub pool_size: Option<u16>,
    ghost some_port: { 0 < port },
    ghost some_pool: { ForSome pool_size (λ n. 0 < n) },
}

/// Another pooler. Its number is the key that it is kept under.
#[derive(Drop)]
pub(crate) struct PeerEntry {
    pub host: String,
    pub port: u16,
    pub pool_size: u16,
    ghost some_port: { 0 < port },
    ghost some_pool: { 0 < pool_size },
}

impl DatabaseEntry {
    ghost use Rattle.std.specs.Prelude.{List, ℕ};
    ghost use Rattle.ini_config.specs.Reads.{Gives};
    ghost use Rattle.ini_config.specs.Entry.{database_entry};
    ghost use Rattle.ini_config.specs.View.{database_given};

    /// The entry of a database, of any name, with this value.
    #[tactic(auto, unfolding(crate::specs::Entry::database_entry))]
    pub(crate) fn read(alloc: Global, value: &str) -> Result<DatabaseEntry, IniCode>
        ensures { (name : List ℕ)
            → Gives (database_given name) result (database_entry name value.now) }
    {
        let words = EntryWords::read(alloc, EntryKind::Database, value)?;
        let host = words.host.ok_or(IniCode::Missing)?;
        let port = words.port.ok_or(IniCode::Missing)?;
        let user = words.user.ok_or(IniCode::Missing)?;
        Ok(DatabaseEntry {
            host,
            port,
            user,
            dbname: words.dbname,
            pool_size: words.pool_size,
        })
    }
}

impl PeerEntry {
    ghost use Rattle.std.specs.Prelude.{ℕ};
    ghost use Rattle.ini_config.specs.Reads.{Gives};
    ghost use Rattle.ini_config.specs.Entry.{peer_entry};
    ghost use Rattle.ini_config.specs.View.{peer_settings};

    /// The entry of a peer, of any number, with this value.
    #[tactic(auto, unfolding(crate::specs::Entry::peer_entry))]
    pub(crate) fn read(alloc: Global, value: &str) -> Result<PeerEntry, IniCode>
        ensures { (number : ℕ) → Gives (peer_settings number) result (peer_entry number value.now) }
    {
        let words = EntryWords::read(alloc, EntryKind::Peer, value)?;
        let host = words.host.ok_or(IniCode::Missing)?;
        let port = words.port.ok_or(IniCode::Missing)?;
        Ok(PeerEntry {
            host,
            port,
            pool_size: words.pool_size.unwrap_or(1),
        })
    }
}
