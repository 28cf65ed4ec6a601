//! Reading a settings file.
ghost use Rattle.std.specs.Prelude.{◌≡◌, ◌⊎◌, MatchResult, Ok, Err, nat_le};
ghost use Rattle.indexmap.specs.IndexMap.{values};
ghost use Rattle.ini_config.specs.Reads.{Gives};
ghost use Rattle.ini_config.specs.Settings.{settings_of, settings_given, in_line};
ghost use Rattle.ini_config.specs.View.{given_seen};
ghost use Rattle.ini_config.specs.Codes.{IsMemory};
ghost use Rattle.ini_config.specs.View.{links_of};

use crate::draft::Draft;
use crate::entry::DatabaseEntry;
use crate::fault::{IniCode, IniError};
use crate::node_settings::Settings;
use crate::text::trimmed;
use indexmap::IndexMap;
use pg_ids::PeerNo;
use std::alloc::Global;

const LISTEN_PORT: u16 = 6432;

/// The pool size where none is given.
pub(crate) const POOL_SIZE: u16 = 20;

const MAX_CLIENTS: u32 = 100;

const MAX_LINKS: u32 = 65535;

/// The settings of the text, or its first fault: lines in order, then what is missing or too much
/// in the whole text. Any other error is out of memory.
pub fn read_settings(alloc: Global, text: &str) -> Result<Settings, IniError>
    ensures { MatchResult result
        (λ settings. settings_of text.now ≡ Ok settings)
        (λ fault. IsMemory fault ⊎ (settings_of text.now ≡ Err fault)) }
{
    let mut draft = Draft::new(alloc);
    let mut number = 0;
    for line in text.lines() {
        number += 1;
        in_line(number, draft.take_line(trimmed(line)))?;
    }
    in_line(0, settings(draft))
}

// A fault with its line, from 1, or 0 for the text as a whole.
fn in_line<T>(number: usize, read: Result<T, IniCode>) -> Result<T, IniError>
    ensures { result ≡ in_line number read }
{
    match read {
        Ok(value) => Ok(value),
        Err(code) => Err(IniError::at(number, code)),
    }
}

// The settings of the lines, with the defaults.
#[tactic(auto, unfolding(crate::specs::Settings::settings_given))]
fn settings(draft: Draft) -> Result<Settings, IniCode>
    ensures { Gives (λ settings. settings) result (settings_given (given_seen draft)) }
{
    let keys = draft.keys;
    keys.pool_mode.ok_or(IniCode::Missing)?;
    keys.auth_type.ok_or(IniCode::Missing)?;
    let listen_addr = keys.listen_addr.ok_or(IniCode::Missing)?;
    let default_pool_size = keys.default_pool_size.unwrap_or(POOL_SIZE);
    if !links_fit(default_pool_size, &draft.databases) {
        return Err(IniCode::OutOfRange);
    }
    Ok(Settings {
        listen_addr,
        listen_port: keys.listen_port.unwrap_or(LISTEN_PORT),
        peer_id: keys.peer_id.unwrap_or(PeerNo::new(0).unwrap()),
        default_pool_size,
        max_client_conn: keys.max_client_conn.unwrap_or(MAX_CLIENTS),
        databases: draft.databases,
        peers: draft.peers,
    })
}

/// Whether all databases together have at most 65,535 links.
pub(crate) fn links_fit(pool: u16, databases: &IndexMap<String, DatabaseEntry>) -> bool
    ensures { result ≡ nat_le (links_of pool (values databases.now)) 65535 }
{
    let mut total = 0u32;
    for database in databases.values() {
        total += u32::from(database.pool_size.unwrap_or(pool));
        if total > MAX_LINKS {
            return false;
        }
    }
    true
}
