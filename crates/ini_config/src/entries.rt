//! The entries of a node, in the order of its file.
ghost use Rattle.std.specs.Prelude.{◌≡◌, ◌≤◌, ◌<◌, ◌==◌, ◌+◌, ◌++◌, [], ◌∷◌, nat_eq, length, OnOk, OnErr, IfErr, None, false};
ghost use Rattle.std.specs.List.{list_any};
ghost use Rattle.std.specs.Str.{bytes_eq};
ghost use Rattle.indexmap.specs.IndexMap.{get, get_by_text};
ghost use Rattle.ini_config.specs.Reads.{Answers};
ghost use Rattle.ini_config.specs.Settings.{one_more};
ghost use Rattle.ini_config.specs.View.{database_given, databases_seen, peer_settings, peers_seen};

use crate::entry::{DatabaseEntry, PeerEntry};
use crate::fault::IniCode;
use indexmap::IndexMap;
use pg_ids::PeerNo;
use std::alloc::{AllocFailed, Global};
use std::hash::Hash;

const MAX_ENTRIES: usize = 64;

/// Puts a new key last.
pub(crate) fn add_entry<K: Eq + Hash + Drop, V: Drop>(
    entries: &mut IndexMap<K, V>,
    key: K,
    value: V,
) -> Result<(), AllocFailed<(K, V)>>
    requires { get K.eq entries.old key ≡ None }
    ensures ok { OnOk result (entries.new.entries ≡ entries.old.entries ++ (key, value) ∷ []) }
    ensures err { OnErr result (entries.new.entries ≡ entries.old.entries) }
{
    entries.insert(key, value)?;
    Ok(())
}

// Refuses an entry that was given before, and the 65th.
#[tactic(auto, unfolding(crate::specs::Settings::one_more))]
fn one_more(given: bool, count: usize) -> Result<(), IniCode>
    ensures said { Answers (λ _. count) result (one_more given count) }
    ensures new { OnOk result (given ≡ false) }
    ensures room { OnOk result (count < 64) }
{
    if given {
        return Err(IniCode::Repeated);
    }
    if count >= MAX_ENTRIES {
        return Err(IniCode::OutOfRange);
    }
    Ok(())
}

/// Refuses a database of a name that is there, and the 65th.
pub(crate) fn room_for_database(
    databases: &IndexMap<String, DatabaseEntry>,
    name: &str,
) -> Result<(), IniCode>
    ensures said { Answers (λ _. length databases.now.entries) result (one_more
        (list_any (λ d. bytes_eq name.now d.name) (databases_seen databases.now.entries))
        (length (databases_seen databases.now.entries))) }
    ensures new { OnOk result (get_by_text databases.now name.now ≡ None) }
    ensures room { OnOk result (length databases.now.entries < 64) }
{
    one_more(databases.contains_key(name), databases.len())
}

/// Puts a new database last.
pub(crate) fn put_database(
    alloc: Global,
    databases: &mut IndexMap<String, DatabaseEntry>,
    name: &str,
    entry: DatabaseEntry,
) -> Result<(), IniCode>
    requires { get_by_text databases.old name.now ≡ None }
    ensures ok { OnOk result (databases_seen databases.new.entries
        ≡ databases_seen databases.old.entries ++ database_given name.now entry ∷ []) }
    ensures err { IfErr result (λ e. e ≡ IniCode.Memory) }
    ensures kept { OnErr result (databases.new.entries ≡ databases.old.entries) }
    ensures count { length databases.new.entries ≤ length databases.old.entries + 1 }
{
    let name = String::from_str(alloc, name)?;
    add_entry(databases, name, entry)?;
    Ok(())
}

/// Refuses a peer of a number that is there, and the 65th.
pub(crate) fn room_for_peer(
    peers: &IndexMap<PeerNo, PeerEntry>,
    number: PeerNo,
) -> Result<(), IniCode>
    ensures said { Answers (λ _. length peers.now.entries) result (one_more
        (list_any (λ p. number == p.number) (peers_seen peers.now.entries))
        (length (peers_seen peers.now.entries))) }
    ensures new { OnOk result (get nat_eq peers.now number ≡ None) }
    ensures room { OnOk result (length peers.now.entries < 64) }
{
    one_more(peers.contains_key(&number), peers.len())
}

/// Puts a new peer last.
pub(crate) fn put_peer(
    peers: &mut IndexMap<PeerNo, PeerEntry>,
    number: PeerNo,
    entry: PeerEntry,
) -> Result<(), IniCode>
    requires { get nat_eq peers.old number ≡ None }
    ensures ok { OnOk result (peers_seen peers.new.entries
        ≡ peers_seen peers.old.entries ++ peer_settings number entry ∷ []) }
    ensures err { IfErr result (λ e. e ≡ IniCode.Memory) }
    ensures kept { OnErr result (peers.new.entries ≡ peers.old.entries) }
    ensures count { length peers.new.entries ≤ length peers.old.entries + 1 }
{
    add_entry(peers, number, entry)?;
    Ok(())
}
