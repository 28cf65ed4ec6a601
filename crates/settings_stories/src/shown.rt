//! How settings and the refusals of files and groups are shown.
use crate::texts::told;
use ini_config::{Database, DatabaseNo, GroupError, IniCode, IniError, Peer, Settings};
use pg_ids::PeerNo;
use std::alloc::{AllocError, Global};

const CODES: [IniCode; 9] = [
    IniCode::BadLine,
    IniCode::UnknownSection,
    IniCode::UnknownKey,
    IniCode::BadNumber,
    IniCode::OutOfRange,
    IniCode::Repeated,
    IniCode::Missing,
    IniCode::NotInProfile,
    IniCode::Memory,
];

const REFUSALS: [GroupError; 4] = [
    GroupError::SamePeer,
    GroupError::MissingPeer,
    GroupError::NoPeering,
    GroupError::Memory,
];

// How many databases and peers a file has at most.
const MOST: u8 = 64;

/// Each fault of a file, in line 6, and each refusal of a group.
pub(crate) fn codes(alloc: Global) -> Result<String, AllocError> {
    let mut text = String::new(alloc);
    for code in CODES {
        let number = code.number();
        let fault = IniError { line: 6, code };
        write!(&mut text, "\n  {number} {fault}")?;
    }
    for refusal in REFUSALS {
        let number = refusal.number();
        write!(&mut text, "\n  {number} {refusal}")?;
    }
    Ok(text)
}

/// The settings of a node.
pub(crate) fn settings_told(alloc: Global, settings: &Settings) -> Result<String, AllocError> {
    let mut text = own_values(alloc, settings)?;
    put_databases(settings, &mut text)?;
    put_peers(settings, &mut text)?;
    Ok(text)
}

// A line for each database, by its place.
fn put_databases(settings: &Settings, text: &mut String) -> Result<(), AllocError> {
    for place in 0..=MOST {
        if let Some(database) = settings.database(DatabaseNo(place)) {
            put_database(place, &database, text)?;
        }
    }
    Ok(())
}

// A line for each peer, by its place.
fn put_peers(settings: &Settings, text: &mut String) -> Result<(), AllocError> {
    for place in 0..=MOST {
        if let Some(peer) = settings.peer(usize::from(place)) {
            put_peer(place, &peer, text)?;
        }
    }
    Ok(())
}

fn own_values(alloc: Global, settings: &Settings) -> Result<String, AllocError> {
    let address = settings.listen_addr();
    let port = settings.listen_port();
    let number = settings.peer_id().get();
    let pool = settings.default_pool_size();
    let clients = settings.max_client_conn();
    let databases = settings.database_count();
    let peers = settings.peer_count();
    format!(in alloc;
        "\n  listen_addr={address} listen_port={port} peer_id={number} default_pool_size={pool} \
        max_client_conn={clients} databases={databases} peers={peers}"
    )
}

fn put_database(place: u8, database: &Database<'_>, text: &mut String) -> Result<(), AllocError> {
    let Database {
        name,
        host,
        port,
        user,
        dbname,
        pool_size,
    } = *database;
    write!(
        text,
        "\n  database {place}: {name} host={host} port={port} user={user} dbname={dbname} pool_size={pool_size}"
    )
}

fn put_peer(place: u8, peer: &Peer<'_>, text: &mut String) -> Result<(), AllocError> {
    let Peer {
        number,
        host,
        port,
        pool_size,
    } = *peer;
    let number = number.get();
    write!(
        text,
        "\n  peer {place}: {number} host={host} port={port} pool_size={pool_size}"
    )
}

/// The place of the database with this name.
pub(crate) fn database_told(
    alloc: Global,
    settings: &Settings,
    name: &str,
) -> Result<String, AllocError> {
    match settings.find_database(name) {
        Some(place) => {
            let place = place.get();
            format!(in alloc; " -> database {place}")
        }
        None => told(alloc, "none"),
    }
}

/// Whether the node lists a peer with this number.
pub(crate) fn listed(
    alloc: Global,
    settings: &Settings,
    number: &str,
) -> Result<String, AllocError> {
    let Some(number) = number_of(number) else {
        return told(alloc, "no number");
    };
    if settings.lists_peer(number) {
        told(alloc, "yes")
    } else {
        told(alloc, "no")
    }
}

fn number_of(word: &str) -> Option<PeerNo> {
    PeerNo::new(word.parse::<u16>().ok()?)
}
