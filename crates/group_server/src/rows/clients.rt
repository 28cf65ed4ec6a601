//! The rows of sessions.
use super::table::{Cell, Column, Table};
use ini_config::Settings;
use node_threads::CONSOLE;
use pg_ids::DatabaseNo;
use std::alloc::{AllocError, Global};
use std::net::SocketAddr;
use telemetry::{ClientSight, Form};

// The columns.
const COLUMNS: &[Column] = &[
    ("node", 5),
    ("slot", 5),
    ("client", 21),
    ("database", 16),
    ("state", 7),
    ("seconds", 12),
    ("pid", 0),
];

/// Returns the table of sessions, without rows.
pub fn clients_of(alloc: Global, form: Form) -> Result<Table, AllocError> {
    Table::new(alloc, form, COLUMNS)
}

/// Appends the sessions of the node with these settings.
pub fn put_clients(
    alloc: Global,
    table: &mut Table,
    settings: &Settings,
    sights: &[ClientSight],
) -> Result<(), AllocError> {
    for sight in sights {
        put_client(alloc, table, settings, sight)?;
    }
    Ok(())
}

fn put_client(
    alloc: Global,
    table: &mut Table,
    settings: &Settings,
    sight: &ClientSight,
) -> Result<(), AllocError> {
    let address = address_text(alloc, sight.names.address)?;
    let database = database_text(alloc, settings, sight.names.database)?;
    let node = u64::from(settings.peer_id().get());
    add_client(table, node, sight, address.as_str(), database.as_str())
}

// Appends the row of a session of this node, whose client has this address and database.
fn add_client<'a>(
    table: &mut Table,
    node: u64,
    sight: &ClientSight,
    address: &'a str,
    database: &'a str,
) -> Result<(), AllocError> {
    let slot = sight.names.slot.map(u64::from);
    table.add(&[
        Cell::Number(Some(node)),
        Cell::Number(slot),
        Cell::Text(address),
        Cell::Text(database),
        Cell::Text(sight.state.name()),
        Cell::Time(sight.micros),
        Cell::Number(sight.process),
    ])
}

// Returns the name of the database at this place of the settings, or that of the console.
fn database_text(
    alloc: Global,
    settings: &Settings,
    place: Option<usize>,
) -> Result<String, AllocError> {
    let Some(place) = place else {
        return String::from_str(alloc, CONSOLE);
    };
    match u8::try_from(place) {
        Ok(number) => match settings.database(DatabaseNo(number)) {
            Some(entry) => String::from_str(alloc, entry.name),
            None => Ok(String::new(alloc)),
        },
        Err(_) => Ok(String::new(alloc)),
    }
}

/// Returns the text of an address, or none.
pub fn address_text(alloc: Global, address: Option<SocketAddr>) -> Result<String, AllocError> {
    match address {
        Some(address) => format!(in alloc; "{address}"),
        None => Ok(String::new(alloc)),
    }
}
