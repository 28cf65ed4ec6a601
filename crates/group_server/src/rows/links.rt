//! The rows of links.
use super::clients::address_text;
use super::table::{Cell, Column, Table};
use ini_config::Settings;
use pg_ids::DatabaseNo;
use std::alloc::{AllocError, Global};
use std::net::SocketAddr;
use telemetry::{Form, LinkSight};

// The columns.
const COLUMNS: &[Column] = &[
    ("node", 5),
    ("database", 16),
    ("server", 21),
    ("pid", 7),
    ("local_port", 10),
    ("state", 7),
    ("seconds", 12),
    ("client", 0),
];

/// Returns the table of links, without rows.
pub fn links_of(alloc: Global, form: Form) -> Result<Table, AllocError> {
    Table::new(alloc, form, COLUMNS)
}

/// Appends the links of the node with these settings, each with the address of its client, if one has
/// it.
pub fn put_links(
    alloc: Global,
    table: &mut Table,
    settings: &Settings,
    sights: &[(LinkSight, Option<SocketAddr>)],
) -> Result<(), AllocError> {
    for (sight, address) in sights {
        put_link(alloc, table, settings, sight, *address)?;
    }
    Ok(())
}

fn put_link(
    alloc: Global,
    table: &mut Table,
    settings: &Settings,
    sight: &LinkSight,
    address: Option<SocketAddr>,
) -> Result<(), AllocError> {
    let Ok(number) = u8::try_from(sight.database) else {
        return Ok(());
    };
    let Some(entry) = settings.database(DatabaseNo(number)) else {
        return Ok(());
    };
    let server = server_text(alloc, entry.host, entry.port)?;
    let client = address_text(alloc, address)?;
    let port = known_port(sight.port);
    table.add(&[
        Cell::Number(Some(u64::from(settings.peer_id().get()))),
        Cell::Text(entry.name),
        Cell::Text(server.as_str()),
        Cell::Number(sight.process),
        Cell::Number(port),
        Cell::Text(sight.state.name()),
        Cell::Time(sight.micros),
        Cell::Text(client.as_str()),
    ])
}

// Returns the text of a server's address.
fn server_text(alloc: Global, host: &str, port: u16) -> Result<String, AllocError> {
    format!(in alloc; "{host}:{port}")
}

// Returns a port, or none if it is 0.
fn known_port(port: u64) -> Option<u64> {
    if port == 0 { None } else { Some(port) }
}
