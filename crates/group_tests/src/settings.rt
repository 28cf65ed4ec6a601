//! Settings of the nodes of a group, read from texts.
use ini_config::{Group, Settings, read_settings};
use std::alloc::{AllocError, Global};
use std::test::Fail;

// What the settings of all nodes have: one link, for four clients.
const COMMON: &str = "[pgbouncer]
pool_mode = transaction
auth_type = trust
listen_addr = 127.0.0.1
default_pool_size = 1
max_client_conn = 4
";

// The names of databases, each of a server of its own.
const DATABASES: [&str; 2] = ["shop", "work"];

// The group of nodes 1, 2 and so on, which listen at these ports, before the server at this port,
// as `group_before` makes it.
pub(crate) fn group(
    alloc: Global,
    ports: &[u16],
    server: u16,
    leads: &[&[usize]],
) -> Result<Group, Fail> {
    group_before(alloc, ports, &[server], leads)
}

// The group of nodes 1, 2 and so on, which listen at these ports, before the servers at these
// ports, of a database each. The entries of the node at a place lead, for peers 1, 2 and so on, to
// the nodes at the places of `leads`.
pub(crate) fn group_before(
    alloc: Global,
    ports: &[u16],
    servers: &[u16],
    leads: &[&[usize]],
) -> Result<Group, Fail> {
    let mut nodes = Vec::new(alloc);
    for (place, leads) in leads.iter().enumerate() {
        nodes.push(settings(alloc, ports, servers, place, leads)?)?;
    }
    Ok(Group::check(nodes)?)
}

// The texts of the settings of such nodes, one for each.
pub(crate) fn texts(
    alloc: Global,
    ports: &[u16],
    servers: &[u16],
    leads: &[&[usize]],
) -> Result<Vec<String>, AllocError> {
    let mut texts = Vec::new(alloc);
    for (place, leads) in leads.iter().enumerate() {
        texts.push(text(alloc, ports, servers, place, leads)?)?;
    }
    Ok(texts)
}

// The settings of the node at a place.
pub(crate) fn settings(
    alloc: Global,
    ports: &[u16],
    servers: &[u16],
    place: usize,
    leads: &[usize],
) -> Result<Settings, Fail> {
    let text = text(alloc, ports, servers, place, leads)?;
    Ok(read_settings(alloc, text.as_str())?)
}

fn text(
    alloc: Global,
    ports: &[u16],
    servers: &[u16],
    place: usize,
    leads: &[usize],
) -> Result<String, AllocError> {
    let mut text = String::from_str(alloc, COMMON)?;
    put(alloc, &mut text, "peer_id = ", number_at(place))?;
    put(alloc, &mut text, "\nlisten_port = ", port_at(ports, place))?;
    text.push_str("\n[databases]")?;
    for (name, server) in DATABASES.iter().zip(servers) {
        text.push_str("\n")?;
        text.push_str(name)?;
        put(
            alloc,
            &mut text,
            " = host=127.0.0.1 user=app port=",
            *server,
        )?;
    }
    text.push_str("\n[peers]")?;
    for (peer, lead) in leads.iter().enumerate() {
        put(alloc, &mut text, "\n", number_at(peer))?;
        put(
            alloc,
            &mut text,
            " = host=127.0.0.1 port=",
            port_at(ports, *lead),
        )?;
    }
    Ok(text)
}

// Appends these words and a number.
fn put(alloc: Global, text: &mut String, words: &str, number: u16) -> Result<(), AllocError> {
    text.push_str(words)?;
    let digits = number.to_string(alloc)?;
    text.push_str(digits.as_str())
}

// The number of the node at a place. 0, where it is too great, is refused.
fn number_at(place: usize) -> u16 {
    u16::try_from(place.saturating_add(1)).unwrap_or(0)
}

// The port of the node at a place. 0, where there is none, is refused.
fn port_at(ports: &[u16], place: usize) -> u16 {
    ports.get(place).copied().unwrap_or(0)
}
