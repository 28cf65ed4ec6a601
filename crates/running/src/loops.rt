//! Entries of settings that lead back to this process.
use crate::shared::shared_text;
use answer::{Fault, Input, Opener};
use command_line::ServeRequest;
use ini_config::{Group, trimmed};
use pg_ids::{DatabaseNo, PeerNo};
use sockets::Host;
use std::alloc::{AllocError, Global};
use std::io::{self, ErrorKind};
use std::net::TcpListener;

/// The address of the group's port.
pub(crate) const FRONT: &str = "127.0.0.1";

// How many bytes of a file are read at a time.
const CHUNK: usize = 4_096;

// Where an entry leads.
#[derive(Clone, Copy)]
struct Target<'a> {
    host: &'a str,
    port: u16,
    // The other pooler that it names, if it names one.
    peer: Option<PeerNo>,
}

// A part of this process that listens.
#[derive(Clone, Copy)]
enum Listens {
    // The group's port.
    Front,
    // The node at this place.
    Node(usize),
}

// A line of a settings file.
#[derive(Clone, Copy)]
struct Line<'a> {
    file: &'a str,
    section: &'a str,
    key: &'a str,
}

/// Fails if an entry of `[databases]` or `[peers]` leads to an address at which this process
/// listens: requests would go round. An entry of `[peers]` may lead to the node that it names. Where
/// two parts of the process listen at one address, that is the fault.
pub(crate) fn refuse_loops<H: Host, O: Opener>(
    host: &H,
    alloc: Global,
    opener: &O,
    group: &Group,
    request: &ServeRequest<'_>,
) -> Result<(), Fault> {
    for place in 0..group.len() {
        refuse_databases(host, alloc, opener, group, request, place)?;
        refuse_peers(host, alloc, opener, group, request, place)?;
    }
    Ok(())
}

// The same for the databases of the node at this place.
fn refuse_databases<H: Host, O: Opener>(
    host: &H,
    alloc: Global,
    opener: &O,
    group: &Group,
    request: &ServeRequest<'_>,
    place: usize,
) -> Result<(), Fault> {
    let Some(settings) = group.get(place) else {
        return Ok(());
    };
    for number in 0..settings.database_count() {
        let Some(entry) = settings.database(DatabaseNo(number as u8)) else {
            return Ok(());
        };
        let target = Target {
            host: entry.host,
            port: entry.port,
            peer: None,
        };
        if let Some(listens) = find(host, group, request.front, &target) {
            let line = Line {
                file: file_at(request, place),
                section: "[databases]",
                key: entry.name,
            };
            return Err(fault(host, alloc, opener, group, request, &line, listens));
        }
    }
    Ok(())
}

// The same for the peers of the node at this place.
fn refuse_peers<H: Host, O: Opener>(
    host: &H,
    alloc: Global,
    opener: &O,
    group: &Group,
    request: &ServeRequest<'_>,
    place: usize,
) -> Result<(), Fault> {
    let Some(settings) = group.get(place) else {
        return Ok(());
    };
    for number in 0..settings.peer_count() {
        let Some(entry) = settings.peer(number) else {
            return Ok(());
        };
        let target = Target {
            host: entry.host,
            port: entry.port,
            peer: Some(entry.number),
        };
        if let Some(listens) = find(host, group, request.front, &target) {
            let Ok(name) = entry.number.get().to_string(alloc) else {
                return Err(Fault::Memory);
            };
            let line = Line {
                file: file_at(request, place),
                section: "[peers]",
                key: name.as_str(),
            };
            return Err(fault(host, alloc, opener, group, request, &line, listens));
        }
    }
    Ok(())
}

// The settings file of the node at this place.
fn file_at<'a>(request: &ServeRequest<'a>, place: usize) -> &'a str {
    match request.files.get(place) {
        Some(file) => file,
        None => "",
    }
}

// What of this process listens where an entry leads, unless it is the node that the entry names.
fn find<H: Host>(host: &H, group: &Group, front: u16, target: &Target<'_>) -> Option<Listens> {
    if target.port == front && is_same(host, target.host, FRONT) {
        return Some(Listens::Front);
    }
    for place in 0..group.len() {
        if leads_to(host, group, place, target) {
            return Some(Listens::Node(place));
        }
    }
    None
}

// Whether an entry leads to the node at this place, and doesn't name it.
fn leads_to<H: Host>(host: &H, group: &Group, place: usize, target: &Target<'_>) -> bool {
    let Some(node) = group.get(place) else {
        return false;
    };
    !is_named(target, node.peer_id())
        && target.port == node.listen_port()
        && is_same(host, target.host, node.listen_addr())
}

// Whether an entry names the pooler with this number.
fn is_named(target: &Target<'_>, number: PeerNo) -> bool {
    match target.peer {
        Some(peer) => peer == number,
        None => false,
    }
}

/// Whether a connection to a host reaches what listens at this address, at the same port. Names
/// aren't looked up.
pub(crate) fn is_same<H: Host>(host: &H, to: &str, address: &str) -> bool {
    if to == address {
        return true;
    }
    let (one, other) = (loopback_of(to), loopback_of(address));
    if (one.v4 && other.v4) || (one.v6 && other.v6) {
        return true;
    }
    is_any(address) && is_numeric(to) && is_own(host, to)
}

// Through which loopback addresses a host is reached.
#[derive(Clone, Copy)]
struct Loopback {
    v4: bool,
    v6: bool,
}

fn loopback_of(host: &str) -> Loopback {
    let is_name = host == "localhost";
    Loopback {
        v4: is_name || host == "127.0.0.1" || host == "0.0.0.0",
        v6: is_name || host == "::1" || host == "::",
    }
}

// Whether this stands for all addresses of the machine.
fn is_any(address: &str) -> bool {
    address == "0.0.0.0" || address == "::"
}

// Whether this is an address, and no name.
fn is_numeric(host: &str) -> bool {
    host.as_bytes().iter().all(|byte| byte.is_ascii_digit() || *byte == b'.' || *byte == b':')
        || host.as_bytes().contains(&b':')
}

// Whether this is an address of the machine: a socket can be bound to it.
fn is_own<H: Host>(host: &H, address: &str) -> bool {
    TcpListener::bind(host, (address, 0)).is_ok()
}

// The fault of an entry that leads to what listens.
fn fault<H: Host, O: Opener>(
    host: &H,
    alloc: Global,
    opener: &O,
    group: &Group,
    request: &ServeRequest<'_>,
    line: &Line<'_>,
    listens: Listens,
) -> Fault {
    match text(host, alloc, opener, group, request, line, listens) {
        Ok(text) => Fault::Explained(text),
        Err(AllocError) => Fault::Memory,
    }
}

// The text of this fault, which names both lines, or the two parts that listen at one address.
fn text<H: Host, O: Opener>(
    host: &H,
    alloc: Global,
    opener: &O,
    group: &Group,
    request: &ServeRequest<'_>,
    line: &Line<'_>,
    listens: Listens,
) -> Result<String, AllocError> {
    let shared = shared_text(host, alloc, opener, group, request)?;
    if !shared.is_empty() {
        return Ok(shared);
    }
    let entry = name_of(alloc, opener, line)?;
    let there = match listens {
        Listens::Front => {
            let front = request.front;
            format!(in alloc; "--front {front}")?
        }
        Listens::Node(place) => port_name(alloc, opener, request, place)?,
    };
    let key = line.key;
    format!(in alloc; "{entry}: {key} leads to this process itself, which listens there: {there}\n")
}

/// The name of the line that says at which port the node at this place listens, or of its file
/// where none does.
pub(crate) fn port_name<O: Opener>(
    alloc: Global,
    opener: &O,
    request: &ServeRequest<'_>,
    place: usize,
) -> Result<String, AllocError> {
    let line = Line {
        file: file_at(request, place),
        section: "[pgbouncer]",
        key: "listen_port",
    };
    name_of(alloc, opener, &line)
}

// The name of a line: its file and its number, if it is found.
fn name_of<O: Opener>(alloc: Global, opener: &O, line: &Line<'_>) -> Result<String, AllocError> {
    let file = line.file;
    match number_of(alloc, opener, line)? {
        Some(number) => format!(in alloc; "{file}:{number}"),
        None => String::from_str(alloc, file),
    }
}

// The number of a line, if it is found when the file is read once more.
fn number_of<O: Opener>(
    alloc: Global,
    opener: &O,
    line: &Line<'_>,
) -> Result<Option<usize>, AllocError> {
    let text = read(alloc, opener, line.file)?;
    let mut is_in_section = false;
    let mut number: usize = 0;
    for found in text.as_str().lines() {
        number = number.saturating_add(1);
        let found = trimmed(found);
        if found.starts_with('[') {
            is_in_section = found == line.section;
        } else if is_in_section && has_key(found, line.key) {
            return Ok(Some(number));
        }
    }
    Ok(None)
}

// Whether a line gives a value to this key.
fn has_key(line: &str, key: &str) -> bool {
    match line.split_once('=') {
        Some((name, _)) => trimmed(name) == key,
        None => false,
    }
}

// What the file holds, as far as it can be read and is UTF-8.
fn read<O: Opener>(alloc: Global, opener: &O, file: &str) -> Result<String, AllocError> {
    let mut bytes = Vec::new(alloc);
    if let Err(error) = read_into(opener, file, &mut bytes) {
        if error.kind() == ErrorKind::OutOfMemory {
            return Err(AllocError);
        }
    }
    match std::str::from_utf8(&bytes) {
        Ok(text) => String::from_str(alloc, text),
        Err(_) => Ok(String::new(alloc)),
    }
}

fn read_into<O: Opener>(opener: &O, file: &str, bytes: &mut Vec<u8>) -> io::Result<()> {
    let mut reader = opener.open(file)?;
    let mut chunk = [0; CHUNK];
    for _ in 0..u64::MAX {
        let count = reader.read_once(&mut chunk)?;
        if count == 0 {
            return Ok(());
        }
        bytes.extend_from_slice(chunk.split_at(count.min(CHUNK)).0)?;
    }
    Ok(())
}
