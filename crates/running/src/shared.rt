//! Parts of this process that would listen at one address.
use crate::loops::{FRONT, is_same, port_name};
use answer::Opener;
use command_line::ServeRequest;
use ini_config::Group;
use sockets::Host;
use std::alloc::{AllocError, Global};

// A part of this process that listens.
#[derive(Clone, Copy)]
enum Part {
    // All nodes, at the group's port.
    Front,
    // The metrics.
    Metrics,
    // The node at this place.
    Node(usize),
}

// Where a part listens.
#[derive(Clone, Copy)]
struct Listener<'a> {
    part: Part,
    address: &'a str,
    port: u16,
}

/// Names two parts of this process that listen at one address, each by its line or its option; empty
/// where there are none.
pub(crate) fn shared_text<H: Host, O: Opener>(
    host: &H,
    alloc: Global,
    opener: &O,
    group: &Group,
    request: &ServeRequest<'_>,
) -> Result<String, AllocError> {
    let listeners = listeners_of(alloc, group, request)?;
    for (place, one) in listeners.iter().enumerate() {
        for other in listeners.iter().skip(place.saturating_add(1)) {
            if share(host, one, other) {
                return pair_text(alloc, opener, request, one.part, other.part);
            }
        }
    }
    Ok(String::new(alloc))
}

fn listeners_of<'a>(
    alloc: Global,
    group: &'a Group,
    request: &ServeRequest<'_>,
) -> Result<Vec<Listener<'a>>, AllocError> {
    let mut listeners = Vec::new(alloc);
    listeners.push(Listener {
        part: Part::Front,
        address: FRONT,
        port: request.front,
    })?;
    if let Some(port) = request.metrics {
        listeners.push(Listener {
            part: Part::Metrics,
            address: FRONT,
            port,
        })?;
    }
    for place in 0..group.len() {
        if let Some(node) = group.get(place) {
            listeners.push(Listener {
                part: Part::Node(place),
                address: node.listen_addr(),
                port: node.listen_port(),
            })?;
        }
    }
    Ok(listeners)
}

fn share<H: Host>(host: &H, one: &Listener<'_>, other: &Listener<'_>) -> bool {
    one.port == other.port
        && (is_same(host, one.address, other.address) || is_same(host, other.address, one.address))
}

fn pair_text<O: Opener>(
    alloc: Global,
    opener: &O,
    request: &ServeRequest<'_>,
    one: Part,
    other: Part,
) -> Result<String, AllocError> {
    let one = part_name(alloc, opener, request, one)?;
    let other = part_name(alloc, opener, request, other)?;
    format!(in alloc; "{one} and {other} name one address: give each its own\n")
}

// The name of a part: its option, or the line of its port.
fn part_name<O: Opener>(
    alloc: Global,
    opener: &O,
    request: &ServeRequest<'_>,
    part: Part,
) -> Result<String, AllocError> {
    match part {
        Part::Front => {
            let port = request.front;
            format!(in alloc; "--front {port}")
        }
        Part::Metrics => {
            let port = request.metrics.unwrap_or(0);
            format!(in alloc; "--metrics {port}")
        }
        Part::Node(place) => port_name(alloc, opener, request, place),
    }
}
