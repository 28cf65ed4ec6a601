//! Nodes of a group, by their numbers and those of their peers.
use ini_config::{Group, Settings};
use std::alloc::{AllocError, Global};

// The lines that each file has to have.
const REQUIRED: &str = "[pgbouncer]\npool_mode=transaction\nauth_type=trust\nlisten_addr=a\n";

/// The file of a node: the first word is its number, and the others are those of its peers.
pub(crate) fn node_text(alloc: Global, words: &str) -> Result<String, AllocError> {
    let mut text = String::from_str(alloc, REQUIRED)?;
    let (number, peers) = words.split_once(' ').unwrap_or((words, ""));
    write!(&mut text, "peer_id={number}\n[peers]\n")?;
    for peer in peers.split_whitespace() {
        write!(&mut text, "{peer}=host=a port=1\n")?;
    }
    Ok(text)
}

/// Whether these nodes are a group, and the numbers of a group's nodes.
pub(crate) fn group_told(alloc: Global, nodes: Vec<Settings>) -> Result<String, AllocError> {
    match Group::check(nodes) {
        Ok(group) => numbers(alloc, &group),
        Err(refusal) => format!(in alloc; " -> {refusal}"),
    }
}

// The numbers of a group's nodes, by their places.
fn numbers(alloc: Global, group: &Group) -> Result<String, AllocError> {
    let count = group.len();
    let mut text = format!(in alloc; " -> group of {count} nodes")?;
    if group.is_empty() {
        text.push_str(", empty")?;
    }
    for place in 0..=count {
        if let Some(node) = group.get(place) {
            let number = node.peer_id().get();
            write!(&mut text, " {number}")?;
        }
    }
    Ok(text)
}
