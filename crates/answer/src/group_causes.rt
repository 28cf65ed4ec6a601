//! Why nodes make no group, in words (own).
use ini_config::Settings;
use std::alloc::{AllocError, Global};

/// Words on why these nodes make no group, a line for each cause; none where they make one. Each
/// node has its file at the same place.
pub(crate) fn group_cause(
    alloc: Global,
    files: &[&str],
    nodes: &[Settings],
) -> Result<String, AllocError> {
    let mut words = String::new(alloc);
    if nodes.len() > 1 {
        add_without_number(alloc, files, nodes, &mut words)?;
    }
    if words.is_empty() {
        add_equal(alloc, files, nodes, &mut words)?;
    }
    if words.is_empty() {
        add_unlisted(alloc, files, nodes, &mut words)?;
    }
    Ok(words)
}

// The name of the file at this place.
fn file_at<'a>(files: &[&'a str], place: usize) -> &'a str {
    match files.get(place) {
        Some(file) => file,
        None => "",
    }
}

// Each node without a number.
fn add_without_number(
    alloc: Global,
    files: &[&str],
    nodes: &[Settings],
    words: &mut String,
) -> Result<(), AllocError> {
    for (place, node) in nodes.iter().enumerate() {
        if node.peer_id().get() == 0 {
            let file = file_at(files, place);
            let line = format!(in alloc;
                "{file} has no peer_id, or 0; allowed in a group: 1 to 16383\n"
            )?;
            words.push_str(line.as_str())?;
        }
    }
    Ok(())
}

// Each two nodes with one number.
fn add_equal(
    alloc: Global,
    files: &[&str],
    nodes: &[Settings],
    words: &mut String,
) -> Result<(), AllocError> {
    for (place, node) in nodes.iter().enumerate() {
        for (other_place, other) in nodes.iter().enumerate() {
            if other_place > place && other.peer_id() == node.peer_id() {
                let file = file_at(files, place);
                let other_file = file_at(files, other_place);
                let number = node.peer_id().get();
                let line = format!(in alloc;
                    "{file} and {other_file} both have peer_id {number}\n"
                )?;
                words.push_str(line.as_str())?;
            }
        }
    }
    Ok(())
}

// Each node that another one doesn't list.
fn add_unlisted(
    alloc: Global,
    files: &[&str],
    nodes: &[Settings],
    words: &mut String,
) -> Result<(), AllocError> {
    for (place, node) in nodes.iter().enumerate() {
        for (other_place, other) in nodes.iter().enumerate() {
            if other_place != place && !node.lists_peer(other.peer_id()) {
                let file = file_at(files, place);
                let other_file = file_at(files, other_place);
                let number = other.peer_id().get();
                let line = format!(in alloc;
                    "{file} has no entry {number} in [peers]: that is the peer_id of {other_file}\n"
                )?;
                words.push_str(line.as_str())?;
            }
        }
    }
    Ok(())
}
