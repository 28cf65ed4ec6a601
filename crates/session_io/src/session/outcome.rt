//! How a stay on a link ended.
use client_state::Reply;

/// How a stay on a link ended.
#[derive(Debug, Drop)]
#[must_use]
pub enum Stayed {
    /// The link is to be given back. It was left idle, with nothing outstanding.
    Release,
    /// The link is to be closed, and the session goes on without it.
    Close,
    /// The link is to be closed, this to be written to the client, and the session ends.
    End(Reply),
}
