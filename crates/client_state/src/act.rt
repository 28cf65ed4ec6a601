//! What a session does next.
use crate::{Reply, Request};

/// What a session does about a frame that it read.
#[derive(Debug, Drop)]
pub enum Act {
    /// Writes this request to the link.
    ToLink(Request),
    /// Writes this to the client.
    ToClient(Reply),
    /// Acquires a link, and writes this request to it before anything else.
    Need(Request),
    /// Writes this to the client, and gives the link back.
    Release(Reply),
    /// Closes the link, writes this to the client, and ends.
    Close(Reply),
    /// Writes this to the client, and ends. No link is held.
    End(Reply),
}

/// What a session does about the head of a frame that it reads from its link.
#[derive(Debug, Drop)]
pub enum HeadAct {
    /// Writes the frame to the client, its head and then its body as it comes.
    PassOn,
    /// Reads the status byte of this ReadyForQuery.
    Ready,
    /// Closes the link, writes this to the client, and ends.
    Close(Reply),
}
