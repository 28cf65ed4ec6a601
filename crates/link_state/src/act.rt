//! What a login does next.
use pg_ids::ServerKey;

/// What a login does after the head of a server's message.
#[derive(Clone, Copy, Debug, PartialEq, Eq)]
pub enum LoginHead {
    /// Passes over the message's body.
    Skip,
    /// Reads this many bytes of the message's body, and passes over the rest.
    Body(usize),
}

/// What a login does after a server's message.
#[derive(Clone, Copy, Debug, PartialEq, Eq)]
pub enum LinkAct {
    /// Reads the server's next message.
    More,
    /// The login is done, and this is the key of the link's backend.
    Up(ServerKey),
}
