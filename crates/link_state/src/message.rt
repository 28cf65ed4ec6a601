//! What a server's message means to a login.
use crate::LinkError;
use pg_ids::ServerKey;

/// What a server's message means to a login.
#[derive(Clone, Copy)]
pub enum Message {
    /// Nothing that the login waits for.
    Passed,
    /// The key of the link's backend.
    Key(ServerKey),
    /// The server is ready, and idle or not.
    Ready { idle: bool },
    /// The login fails.
    Fault(LinkError),
}
