//! What a first packet asks for.
use pg_ids::{AnyKey, Kind};

/// What was read of a connection's first packet.
#[derive(Debug, PartialEq, Eq, Drop)]
pub enum First {
    /// A StartupMessage: a session begins, whose client gets a key of this kind. `used` is the
    /// packet's length in bytes; what follows belongs to the session.
    Startup {
        kind: Kind,
        user: String,
        database: String,
        used: usize,
    },
    /// A CancelRequest, with its key.
    Cancel {
        key: AnyKey,
    },
    /// An SSLRequest.
    Ssl,
    /// A GSSENCRequest.
    Gss,
    /// The bytes so far decide nothing, and more may come.
    More,
}
