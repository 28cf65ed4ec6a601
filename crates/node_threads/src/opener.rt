//! The servers and the other poolers that a client's connection reaches.
ghost use Rattle.std.specs.Prelude.{ℕ, Result};
ghost use Rattle.std.specs.declared.io.Error.{Error};

use crate::Observer;
use peer_forward::{ReadCalls, WriteCalls};
use pg_ids::{DatabaseNo, PeerNo};
use session_io::LoginListener;
use std::io;
use std::sync::Wait;

/// Whose message is above the limit.
#[derive(Clone, Copy, Debug, PartialEq, Eq)]
pub enum Sender {
    /// The client's.
    Client,
    /// The server's.
    Server,
}

/// What connects a client's connection to the servers of a node's databases and to its peers, and
/// knows how the client and a link do. There is one for each connection, with the connection's
/// observer.
pub trait Opener {
    /// A connection, known by its calls: any reader and writer of std is one. It is closed when it
    /// is dropped.
    type Stream: WriteCalls + ReadCalls + Drop;

    /// What is notified of what happens on the connection.
    type Observer: Observer<Self::Stream>;

    /// What may come of connecting to the server of a database, for a link.
    ghost connects: { Self → ℕ → Result Self.Stream Error → Type 0 };

    /// What may come of connecting to the server of a database, for a cancel request.
    ghost cancels: { Self → ℕ → Result Self.Stream Error → Type 0 };

    /// What may come of connecting to a peer, for a cancel request.
    ghost reaches: { Self → ℕ → Result Self.Stream Error → Type 0 };

    /// The connection's observer.
    fn observer(&self) -> &Self::Observer;

    /// Connects to the server of this database, for a link.
    fn server<R: Wait>(&self, rt: &R, database: DatabaseNo) -> io::Result<Self::Stream>
        ensures opened { connects self.now database result };

    /// Connects to the server of this database, for a cancel request.
    fn cancel<R: Wait>(&self, rt: &R, database: DatabaseNo) -> io::Result<Self::Stream>
        ensures opened { cancels self.now database result };

    /// Connects to this peer, for a cancel request.
    fn peer<R: Wait>(&self, rt: &R, peer: PeerNo) -> io::Result<Self::Stream>
        ensures opened { reaches self.now peer result };

    /// Whether a link of this database is to be tried once more, after a try that failed. It may wait
    /// a while before it returns.
    fn tries_again<R: Wait>(&self, _rt: &R, _database: DatabaseNo) -> bool {
        false
    }

    /// Whether the stream of a link that nobody used is as it was left: it is open, and nothing
    /// came on it. It doesn't wait.
    fn is_quiet(&self, _stream: &Self::Stream) -> bool {
        true
    }

    /// Whether the client is gone. It doesn't wait.
    fn is_gone(&self) -> bool {
        false
    }
}

/// Hears of logins for an opener's observer.
#[derive(Drop)]
pub struct Listening<'a, O> {
    /// The opener.
    pub opener: &'a O,
}

impl<O: Opener> LoginListener<O::Stream> for Listening<'_, O> {
    fn error_begins(&self, stream: &O::Stream) {
        self.opener.observer().link_refusal_begun(stream);
    }
}
