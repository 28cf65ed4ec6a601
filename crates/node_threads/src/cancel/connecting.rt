//! The one connection on which a cancel request is sent on.
ghost use Rattle.std.specs.Prelude.{ℕ, Result};
ghost use Rattle.std.specs.declared.io.Error.{Error};

use crate::Opener;
use peer_forward::{ReadCalls, WriteCalls};
use pg_ids::{DatabaseNo, PeerNo};
use std::io;
use std::sync::Wait;

/// What connects a cancel request to a server or to a peer. Connecting consumes it, and it can't be
/// copied: code that knows nothing else of its type opens one connection at most.
pub trait CancelOpener: Drop {
    /// A connection, known by its calls: any reader and writer of std is one. It is closed when it
    /// is dropped.
    type Stream: WriteCalls + ReadCalls + Drop;

    /// What may come of connecting to the server of a database.
    ghost cancels: { Self → ℕ → Result Self.Stream Error → Type 0 };

    /// What may come of connecting to a peer.
    ghost reaches: { Self → ℕ → Result Self.Stream Error → Type 0 };

    /// Connects to the server of this database.
    fn cancel<R: Wait>(self, rt: &R, database: DatabaseNo) -> io::Result<Self::Stream>
        ensures opened { cancels self database result };

    /// Connects to this peer.
    fn peer<R: Wait>(self, rt: &R, peer: PeerNo) -> io::Result<Self::Stream>
        ensures opened { reaches self peer result };
}

/// An opener for one cancel request.
#[derive(Drop)]
pub struct SingleUse<'a, O> {
    /// What it connects by.
    pub opener: &'a O,
}

impl<O: Opener> CancelOpener for SingleUse<'_, O> {
    type Stream = O::Stream;

    ghost cancels = { λ once. O.cancels once.opener.now };

    ghost reaches = { λ once. O.reaches once.opener.now };

    fn cancel<R: Wait>(self, rt: &R, database: DatabaseNo) -> io::Result<O::Stream> {
        self.opener.cancel(rt, database)
    }

    fn peer<R: Wait>(self, rt: &R, peer: PeerNo) -> io::Result<O::Stream> {
        self.opener.peer(rt, peer)
    }
}
