//! What a connection's observer is notified of while the connection is served.
ghost use Rattle.std.specs.Prelude.{◌≡◌};
ghost use Rattle.byteorder.specs.Endian.{big_number};

use crate::Sender;
use byteorder::{BigEndian, ByteOrder};
use client_state::Refusal;
use node_core::CancelRefusal;
use peer_forward::Verdict;
use pg_ids::{DatabaseNo, PeerNo, ServerKey, SlotNo};
use session_io::LoginRefusal;
use startup::ErrorCode;

/// How a session ended.
#[derive(Clone, Copy, Debug, PartialEq, Eq)]
pub struct SessionEnd {
    /// The code of the error that its client gets. There is none where the client left, or memory was
    /// refused.
    pub code: Option<ErrorCode>,
    /// Why the session ended with an error of its own, where that is known.
    pub refusal: Option<Refusal>,
}

/// What a node ordered for a cancel request.
#[derive(Clone, Copy, Debug, PartialEq, Eq)]
pub enum CancelOrder {
    /// It goes to the server of this database, for its process of this number.
    Server(DatabaseNo, u32),
    /// It goes to this peer.
    Peer(PeerNo),
    /// The client's wait for a link ends.
    Unwait,
    /// It was refused.
    Refused(CancelRefusal),
}

/// What is notified, in order, of what happens on one client's connection. `L` is the stream of a
/// link. No method has a contract, so no proof says what it is notified of.
pub trait Observer<L> {
    /// The client of this slot has its whole login on this database.
    fn logged_in(&self, _database: DatabaseNo, _slot: SlotNo) {}

    /// The client has its whole login on the console.
    fn console_logged_in(&self) {}

    /// The client was refused a login by an error with this code, which it got unless memory for the
    /// error was refused.
    fn login_refused(&self, _code: ErrorCode) {}

    /// The session of a client that had logged in has ended. It holds nothing any more, and its error,
    /// if it gets one, is written next.
    fn session_ended(&self, _end: SessionEnd) {}

    /// The client may have to wait for a link from now on.
    fn wait_begun(&self) {}

    /// The client has waited for a link since `wait_begun`, and may ask for one, or is gone.
    fn waited(&self) {}

    /// The login of a link on this stream is done, at the server's process of this number.
    fn link_opened(&self, _stream: &L, _process: u32) {}

    /// The client has this link from now on.
    fn link_given(&self, _stream: &L) {}

    /// The client has no link from now on.
    fn link_returned(&self) {}

    /// The server of a database refuses the login of a link on this stream by an error, of which the
    /// rest is read next.
    fn link_refusal_begun(&self, _stream: &L) {}

    /// The server of this database refused the login of a link with these words.
    fn link_refused(&self, _database: DatabaseNo, _refusal: &LoginRefusal) {}

    /// On this database a message has this length field, or a client's messages of an extended
    /// query have this many bytes together, more than the limit.
    fn message_refused(&self, _database: DatabaseNo, _from: Sender, _bytes: usize, _limit: u32) {}

    /// The connection asks for a cancel, with the key of this slot of this peer.
    fn cancel_asked(&self, _peer: PeerNo, _slot: SlotNo) {}

    /// The cancel request gets no order, since no seat is free for it. Its connection is reset.
    fn cancel_unserved(&self) {}

    /// The node gave this order for the cancel request.
    fn cancel_ordered(&self, _order: CancelOrder) {}

    /// The cancel request's connection was finished by this verdict.
    fn cancel_ended(&self, _verdict: Verdict) {}
}

/// An observer that does nothing.
#[derive(Clone, Copy, Debug, PartialEq, Eq)]
pub struct NoObserver;

impl<L> Observer<L> for NoObserver {}

/// The number of the server's process with this key (PostgreSQL manual, "Message Formats":
/// BackendKeyData).
pub(crate) fn process_of(key: ServerKey) -> u32
    ensures { result ≡ big_number 4 key }
{
    BigEndian::read_u32(&key.to_bytes())
}
