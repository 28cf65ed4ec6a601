//! What may happen to a group of nodes, their clients and their servers.
ghost use Rattle.std.specs.Prelude.{◌≡◌, IfOk};
ghost use Rattle.world.specs.Facts.{IsEvent};

use crate::numbers::{BackendNo, ConnectionNo, FlightNo, Label, NodeNo};
use crate::ranges::secret_in_range;
use pg_ids::{Boot, DatabaseNo, Kind, Secret, ServerKey};
use std::alloc::{AllocError, Global};
use std::marker::Model;

/// Bytes that somebody sends as a connection's first packet.
#[derive(Debug, Drop)]
pub struct Bytes {
    bytes: Vec<u8>,
}

impl Model for Bytes {
    ghost use Rattle.std.specs.Prelude.{ℕ, List};

    ghost Value = { List ℕ };

    ghost view = { λ b. b.bytes.items };
}

impl Bytes {
    /// These bytes.
    pub fn from_vec(bytes: Vec<u8>) -> Bytes
        ensures { result ≡ bytes.items }
    {
        Bytes { bytes }
    }

    // A copy of them.
    pub(crate) fn copy(&self, alloc: Global) -> Result<Bytes, AllocError>
        ensures { IfOk result (λ bytes. bytes ≡ self.now) }
    {
        Ok(Bytes {
            bytes: Vec::from_slice(alloc, &self.bytes)?,
        })
    }

    /// The bytes.
    pub fn as_slice(&self) -> &[u8]
        ensures { result.now ≡ self.now }
    {
        self.bytes.as_slice()
    }
}

/// An event. One that names a node which isn't there can't take place.
#[derive(Debug, Drop)]
pub enum Event {
    /// A new client logs in at this node to this database, draws this secret, and wants a key of
    /// this kind.
    Login(NodeNo, Label, DatabaseNo, Secret, Kind),
    /// The client asks for a link of its database.
    Acquire(Label),
    /// The link that the client may open is open, and its server cancels by this key.
    Up(Label, ServerKey),
    /// The link that the client may open can't be opened.
    UpFailed(Label),
    /// The client sends a request on its link.
    Send(Label),
    /// The server process begins with the next request.
    Take(BackendNo),
    /// The server process has run its request.
    Finish(BackendNo),
    /// The client gets a ReadyForQuery.
    Ready(Label),
    /// The client gives its link back.
    Release(Label),
    /// The client closes its link.
    Close(Label),
    /// The client leaves.
    Leave(Label),
    /// Somebody sends these bytes.
    Put(Bytes),
    /// The bytes come to this node as a connection of their own.
    Deliver(FlightNo, NodeNo),
    /// The forwarded request comes to this node on its forward connection.
    Accept(FlightNo, NodeNo),
    /// The forward connection is ended without a byte.
    ForwardEnded(FlightNo),
    /// The node that forwarded learns of that end.
    ForwardTold(FlightNo),
    /// The node that forwarded learns that the forward connection broke.
    ForwardBroken(FlightNo),
    /// The server does what the cancel connection asks.
    Act(ConnectionNo),
    /// The server ends the cancel connection.
    End(ConnectionNo),
    /// The node learns of the clean end.
    Told(ConnectionNo),
    /// The node learns that the cancel connection broke.
    Broken(ConnectionNo),
    /// The node starts anew, with this boot, or else with one more than the greatest that it had.
    Restart(NodeNo, Option<Boot>),
}

impl Event {
    /// Does nothing when it runs: says that its numbers are in the ranges of their types.
    pub(crate) fn in_range(&self)
        ensures { IsEvent self.now }
    {
        if let Event::Login(_, _, _, secret, _) = self {
            secret_in_range(*secret);
        }
    }
}
