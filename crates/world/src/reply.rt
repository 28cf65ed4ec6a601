//! What an event brings about.
ghost use Rattle.std.specs.Prelude.{◌≢◌, ◌↔◌, IsTrue};
ghost use Rattle.world.specs.declared.reply.Reply.TheVariants as reply;

use crate::numbers::{ArrivalNo, BackendNo, ConnectionNo, FlightNo, Label};
use node_core::{CancelRefusal, JoinRefusal};
use pg_ids::AnyKey;

/// The reply of an event that took place.
#[derive(Clone, Copy, Debug, PartialEq, Eq)]
pub enum Reply {
    /// The client has this cancel key.
    Key(AnyKey),
    /// The client gets no slot.
    JoinRefused(JoinRefusal),
    /// The client has the link of this server process: an idle one, or that which it gave back.
    Got(BackendNo),
    /// The client may open a link.
    Open,
    /// The client waits.
    Waiting,
    /// The client's wait was cancelled.
    Cancelled,
    /// The client has the new link of this server process.
    Lease(BackendNo),
    /// A place or a link is free.
    Freed,
    /// The link is free for others.
    Idle,
    /// The link waits for cancel requests.
    Quarantined,
    /// The link is closed.
    Closed,
    /// The client has left.
    Left,
    /// The bytes are in flight.
    Flight(FlightNo),
    /// The request goes to a server, on this cancel connection.
    Serve(ArrivalNo, ConnectionNo),
    /// The request goes on to another node, as this flight.
    Forward(ArrivalNo, FlightNo),
    /// The request goes nowhere: it ended the wait of the key's client.
    Unwait(ArrivalNo),
    /// The request goes nowhere.
    CancelRefused(ArrivalNo, CancelRefusal),
    /// The bytes are no CancelRequest.
    NoCancel,
    /// This server process was interrupted while it ran a request of this client.
    Struck(BackendNo, Label),
    /// Nothing was interrupted.
    Nothing,
    /// One ticket less is open.
    Counted,
    /// The link is closed once it is given back.
    Condemned,
    /// The value that was handed in is of an earlier incarnation, or its link is gone.
    Stale,
    /// No number is left for the step.
    Exhausted,
    /// It took place.
    Done,
}

/// What an event did.
#[derive(Clone, Copy, Debug, PartialEq, Eq)]
pub enum Took {
    /// It took place.
    Done(Reply),
    /// It couldn't take place, so nothing changed.
    Skipped,
}

impl Reply {
    /// Whether it isn't that bytes are no CancelRequest.
    pub(crate) fn is_request(&self) -> bool
        ensures { IsTrue result ↔ (self.now ≢ reply.NoCancel) }
    {
        !matches!(self, Reply::NoCancel)
    }
}
