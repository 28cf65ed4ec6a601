//! A call of a node with the reply that it got, as a journal keeps it.
use crate::refusal::{CancelRefusal, JoinRefusal};
use lease::{LinkRecord, PassRecord, PermitRecord, TicketRecord};
use link_pool::{
    AcquireReply, CloseReply, EndedReply, FailedReply, ReleaseReply, RestartReply, UpFailedReply,
    UpReply,
};
use pg_ids::{AnyKey, Boot, DatabaseNo, Kind, PeerNo, Secret, ServerKey, SlotNo};
use startup::Packet;

/// What leaving returns. `P` is the pass that is handed back: a `Pass`, or what it says.
#[derive(Clone, Copy, Debug, PartialEq, Eq)]
pub enum LeaveReply<P> {
    /// The slot is free again.
    Left,
    /// The client holds a link or a permit for one, so it stays.
    Holding(P),
    /// The pass is of another incarnation or another node, or isn't its slot's, so nothing changes.
    Stale,
    /// No number is left for a step, so nothing changes, and the pass is spent.
    Exhausted,
}

/// What a cancel request makes a node do. `T` is a `Ticket`, or what it says.
#[derive(Clone, Copy, Debug, PartialEq, Eq)]
pub enum Order<T> {
    /// Carry a CancelRequest with this key to the server of this database, and report its end by
    /// the ticket.
    Serve(T, DatabaseNo, ServerKey),
    /// Carry this CancelRequest to this peer. It is of the kind that came.
    Forward(PeerNo, Packet),
    /// Nothing: the client of this slot waited for a link. It waits no longer, and its next request
    /// for one returns `Cancelled`.
    Unwait(SlotNo),
    /// Nothing.
    Refused(CancelRefusal),
}

/// A call of a node, with the reply that it got. Of a value that was handed in or out it has what
/// that says.
#[derive(Clone, Copy, Debug, PartialEq, Eq)]
pub enum Exchange {
    /// A client of this database asked for a slot with this secret and a key of this kind.
    Join(DatabaseNo, Secret, Kind, Result<PassRecord, JoinRefusal>),
    /// The client of this pass left.
    Leave(PassRecord, LeaveReply<PassRecord>),
    /// The client of this pass asked for a link of its database.
    Acquire(PassRecord, AcquireReply<LinkRecord, PermitRecord>),
    /// A link was opened for this permit, and its server cancels by this key.
    Up(PermitRecord, ServerKey, UpReply<LinkRecord, PermitRecord, ()>),
    /// No link could be opened for this permit.
    UpFailed(PermitRecord, UpFailedReply),
    /// A client gave this link back.
    Release(LinkRecord, ReleaseReply<()>),
    /// A client closed this link.
    Close(LinkRecord, CloseReply<()>),
    /// A cancel request came with this key.
    Cancel(AnyKey, Order<TicketRecord>),
    /// The cancel request of this ticket ended cleanly.
    Ended(TicketRecord, EndedReply),
    /// The cancel request of this ticket didn't end cleanly.
    Failed(TicketRecord, FailedReply<()>),
    /// The node was started anew, with this boot.
    Restart(Boot, RestartReply),
}
