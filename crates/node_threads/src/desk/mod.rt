//! Where tickets and leases are handed in at the end, so that each call can be named in contracts.
ghost use Rattle.std.specs.Prelude.{◌≡◌};
ghost use Rattle.node_threads.specs.declared.desk.call.DeskCall.{DeskCall};
ghost use Rattle.node_threads.specs.declared.desk.call.DeskCall.TheVariants as call;

mod call;
mod list;
mod lock;
mod request;
mod session;

pub use call::DeskCall;
use lease::{Lease, Ticket};
pub use list::ListDesk;
pub use lock::LockDesk;
pub use request::{RequestDesk, Requested};
pub(crate) use session::SessionDesk;
use std::sync::Wait;

/// Where a cancel request's ticket is spent once it was carried, and a client's lease once its
/// request was answered. `S` is the stream of a lease.
pub trait Desk<S> {
    /// The desk can take a call.
    ghost ready: { Self → Type 0 };

    /// How this call changes a desk.
    ghost told: { Self → DeskCall → Self → Type 0 };

    /// What becomes of the stream of a lease that is handed in.
    ghost took: { Self → S → Self → Type 0 };

    /// The cancel request of this ticket has ended cleanly.
    fn ended<R: Wait>(&mut self, rt: &R, ticket: Ticket)
        requires ready { ready self.old }
        ensures told { told self.old (call.Ended ticket) self.new };

    /// The cancel request of this ticket hasn't ended cleanly.
    fn failed<R: Wait>(&mut self, rt: &R, ticket: Ticket)
        requires ready { ready self.old }
        ensures told { told self.old (call.Failed ticket) self.new };

    /// The client gives the link of this lease back. A stream that is handed back is closed.
    fn release<R: Wait>(&mut self, rt: &R, lease: Lease<S>)
        requires ready { ready self.old }
        ensures told { told self.old (call.Release lease.details) self.new }
        ensures took { took self.old lease.stream self.new };

    /// The client closes the link of this lease. A stream that is handed back is closed.
    fn close<R: Wait>(&mut self, rt: &R, lease: Lease<S>)
        requires ready { ready self.old }
        ensures told { told self.old (call.Close lease.details) self.new }
        ensures took { took self.old lease.stream self.new };
}
