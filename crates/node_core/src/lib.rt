//! The state of one pooler and its eleven steps, each of which is made whole: joining and leaving
//! clients, the links that they hold or wait for, the orders that cancel requests give, and new
//! starts.
#![tactic(auto)]

mod client;
mod exchange;
mod node;
mod refusal;
mod view;
mod view_room;

pub use client::Client;
pub use exchange::{Exchange, LeaveReply, Order};
pub use lease::{
    Lease, LinkPlace, LinkRecord, Pass, PassRecord, Permit, PermitRecord, Ticket, TicketRecord,
};
pub use link_pool::{
    AcquireReply, CloseReply, EndedReply, FailedReply, ReleaseReply, RestartReply, UpFailedReply,
    UpReply,
};
pub use node::NodeCore;
pub use pg_ids::DatabaseNo;
pub use refusal::{CancelRefusal, JoinRefusal, StepRefusal};
pub use view::View;
pub use view_room::ViewRoom;
