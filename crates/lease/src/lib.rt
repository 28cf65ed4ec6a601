//! What a node gives out: passes, permits, leases of links, tickets. None can be copied, and each
//! is spent once, by type: a path that drops one doesn't compile.
#![tactic(auto)]

mod link;
mod link_place;
mod link_record;
mod pass;
mod permit;
mod ticket;
mod token;

pub use link::{Held, Idle, IdleLink, Lease, Link, Quarantined, QuarantinedLink};
pub use link_place::LinkPlace;
pub use link_record::LinkRecord;
pub use pass::{Pass, PassRecord};
pub use permit::{Permit, PermitRecord};
pub use ticket::{Ticket, TicketRecord};
pub use token::Token;
