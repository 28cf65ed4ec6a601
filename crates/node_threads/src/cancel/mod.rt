//! Cancel requests: who may send one on at this moment, the order that the node gives for it, and
//! the report of its end.

mod connecting;
mod counting;
mod orders;
mod reports;
mod seats;

pub use connecting::{CancelOpener, SingleUse};
pub use counting::Counting;
pub use orders::serve_cancel;
pub(crate) use reports::report_unconnected;
pub use reports::{relay, report};
pub use seats::{Destination, Seat, Seats};
