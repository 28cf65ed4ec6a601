//! The links of one pooler to its servers: who has which, who waits for one, and which cancel
//! requests for them are still on their way.
#![tactic(auto)]

mod database_links;
mod entry;
mod next_number;
mod place;
mod place_room;
mod pool;
mod replies;

pub use next_number::NextNumber;
pub use place::{Claim, Link, LinkState, Place};
pub use place_room::PlaceRoom;
pub use pool::Pool;
pub use replies::{
    AcquireReply, CloseReply, EndedReply, FailedReply, LeaveReply, ReleaseReply, RestartReply,
    ServeReply, UpFailedReply, UpReply,
};
