//! A packet is carried to a server or to another pooler, the end of the connection is awaited, and
//! whoever asked for it learns by one byte that it may not have been acted on.
#![tactic(auto)]

mod arrival;
mod calls;
mod carrying;
mod outcome;
mod requester;
mod verdict;
mod writing;

pub use arrival::{Arrival, Asks};
pub use calls::{ReadCalls, WriteCalls};
pub use carrying::carry;
pub use outcome::Outcome;
pub use requester::Requester;
pub use verdict::{Verdict, finish};
pub use writing::write_whole;
