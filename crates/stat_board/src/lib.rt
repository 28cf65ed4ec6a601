//! The counters of a node's cancel requests, which any number of threads raise and read without
//! waiting.
#![tactic(auto)]

mod board;
mod counter;
mod note;
mod refusal;
mod row;
mod seat;

pub use board::Board;
pub use counter::Counter;
pub use refusal::NoAllowance;
pub use seat::BoardSeat;
