//! When a link that was asked to cancel may be used again: once each of its tickets has ended
//! cleanly, and never if one failed.
#![tactic(auto)]

mod hold;
mod refusal;

pub use hold::{Hold, HoldState, MAX_OPEN_TICKETS};
pub use refusal::Busy;
