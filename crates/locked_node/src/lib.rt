//! A node behind its lock: the journal of its calls, and the callers that share it.
#![tactic(auto)]

mod call;
mod call_answer;
mod call_kind;
mod call_note;
mod caller;
mod calls;
mod counted_kind;
mod journal;
mod locked;
mod log;
mod numbers;
mod rule;
mod shared;
mod steps;
mod tally;
mod turn;
mod turns;

pub use call::Call;
pub use call_answer::{ANSWERS, CallAnswer};
pub use call_kind::{CallKind, KINDS};
pub use caller::Caller;
pub use journal::Journal;
pub use log::Entry;
pub use numbers::WIDEST;
pub use shared::Shared;
pub use steps::{
    Acquire, Cancel, Close, Ended, Failed, Join, Leave, Release, Restart, Up, UpFailed,
};
pub use tally::Tally;
