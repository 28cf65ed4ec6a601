//! The text of a world's schedule and of its outcome: reads scripts of nodes and events, and writes
//! what the events brought about.
#![tactic(auto)]

mod draft;
mod event_line;
mod fault;
mod node_line;
mod outcome;
mod peers;
mod reply_text;
mod script;
mod statement;
mod word;

pub use fault::{BAD_SCRIPT, BAD_SCRIPT_NAME, ScriptError};
pub use outcome::write_outcome;
pub use script::{Script, read_script};
