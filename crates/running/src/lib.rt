//! The commands that run until the process is stopped.
#![tactic(auto)]

mod command;
mod loops;
mod serving;
mod shared;
mod standing_in;

pub use command::{execute, run};
