//! The program's answer to its arguments.
#![tactic(auto)]

mod answers;
mod causes;
mod check;
mod check_all;
mod coming;
mod decide;
mod decision;
mod entry_causes;
mod explained;
mod fault;
mod file_text;
mod group_causes;
mod hand_back;
mod held;
mod input;
mod notes;
mod opener;
mod outcome;
mod output;
mod seed;
mod steps;

pub use answers::{answer, usage_fault, write_fault};
pub use check::group_of;
pub use fault::{Fault, Reply};
pub use input::Input;
pub use opener::{Disk, Opener};
pub use output::Output;
pub use seed::seed_of;
