//! Clients wait at a semaphore before they ask their node for a link.
#![tactic(auto)]

mod admission;
mod semaphore;

pub use admission::{Admission, Entrance};
