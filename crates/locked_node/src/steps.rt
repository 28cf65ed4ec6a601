//! The calls of the steps: what each hands in, and how it is made of a node.
mod cancels;
mod clients;
mod links;
mod restart;

pub use cancels::{Cancel, Ended, Failed};
pub use clients::{Acquire, Join, Leave};
pub use links::{Close, Release, Up, UpFailed};
pub use restart::Restart;
