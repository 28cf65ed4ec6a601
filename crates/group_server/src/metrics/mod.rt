//! The metrics of a group, and the port at which they and the rows of sessions and links are read.
mod cache;
mod making;
mod page;
mod server;
mod state;

pub use making::Sources;
pub use page::page_of;
pub use server::{Exporter, keep_exporting};
pub use state::{Census, NodeState, PoolState, ProcessState};
