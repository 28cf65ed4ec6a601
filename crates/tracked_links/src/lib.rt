//! What a pooler does on a server connection whose parameters it tracks: a stream that hears what the server reports,
//! and a query that sets them, carried to the server.
#![tactic(auto)]

mod heard_status;
mod hearing;
mod set_error;
#[cfg(test)]
mod set_tests;
mod sets;
mod sink;
mod stream;
#[cfg(test)]
mod tests;

pub use set_error::SetError;
pub use sets::{SetEnd, set_link};
pub use stream::TrackedStream;
