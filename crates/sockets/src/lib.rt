//! Connections of clients and to servers and peers: their streams, their limits and their ends.
#![tactic(auto)]

mod accept_threads;
mod cancel_end;
mod client_stream;
mod connecting;
mod connection;
mod connection_limit;
mod connections;
mod consoles;
mod deadline;
mod descriptors;
mod drain_signal;
mod dropped;
mod ending;
mod error_kind;
mod final_error;
mod host;
mod inspector;
mod keepalive;
mod limits;
mod link_stream;
mod origin;
mod poll;
mod resetting;
mod retries;
#[cfg(test)]
mod tests;
mod told_names;
mod unserved;

pub use accept_threads::AcceptThreads;
pub use cancel_end::CancelEnd;
pub use client_stream::{ClientStream, ConnectionContext, Serves};
pub use connecting::connect;
pub use connection::Connection;
pub use connection_limit::ConnectionLimit;
pub use connections::{Admission, Begun, Capacity, Connections, PendingId};
pub use consoles::Consoles;
pub use deadline::Deadline;
pub use descriptors::{Needs, descriptor_limit};
pub use drain_signal::DrainSignal;
pub use dropped::put_dropped;
pub use ending::end;
pub use host::{Host, Machine};
pub use inspector::Inspector;
pub use keepalive::keep_alive;
pub use link_stream::LinkStream;
pub use origin::Origin;
pub use poll::wait_readable;
pub use retries::Retries;
pub use told_names::ToldNames;
pub use unserved::{Unserved, UnservedEnd, refuse_accepted};
