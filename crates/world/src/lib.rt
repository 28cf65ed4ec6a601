//! A group of nodes with their clients and servers, as a world of events: what each event does,
//! what is true of it, and that a cancel request interrupts nobody but the client who asked.
#![tactic(auto)]

mod backends;
mod event;
mod forwards;
mod index;
mod memory;
mod nodes;
mod numbers;
mod ranges;
mod reply;
mod request;
mod servers;
mod session;
mod starts;
mod state;
mod table;
mod world;

pub use event::{Bytes, Event};
pub use memory::Memory;
pub use numbers::{ArrivalNo, BackendNo, ConnectionNo, FlightNo, Label, NodeNo, ServerNo};
pub use reply::{Reply, Took};
pub use request::{Arrival, Connection, Forward, Interrupt, Issue, Report, Start, Taken};
pub use session::{Hand, Session};
pub use world::{World, run};
