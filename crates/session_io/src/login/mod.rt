//! Logins: a client's at this node, and this node's at a server.

mod first_packets;
mod place;
mod refusal;
mod refused;
mod server;

pub use first_packets::{Opened, open};
pub use refusal::refuse;
pub use refused::{LoginListener, LoginRefusal, NoListener};
pub use server::{LinkError, LoggedIn, log_in};
