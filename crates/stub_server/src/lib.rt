//! A stand-in PostgreSQL server for loopback: a few queries, among them one that runs until it is
//! interrupted.
#![tactic(auto)]

mod act;
mod backends;
mod connection;
mod conversation;
mod listening;
mod login;
mod messages;
mod query;
mod server;
mod session;
mod transaction;

pub use act::Act;
pub use connection::serve_connection;
pub use listening::serve;
pub use login::{key_of, login_text};
pub use server::{Mode, Server};
pub use session::Session;
pub use transaction::Transaction;
