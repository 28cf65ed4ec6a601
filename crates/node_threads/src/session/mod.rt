//! A client's session: its requests, the links that it gets for them, and the replies.

pub(crate) mod above;
mod admin;
mod admin_input;
mod admin_replies;
mod client;
mod leases;
mod turns;

pub use admin::{CONSOLE, serve_console};
pub use client::serve_client;
pub use turns::turn;
