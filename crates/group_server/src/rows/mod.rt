//! What each session and each link of a group does, as rows for people and programs.
mod clients;
mod links;
mod table;

pub use clients::{clients_of, put_clients};
pub use links::{links_of, put_links};
