//! The numbers that poolers and clients name each other by, and the cancel key that joins them.
#![tactic(auto)]

mod any_key;
mod client_key;
mod hops;
mod long_part;
mod numbers;
mod peer_no;
mod secret;
mod server_key;

pub use any_key::{AnyKey, Identity, KeyBytes, Kind};
pub use client_key::ClientKey;
pub use hops::Hops;
pub use long_part::LongPart;
pub use numbers::{Boot, DatabaseNo, LinkNo, Serial, SlotNo};
pub use peer_no::PeerNo;
pub use secret::Secret;
pub use server_key::ServerKey;
