//! SCRAM-SHA-256 (RFC 5802, RFC 7677), as PostgreSQL speaks it: the client's side, which proves a
//! user's password, and the server's, which checks that proof. It does no input or output.
#![tactic(auto)]

mod bytes;
mod client;
mod client_error;
mod client_message;
mod encoding;
mod entry;
mod flag;
mod mac;
mod messages;
mod nonce;
mod number;
mod parts;
mod preparation;
mod salted;
mod server;
mod server_error;
mod server_message;
mod tables;
#[cfg(test)]
mod tests;
mod values;
mod verifier;

pub use client::{Challenge, ClientFirst, Expecting};
pub use client_error::ClientError;
pub use entry::{Entry, EntryError};
pub use flag::Gs2Flag;
pub use mac::{HmacKey, hi, hmac};
pub use number::MAX_ITERATIONS;
pub use preparation::prepare;
pub use salted::SaltedPassword;
pub use server::{Challenged, Proved, Received};
pub use server_error::ServerError;
pub use verifier::Verifier;
