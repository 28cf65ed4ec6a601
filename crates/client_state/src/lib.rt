//! What a pooler does with each frame of a client and of the link that the client holds.
#![tactic(auto)]

mod act;
mod client;
mod client_message;
mod link_message;
mod refusal;
mod reply;
mod request;

pub use act::{Act, HeadAct};
pub use client::Client;
pub use client_message::is_request;
pub use link_message::is_passed_on;
pub use pg_ids::DatabaseNo;
pub use refusal::Refusal;
pub use reply::Reply;
pub use request::Request;
