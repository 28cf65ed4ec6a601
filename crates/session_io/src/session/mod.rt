//! A client's requests, and their replies from a link.

mod above;
pub(crate) mod channel;
pub(crate) mod link;
mod outcome;
mod place;
mod replies;
mod requests;
mod stays;

pub use above::length_above;
pub use link::Link;
pub use outcome::Stayed;
pub use replies::lost;
pub use requests::next_request;
pub use stays::stay;
