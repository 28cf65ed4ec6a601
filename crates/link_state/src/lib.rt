//! The login of a pooler at a server: what it sends, what it makes of each of the server's
//! messages, and when the link is up; and a watch over the parameters that a server reports.
#![tactic(auto)]

mod act;
mod difference;
mod error;
mod head;
mod incoming;
mod login;
mod message;
mod part;
mod server_errors;
mod stage;
mod value;
mod watch;
mod watched;
mod watched_list;

pub use act::{LinkAct, LoginHead};
pub use difference::Difference;
pub use error::LinkError;
pub use incoming::{HEAD, Incoming, Progress};
pub use login::LinkLogin;
pub use pg_ids::ServerKey;
pub use server_errors::first_error;
pub use watch::Watch;
