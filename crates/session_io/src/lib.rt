//! A conversation with a client and with a server, over any streams: first packets, logins at
//! servers, requests and replies. It knows no lock, lease or pool.
#![tactic(auto)]

mod login;
mod session;
mod stream;

pub use login::{
    LinkError, LoggedIn, LoginListener, LoginRefusal, NoListener, Opened, log_in, open, refuse,
};
pub use session::{Link, Stayed, length_above, lost, next_request, stay};
pub use stream::read_some;
