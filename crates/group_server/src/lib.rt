//! A group of nodes on sockets: threads accept connections and serve them, one at a time each, and
//! connect to servers and peers.
#![tactic(auto)]

mod accepting;
mod dialer;
mod draining;
mod group;
mod limits;
mod metrics;
mod options;
mod rows;
mod serve_error;
mod serving;

pub use dialer::{ClientDialer, Dialer};
pub use group::{Listening, listen, say_listening, serve_group};
pub use metrics::{NodeState, PoolState, ProcessState, page_of};
pub use options::{ServeOptions, write_start};
pub use pg_frames::MessageLimit;
pub use serve_error::{ServeError, Unbound};
pub use serving::Serving;
