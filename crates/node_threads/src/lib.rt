//! What the threads of a running node do: a session stays on a link, cancel requests are carried
//! and reported, secrets are drawn, connections are dealt.
#![tactic(auto)]

mod cancel;
mod connection;
mod desk;
mod gate;
mod node;
mod observer;
mod opener;
mod service;
mod session;

pub use admission::{Admission, Entrance};
pub use cancel::{
    CancelOpener, Counting, Destination, Seat, Seats, SingleUse, relay, report, serve_cancel,
};
pub use connection::serve_connection;
pub use desk::{Desk, DeskCall, ListDesk, LockDesk, RequestDesk, Requested};
pub use gate::{Gate, Open, Point};
pub use node::{
    Calling, ClientCensus, Front, LinkCensus, Node, NodePlace, PoolCensus, Secrets, restart,
};
pub use observer::{CancelOrder, NoObserver, Observer, SessionEnd};
pub use opener::{Listening, Opener, Sender};
pub use service::{Context, Service};
pub use session::{CONSOLE, serve_client, serve_console, turn};
pub use session_io::{Link, LoginRefusal, Opened, Stayed, open, stay};
