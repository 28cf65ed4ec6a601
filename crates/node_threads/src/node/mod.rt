//! A running node: what its threads share, who calls it, its secrets, and its restarts.

mod calling;
mod census;
mod front;
mod place;
mod restarts;
mod secrets;

pub use calling::{Calling, Node};
pub use census::{ClientCensus, LinkCensus, PoolCensus};
pub use front::Front;
pub use place::NodePlace;
pub use restarts::restart;
pub use secrets::Secrets;
