//! Settings files of nodes, and groups of nodes that list each other as peers.
#![tactic(auto)]

mod draft;
mod entries;
mod entry;
mod fault;
mod faults;
mod keys;
mod node_group;
mod node_settings;
mod plain;
mod read;
mod section;
mod text;
mod values;
mod words;

pub use fault::{GroupError, IniCode, IniError};
pub use faults::{Faults, LineFault, Subject, WholeFault, all_faults};
pub use node_group::Group;
pub use node_settings::{Database, Peer, Settings};
pub use pg_ids::DatabaseNo;
pub use read::read_settings;
pub use text::{is_digits, number_in, trimmed, value_of};
