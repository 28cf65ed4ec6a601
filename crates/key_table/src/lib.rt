//! The slots of one pooler's logged-in clients: which are free, and what each live one's key has.
#![tactic(auto)]

mod entry;
mod key_table;
mod refusal;

pub use entry::Entry;
pub use key_table::KeyTable;
pub use refusal::Full;
