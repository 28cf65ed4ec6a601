//! Queues of slots, first in first out. `first`, `push` and `remove` touch a few entries of two
//! arrays, however many slots wait; `clear` writes every entry. Only `new` allocates.
#![tactic(auto)]

mod slot_queues;

pub use slot_queues::SlotQueues;
