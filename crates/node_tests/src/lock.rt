//! A node behind its lock, with one thread and with several: replies, counts and sums, which no
//! clause fixes.
mod answers;
mod nodes;
mod steps;
mod sums;
mod threads;
mod turns;
mod wakes;
