//! Tests of what the threads of a node do, by public calls alone, and of threads that are held on
//! their way, while another thread serves a client of the same node or starts the node anew. They
//! have a crate of their own, since a crate with tests is proved twice: without them and with them.
#![tactic(auto)]

#[cfg(test)]
mod admissions;
#[cfg(test)]
mod calls;
#[cfg(test)]
mod cancels;
#[cfg(test)]
mod crowd;
#[cfg(test)]
mod gates;
#[cfg(test)]
mod heard;
#[cfg(test)]
mod held;
#[cfg(test)]
mod linked;
#[cfg(test)]
mod log;
#[cfg(test)]
mod login_refusals;
#[cfg(test)]
mod messages;
#[cfg(test)]
mod node;
#[cfg(test)]
mod observers;
#[cfg(test)]
mod observers_beside;
#[cfg(test)]
mod observers_of_links;
#[cfg(test)]
mod owner;
#[cfg(test)]
mod refused;
#[cfg(test)]
mod reports;
#[cfg(test)]
mod restarts;
#[cfg(test)]
mod scene;
#[cfg(test)]
mod scene_node;
#[cfg(test)]
mod seats;
#[cfg(test)]
mod shown;
#[cfg(test)]
mod story;
#[cfg(test)]
mod talk;
#[cfg(test)]
mod told;
#[cfg(test)]
mod tracked;
#[cfg(test)]
mod turns;
#[cfg(test)]
mod waits;
#[cfg(test)]
mod wire;
#[cfg(test)]
mod words;
