//! Tests of the lower crates by public calls alone. They have a crate of
//! their own, since a crate with tests is proved twice: without them and with them.
#![tactic(auto)]

#[cfg(test)]
mod boards;
#[cfg(test)]
mod checks;
#[cfg(test)]
mod clients;
#[cfg(test)]
mod errors;
#[cfg(test)]
mod forwards;
#[cfg(test)]
mod frames;
#[cfg(test)]
mod holds;
#[cfg(test)]
mod key_slots;
#[cfg(test)]
mod keys;
#[cfg(test)]
mod links;
#[cfg(test)]
mod logins;
#[cfg(test)]
mod openings;
#[cfg(test)]
mod queues;
#[cfg(test)]
mod routes;
#[cfg(test)]
mod stand_in;
#[cfg(test)]
mod wanted;
#[cfg(test)]
mod watches;
