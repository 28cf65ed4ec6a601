//! Tests of whole groups over TCP on this machine: nodes, a stand-in server, clients and cancel
//! requests, each connection in its own thread.
#![tactic(auto)]

#[cfg(test)]
mod caller;
#[cfg(test)]
mod cancel_lines;
#[cfg(test)]
mod cancels;
#[cfg(test)]
mod circle;
#[cfg(test)]
mod client;
#[cfg(test)]
mod commands;
#[cfg(test)]
mod condemned;
#[cfg(test)]
mod console_client;
#[cfg(test)]
mod counted;
#[cfg(test)]
mod databases;
#[cfg(test)]
mod drains;
#[cfg(test)]
mod files;
#[cfg(test)]
mod front;
#[cfg(test)]
mod gated;
#[cfg(test)]
mod group;
#[cfg(test)]
mod host;
#[cfg(test)]
mod link_lines;
#[cfg(test)]
mod log_lines;
#[cfg(test)]
mod long_keys;
#[cfg(test)]
mod messages;
#[cfg(test)]
mod metrics;
#[cfg(test)]
mod reported;
#[cfg(test)]
mod scripted;
#[cfg(test)]
mod settings;
#[cfg(test)]
mod too_long;
#[cfg(test)]
mod waiting;
