//! The admin console: what a node answers to a query about its peers, links, clients and cancel
//! requests.
#![tactic(auto)]

mod answer;
mod cancels;
mod clients;
mod columns;
mod frames;
mod links;
mod numbered_row;
mod peers;
mod query;

pub use answer::{rows, rows_without_view};
