//! Tests of a node, its settings and its lock by public calls alone, where a story isn't enough: many
//! steps, threads, callers that part, and refused memory.
#![tactic(auto)]

#[cfg(test)]
mod lock;
#[cfg(test)]
mod node;
#[cfg(test)]
mod settings;
