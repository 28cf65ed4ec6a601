//! What a running group says about itself: its log, and the counters and text of its metrics.
#![tactic(auto)]

mod board;
mod limits;
mod log;
mod metrics;
#[cfg(test)]
mod tests;

pub use board::{
    Board, ClientNames, ClientRow, ClientSight, ClientState, LinkRow, LinkSight, LinkState,
};
pub use log::{EVENTS, Event, Field, KINDS, Level, Log, Value, line_of, put_fields};
pub use metrics::{
    Answer, BOUNDS_MICROS, Counters, END_KINDS, ENDS, Ends, Form, Histogram, Meter, MetricKind,
    NodeCounters, Passed, Resource, Times, answer_to, bucket_of, labels_with, micros_of, put_head,
    put_line, put_sample,
};
