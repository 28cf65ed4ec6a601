//! Metrics: the counters of a group, their text, and the requests by which they are read.
mod counters;
mod ends;
mod histogram;
mod meter;
mod request;
mod text;

pub use counters::{Counters, NodeCounters, Passed};
pub use ends::{END_KINDS, ENDS, Ends};
pub use histogram::{BOUNDS_MICROS, Histogram, Times, bucket_of, micros_of};
pub use meter::Meter;
pub use request::{Answer, Form, Resource, answer_to};
pub use text::{Kind as MetricKind, labels_with, put_head, put_line, put_sample};
