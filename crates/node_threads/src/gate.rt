//! Points of a thread's way at which it may be held, by tests.
use std::sync::Wait;

/// A point of a thread's way. No lock is held there.
#[derive(Clone, Copy, Debug, PartialEq, Eq, Hash)]
pub enum Point {
    /// A session has a link for its request.
    Acquired,
    /// A session is about to give its link back, or to close it.
    Ready,
    /// A cancel request has its order, and isn't connected yet.
    Ordered,
    /// A cancel request was carried, which isn't reported yet.
    Carried,
}

/// What a thread passes at each point of its way.
pub trait Gate {
    /// Passes the point. It may wait there.
    fn pass<R: Wait>(&self, rt: &R, point: Point);
}

/// A gate at which nobody waits.
#[derive(Clone, Copy, Debug, PartialEq, Eq)]
pub struct Open;

impl Gate for Open {
    fn pass<R: Wait>(&self, _rt: &R, _point: Point) {}
}
