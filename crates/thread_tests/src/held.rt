//! Threads that are held until a session at the same node was served: no lock is held at a gate,
//! and no connection waits for the end of another.
use crate::gates::Where;
use crate::messages::{CANCELS, CANCELS_BROKEN, FORWARDS, HELD, SERVED_AT_1, SERVED_AT_2};
use crate::owner::KEY;
use crate::scene::{Scene, Task, assert_played};
use locked_node::CallAnswer;
use node_threads::Point;
use std::test::Fail;

// A cancel of the owner's link is held at `Ordered` while another session of that node goes through
// a whole transaction.
const CANCEL: Scene = Scene {
    task: Task::Cancel(KEY),
    script: CANCELS,
    held_at: Where::Point(Point::Ordered),
    links: 2,
    restarts: false,
    other: SERVED_AT_1,
    clients: 2,
    connections: 2,
    closed: 1,
    calls: &[
        (CallAnswer::Joined, 2),
        (CallAnswer::AcquireOpen, 2),
        (CallAnswer::WentUp, 2),
        (CallAnswer::Served, 1),
        (CallAnswer::EndedCounted, 1),
        (CallAnswer::ReleasedIdle, 2),
        (CallAnswer::Left, 2),
    ],
};

// The same of a request that fails, since its connection can't be read. The owner's link is closed
// when it is given back: both its stream and that of the request are closed before the node is.
const BROKEN: Scene = Scene {
    task: Task::Cancel(KEY),
    script: CANCELS_BROKEN,
    held_at: Where::Point(Point::Carried),
    links: 2,
    restarts: false,
    other: SERVED_AT_1,
    clients: 2,
    connections: 2,
    closed: 2,
    calls: &[
        (CallAnswer::Joined, 2),
        (CallAnswer::AcquireOpen, 2),
        (CallAnswer::WentUp, 2),
        (CallAnswer::Served, 1),
        (CallAnswer::FailedCondemned, 1),
        (CallAnswer::ReleasedClosed, 1),
        (CallAnswer::ReleasedIdle, 1),
        (CallAnswer::Left, 2),
    ],
};

// As `CANCEL`, with a request for peer 3.
const FORWARD: Scene = Scene {
    task: Task::Cancel([0, 12, 0, 0, 0, 0, 0, 7]),
    script: FORWARDS,
    held_at: Where::Point(Point::Ordered),
    links: 2,
    restarts: false,
    other: SERVED_AT_1,
    clients: 2,
    connections: 2,
    closed: 1,
    calls: &[
        (CallAnswer::Joined, 2),
        (CallAnswer::AcquireOpen, 2),
        (CallAnswer::WentUp, 2),
        (CallAnswer::Forwarded, 1),
        (CallAnswer::ReleasedIdle, 2),
        (CallAnswer::Left, 2),
    ],
};

// A session waits at `Acquired` until another, on another link, has passed `Ready`.
const SESSION: Scene = Scene {
    task: Task::Session,
    script: HELD,
    held_at: Where::Point(Point::Acquired),
    links: 3,
    restarts: false,
    other: SERVED_AT_2,
    clients: 2,
    connections: 2,
    closed: 0,
    calls: &[
        (CallAnswer::Joined, 3),
        (CallAnswer::AcquireOpen, 3),
        (CallAnswer::WentUp, 3),
        (CallAnswer::ReleasedIdle, 3),
        (CallAnswer::Left, 3),
    ],
};

#[test]
fn held_until_a_session_was_served(rt: HostRuntime) -> Result<(), Fail> {
    for scene in &[CANCEL, BROKEN, FORWARD, SESSION] {
        assert_played(&rt, rt.alloc(), scene)?;
    }
    Ok(())
}
