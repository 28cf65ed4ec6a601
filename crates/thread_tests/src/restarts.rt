//! A node is started anew while one of its threads is held. What the thread has from before is
//! stale from then on, and a client that logs in afterwards is served meanwhile.
use crate::gates::Where;
use crate::messages::{
    CANCELS, CANCELS_IN_VAIN, OUTLIVES, OUTLIVES_IN_TRANSACTION, SERVED_AT_0, Script, WAITS,
};
use crate::owner::KEY;
use crate::scene::{Scene, Task, assert_played};
use locked_node::CallAnswer;
use node_threads::Point;
use std::test::Fail;

// The calls with a session that has a link, which is given back after the restart.
const CALLS_OF_SESSION: &[(CallAnswer, u128)] = &[
    (CallAnswer::Joined, 4),
    (CallAnswer::AcquireOpen, 3),
    (CallAnswer::WentUp, 3),
    (CallAnswer::Restarted, 1),
    (CallAnswer::ReleaseStale, 2),
    (CallAnswer::AcquireStale, 1),
    (CallAnswer::LeaveStale, 2),
    (CallAnswer::AcquireGot, 1),
    (CallAnswer::ReleasedIdle, 2),
    (CallAnswer::Left, 2),
];

// A session that has a link is held.
const fn session(script: Script, held_at: Where) -> Scene {
    Scene {
        task: Task::Session,
        script,
        held_at,
        links: 3,
        restarts: true,
        other: SERVED_AT_0,
        clients: 3,
        connections: 2,
        closed: 2,
        calls: CALLS_OF_SESSION,
    }
}

// The calls with a cancel request whose end is reported after the restart.
const CALLS_OF_ENDED: &[(CallAnswer, u128)] = &[
    (CallAnswer::Joined, 3),
    (CallAnswer::AcquireOpen, 2),
    (CallAnswer::WentUp, 2),
    (CallAnswer::Served, 1),
    (CallAnswer::Restarted, 1),
    (CallAnswer::EndedStale, 1),
    (CallAnswer::ReleaseStale, 1),
    (CallAnswer::LeaveStale, 1),
    (CallAnswer::AcquireGot, 1),
    (CallAnswer::ReleasedIdle, 2),
    (CallAnswer::Left, 2),
];

// The same where it failed.
const CALLS_OF_FAILED: &[(CallAnswer, u128)] = &[
    (CallAnswer::Joined, 3),
    (CallAnswer::AcquireOpen, 2),
    (CallAnswer::WentUp, 2),
    (CallAnswer::Served, 1),
    (CallAnswer::Restarted, 1),
    (CallAnswer::FailedStale, 1),
    (CallAnswer::ReleaseStale, 1),
    (CallAnswer::LeaveStale, 1),
    (CallAnswer::AcquireGot, 1),
    (CallAnswer::ReleasedIdle, 2),
    (CallAnswer::Left, 2),
];

// A cancel request for the owner's link is held.
const fn cancel(script: Script, held_at: Where, calls: &'static [(CallAnswer, u128)]) -> Scene {
    Scene {
        task: Task::Cancel(KEY),
        script,
        held_at,
        links: 2,
        restarts: true,
        other: SERVED_AT_0,
        clients: 3,
        connections: 2,
        closed: 2,
        calls,
    }
}

// A client waits for the only link.
const WAITING: Scene = Scene {
    task: Task::Session,
    script: WAITS,
    held_at: Where::Turn,
    links: 1,
    restarts: true,
    other: SERVED_AT_0,
    clients: 3,
    connections: 1,
    closed: 1,
    calls: &[
        (CallAnswer::Joined, 4),
        (CallAnswer::AcquireOpen, 2),
        (CallAnswer::WentUp, 2),
        (CallAnswer::AcquireWaiting, 1),
        (CallAnswer::Restarted, 1),
        (CallAnswer::AcquireStale, 1),
        (CallAnswer::ReleaseStale, 1),
        (CallAnswer::LeaveStale, 2),
        (CallAnswer::AcquireGot, 1),
        (CallAnswer::ReleasedIdle, 2),
        (CallAnswer::Left, 2),
    ],
};

// The request runs to its end, the link is closed, and the next request finds the node started
// anew. The session goes on over its link to the end of its transaction, which begins after the
// restart or, where it is held before its second request, has begun before.
#[test]
fn sessions(rt: HostRuntime) -> Result<(), Fail> {
    let scenes = [
        session(OUTLIVES, Where::Point(Point::Acquired)),
        session(OUTLIVES, Where::Point(Point::Ready)),
        session(OUTLIVES_IN_TRANSACTION, Where::Point(Point::Acquired)),
        session(OUTLIVES_IN_TRANSACTION, Where::Read(2)),
        WAITING,
    ];
    for scene in &scenes {
        assert_played(&rt, rt.alloc(), scene)?;
    }
    Ok(())
}

// The request is carried, and no link is touched that was opened after the restart.
#[test]
fn cancels(rt: HostRuntime) -> Result<(), Fail> {
    let scenes = [
        cancel(CANCELS, Where::Point(Point::Ordered), CALLS_OF_ENDED),
        cancel(CANCELS, Where::Point(Point::Carried), CALLS_OF_ENDED),
        cancel(
            CANCELS_IN_VAIN,
            Where::Point(Point::Carried),
            CALLS_OF_FAILED,
        ),
    ];
    for scene in &scenes {
        assert_played(&rt, rt.alloc(), scene)?;
    }
    Ok(())
}
