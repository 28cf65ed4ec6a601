//! A client waits to be let in while another has the only link of their node.
ghost use Rattle.std.specs.Thread.{IsSync};

use crate::calls::calls_of;
use crate::gates::{Asking, Marks, sees};
use crate::heard::{Heard, HeardBy, Notice};
use crate::messages::{IDLE, LOGIN, QUERY, ROW, SERVES_ONE, STARTUP, TERMINATE, WELCOME, asks};
use crate::shown::{CONSOLE, SHOW_CLIENTS};
use crate::story::{SEED, TWO_SLOTS, calling, serve};
use crate::talk::Turn;
use crate::tracked::{Dialer, Talk, Tracker};
use crate::wire::Wire;
use locked_node::CallAnswer;
use node_threads::{Calling, Open};
use pg_ids::Boot;
use std::alloc::Global;
use std::io::{Read, Write};
use std::process::Abort;
use std::sync::atomic::{AtomicU64, Ordering};
use std::sync::{Arc, Wait};
use std::test::Fail;
use std::thread::Threads;
use std::time::{Clock, Duration};
use std::{io, thread};

// The keys of the first client and of the second, as in `keys`, the second at slot 1.
const FIRST: &[u8] = b"K\0\0\0\x0c\0\x08\0\x03\x45\xd6\xc9\x53";

const SECOND: &[u8] = b"K\0\0\0\x0c\0\x08\0\x04\x5f\x61\x95\x33";

const CANCEL: &[Turn] = &[Turn::Gives(b"\0\0\0\x10\x04\xd2\x16\x2e\0\x08\0\x04\x5f\x61\x95\x33")];

// A client that keeps the link for a while.
const KEEPS: &[Turn] = asks![Turn::Gives(STARTUP); Turn::Takes(FIRST)];

// One that waits meanwhile, and is cancelled or served.
const IS_CANCELLED: &[Turn] = &[
    Turn::Gives(STARTUP),
    Turn::Takes(WELCOME),
    Turn::Takes(SECOND),
    Turn::Takes(IDLE),
    Turn::Gives(QUERY),
    Turn::TakesError(b"SERROR\0VERROR\0C57014\0"),
    Turn::Takes(IDLE),
    Turn::Gives(TERMINATE),
];

const IS_SERVED: &[Turn] = asks![Turn::Gives(STARTUP); Turn::Takes(SECOND)];

// A client with any key.
const COMES: &[Turn] = &[
    Turn::Gives(STARTUP),
    Turn::TakesLength(103),
    Turn::Gives(QUERY),
    Turn::Takes(ROW),
    Turn::Takes(IDLE),
    Turn::Gives(TERMINATE),
];

// A server that serves two queries, and one that serves one. A byte stands behind the last answer
// of each, so that the link is closed.
const TWO: &[Turn] = &[
    Turn::Takes(STARTUP),
    Turn::Gives(LOGIN),
    Turn::Takes(QUERY),
    Turn::Gives(ROW),
    Turn::Gives(IDLE),
    Turn::Takes(QUERY),
    Turn::Gives(ROW),
    Turn::Gives(b"Z\0\0\0\x05IN"),
];

const ONE_AND_MORE: &[Turn] = &[
    Turn::Takes(STARTUP),
    Turn::Gives(LOGIN),
    Turn::Takes(QUERY),
    Turn::Gives(ROW),
    Turn::Gives(b"Z\0\0\0\x05IN"),
];

// What the threads share.
#[derive(Clone, Copy)]
struct Scene<'a> {
    alloc: Global,
    tracker: &'a Arc<Tracker, Global>,
    marks: &'a Marks,
    server: &'static [Turn],
    // The client that waits, what its observer hears after its waits, and whether it is cancelled.
    waits: &'static [Turn],
    heard: &'static [Notice],
    is_cancelled: bool,
    // How many waits it heard of.
    heard_waits: &'a AtomicU64,
}

impl Scene<'_> {
    fn dialer(&self, turns: &'static [Turn]) -> Dialer<'_> {
        Dialer {
            tracker: self.tracker,
            turns,
        }
    }

    // A client comes that takes these turns.
    fn visit<R: Wait>(&self, rt: &R, calling: &mut Calling<Talk>, turns: &'static [Turn]) {
        if let Ok(mut client) = Talk::new(self.tracker, turns) {
            let dialer = self.dialer(ONE_AND_MORE);
            serve(rt, self.alloc, calling, &dialer, &Open, &mut client);
        }
    }
}

// The client that keeps its link.
fn keep<R: Wait>(rt: &R, scene: Scene<'_>, mut calling: Calling<Talk>) -> Calling<Talk> {
    if let Ok(mut client) = Talk::new(scene.tracker, KEEPS) {
        let dialer = scene.dialer(scene.server);
        serve(
            rt,
            scene.alloc,
            &mut calling,
            &dialer,
            scene.marks,
            &mut client,
        );
    }
    calling
}

// The turns of a server that isn't there.
const NO_SERVER: &[Turn] = &[];

// A client is served whose links can't be opened, and heard.
fn serve_heard<R: Wait>(
    rt: &R,
    alloc: Global,
    calling: &mut Calling<Talk>,
    tracker: &Arc<Tracker, Global>,
    client: &mut Asking<'_>,
    heard: &Heard,
) {
    let dialer = Dialer {
        tracker,
        turns: NO_SERVER,
    };
    let opener = HeardBy {
        opener: &dialer,
        heard,
        is_gone: false,
    };
    serve(rt, alloc, calling, &opener, &Open, client);
}

// The client that waits.
fn wait<R: Wait>(rt: &R, scene: Scene<'_>, mut calling: Calling<Talk>) -> Calling<Talk> {
    let _has_link = sees(&scene.marks.has_link);
    if let Ok(talk) = Talk::new(scene.tracker, scene.waits) {
        let mut client = Asking::new(talk, scene.marks);
        let heard = Heard::new(scene.alloc);
        serve_heard(
            rt,
            scene.alloc,
            &mut calling,
            scene.tracker,
            &mut client,
            &heard,
        );
        if let Some(waits) = heard.waits(1, scene.heard) {
            scene.heard_waits.store(waits as u64, Ordering::SeqCst);
        }
    }
    calling
}

// Whether the node's console shows a client that waits for a link.
fn is_waiting<R: Wait>(rt: &R, scene: Scene<'_>, calling: &mut Calling<Talk>) -> bool {
    let pieces = [CONSOLE, SHOW_CLIENTS, TERMINATE];
    let Ok(mut client) = Wire::new(scene.alloc, &pieces) else {
        return false;
    };
    let dialer = scene.dialer(&[]);
    serve(rt, scene.alloc, calling, &dialer, &Open, &mut client);
    let shown = client.taken();
    for start in 0..shown.len() {
        if shown.split_at(start).1.starts_with(b"waiting") {
            return true;
        }
    }
    false
}

// Cancels the client that waits, or lets it wait until it is in the node's queue. Then the other
// may go.
fn look<R: Wait + Clock>(rt: &R, scene: Scene<'_>, mut calling: Calling<Talk>) -> Calling<Talk> {
    let _has_asked = sees(&scene.marks.has_asked);
    if scene.is_cancelled {
        for _i in 0..20u32 {
            thread::sleep(rt, Duration::from_millis(3));
            scene.visit(rt, &mut calling, CANCEL);
            if calls_of(calling.caller(), CallAnswer::Unwaited) > 0 {
                break;
            }
        }
    } else {
        for _i in 0..1_000u32 {
            thread::sleep(rt, Duration::from_millis(3));
            if is_waiting(rt, scene, &mut calling) {
                break;
            }
        }
    }
    scene.marks.may_go.store(true, Ordering::SeqCst);
    calling
}

// The client that waits and whoever looks at it, in two threads.
fn by_two<R: Threads + Wait + Clock + Sync>(
    rt: &R,
    scene: Scene<'_>,
    one: Calling<Talk>,
    other: Calling<Talk>,
) -> (Calling<Talk>, Calling<Talk>) {
    thread::join(
        rt,
        || -> Calling<Talk>
            requires { IsSync R.row }
        { wait(rt, scene, one) },
        || -> Calling<Talk>
            requires { IsSync R.row }
        { look(rt, scene, other) },
    )
}

// All three, whose callers are returned.
fn by_three<R: Threads + Wait + Clock + Sync + Abort>(
    rt: &R,
    scene: Scene<'_>,
    mut first: Calling<Talk>,
) -> (Calling<Talk>, Calling<Talk>, Calling<Talk>) {
    let Some(second) = first.split() else {
        panic!(rt; "no second caller");
    };
    let Some(third) = first.split() else {
        panic!(rt; "no third caller");
    };
    let (first, (second, third)) = thread::join(
        rt,
        || -> Calling<Talk>
            requires { IsSync R.row }
        { keep(rt, scene, first) },
        || -> (Calling<Talk>, Calling<Talk>)
            requires { IsSync R.row }
        { by_two(rt, scene, second, third) },
    );
    (first, second, third)
}

// All streams that were made are closed, took all their turns and nothing else.
#[track_caller]
fn assert_done(rt: &impl Abort, tracker: &Tracker) {
    let ends = tracker.ends();
    assert_eq!(rt;
        (ends.closed, ends.done, ends.strayed),
        (ends.made, ends.made, 0)
    );
}

// The client's observer heard that it waited before it asked, and then in the node's queue.
#[track_caller]
fn assert_two_waits(rt: &impl Abort, waits: &AtomicU64) {
    assert!(rt; waits.load(Ordering::SeqCst) >= 2);
}

// A client that waits is cancelled. Returns how many requests came before it waited.
fn cancel_one<R: Threads + Wait + Clock + Sync + Abort>(
    rt: &R,
    alloc: Global,
) -> Result<u128, Fail> {
    let tracker = Tracker::new(alloc)?;
    let marks = Marks::new();
    let heard_waits = AtomicU64::new(0);
    let scene = Scene {
        alloc,
        tracker: &tracker,
        marks: &marks,
        server: SERVES_ONE,
        waits: IS_CANCELLED,
        heard: &[Notice::SessionEnded(None, None)],
        is_cancelled: true,
        heard_waits: &heard_waits,
    };
    let first = calling(alloc, TWO_SLOTS, SEED, Boot(9))?;
    let early = cancelled_of(rt, scene, first);
    assert_done(rt, &tracker);
    assert_two_waits(rt, &heard_waits);
    Ok(early)
}

fn cancelled_of<R: Threads + Wait + Clock + Sync + Abort>(
    rt: &R,
    scene: Scene<'_>,
    first: Calling<Talk>,
) -> u128 {
    let (_first, second, third) = by_three(rt, scene, first);
    assert_eq!(rt; calls_of(second.caller(), CallAnswer::AcquireCancelled), 1);
    assert_eq!(rt; calls_of(third.caller(), CallAnswer::Unwaited), 1);
    calls_of(third.caller(), CallAnswer::CancelNoLink)
}

// Requests for a client that waits to be let in find it waiting. If it weren't told to ask, all
// twenty would find it without a link.
#[test]
fn waits_are_cancelled(rt: HostRuntime) -> Result<(), Fail> {
    let mut early = 0u128;
    for _i in 0..10u32 {
        early = early.wrapping_add(cancel_one(&rt, rt.alloc())?);
    }
    assert!(rt; early < 20, "{early}");
    Ok(())
}

// How long a client comes and goes.
fn visited_for<R: Wait + Clock>(rt: &R, scene: Scene<'_>, calling: &mut Calling<Talk>) -> Duration {
    let before = rt.monotonic().unwrap_or(Duration::ZERO);
    scene.visit(rt, calling, COMES);
    let after = rt.monotonic().unwrap_or(Duration::ZERO);
    after.saturating_sub(before)
}

// After a client has waited in the node's queue others are let in at once. Of a hundred that come,
// one after another, each would wait for 200 milliseconds otherwise.
fn come_later<R: Threads + Wait + Clock + Sync + Abort>(
    rt: &R,
    scene: Scene<'_>,
    first: Calling<Talk>,
) {
    let (mut first, second, _third) = by_three(rt, scene, first);
    assert!(rt; calls_of(second.caller(), CallAnswer::AcquireWaiting) > 0);
    let mut quick = 0u32;
    for _i in 0..100u32 {
        if visited_for(rt, scene, &mut first) < Duration::from_millis(20) {
            quick = quick.wrapping_add(1);
        }
    }
    assert!(rt; quick > 25, "{quick}");
}

#[test]
fn others_are_let_in_after_a_queue(rt: HostRuntime) -> Result<(), Fail> {
    let tracker = Tracker::new(rt.alloc())?;
    let marks = Marks::new();
    let heard_waits = AtomicU64::new(0);
    let scene = Scene {
        alloc: rt.alloc(),
        tracker: &tracker,
        marks: &marks,
        server: TWO,
        waits: IS_SERVED,
        heard: &[
            Notice::LinkGiven,
            Notice::LinkReturned,
            Notice::SessionEnded(None, None),
        ],
        is_cancelled: false,
        heard_waits: &heard_waits,
    };
    let first = calling(rt.alloc(), TWO_SLOTS, SEED, Boot(9))?;
    come_later(&rt, scene, first);
    assert_done(&rt, &tracker);
    assert_two_waits(&rt, &heard_waits);
    Ok(())
}
