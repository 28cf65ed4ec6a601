//! Requests for another node that come at once, with one key, of which one finds no seat.
use crate::calls::calls_of;
use crate::heard::{Heard, HeardBy, Notice};
use crate::messages::LOWERED;
use crate::story::{NODE, SEED, calling, serve};
use crate::talk::Turn;
use crate::tracked::{Dialer, Talk, Tracker};
use locked_node::CallAnswer;
use node_threads::{Calling, Gate, Open, Point};
use pg_ids::Boot;
use std::alloc::Global;
use std::process::Abort;
use std::sync::atomic::{AtomicBool, AtomicU64, Ordering};
use std::sync::{Arc, Wait};
use std::test::Fail;
use std::thread;
use std::thread::Threads;
use std::time::Duration;

// How many requests with one key have a seat at most.
const SHARE: u64 = 32;

const FORWARDS: &[Turn] = &[Turn::Gives(b"\0\0\0\x10\x04\xd2\x16\x2e\0\x0c\0\0\0\0\0\x07")];

const PEER: &[Turn] = &[Turn::Takes(LOWERED)];

// A gate that holds all at `Ordered`, until as many are there as may have seats and a further
// request has come.
#[derive(Drop)]
struct Crowd<'a> {
    arrived: AtomicU64,
    may_go: AtomicU64,
    // Whether the observer of the one that finds no seat heard that, and nothing else.
    is_heard: AtomicBool,
    tracker: &'a Arc<Tracker, Global>,
}

impl Gate for Crowd<'_> {
    fn pass<R: Wait>(&self, rt: &R, point: Point) {
        if point == Point::Ordered {
            self.arrived.fetch_add(1, Ordering::SeqCst);
            self.arrived.wake_all();
            self.may_go.park_timeout(rt, 0, Duration::from_secs(20));
        }
    }
}

// What is heard of a request with a key of peer 3 that finds no seat.
const UNSERVED: &[Notice] = &[Notice::CancelAsked(3, 0), Notice::CancelUnserved];

// A request for peer 3 is served, with this gate.
fn forward<R: Wait, G: Gate>(
    rt: &R,
    alloc: Global,
    calling: &mut Calling<Talk>,
    tracker: &Arc<Tracker, Global>,
    gate: &G,
    heard: &Heard,
) {
    let dialer = Dialer {
        tracker,
        turns: PEER,
    };
    let opener = HeardBy {
        opener: &dialer,
        heard,
        is_gone: false,
    };
    if let Ok(mut client) = Talk::new(tracker, FORWARDS) {
        serve(rt, alloc, calling, &opener, gate, &mut client);
    }
}

impl Crowd<'_> {
    // Sends a request that is held.
    fn come_first<R: Wait>(&self, rt: &R, alloc: Global, calling: &mut Calling<Talk>) {
        let heard = Heard::new(alloc);
        forward(rt, alloc, calling, self.tracker, self, &heard);
    }

    // Waits until all are there, sends a further request, and lets all go.
    fn come_last<R: Wait>(&self, rt: &R, alloc: Global, calling: &mut Calling<Talk>) {
        for _i in 0..2_000u32 {
            let arrived = self.arrived.load(Ordering::SeqCst);
            if arrived >= SHARE {
                break;
            }
            let limit = Duration::from_millis(10);
            self.arrived
                .park_timeout(rt, (arrived % (1 << 32)) as u32, limit);
        }
        let heard = Heard::new(alloc);
        forward(rt, alloc, calling, self.tracker, &Open, &heard);
        self.is_heard.store(heard.is(UNSERVED), Ordering::SeqCst);
        self.may_go.store(1, Ordering::SeqCst);
        self.may_go.wake_all();
    }
}

// As many requests come at once as may have seats, and one more, in a thread each.
fn come<R: Threads + Wait + Sync>(
    rt: &R,
    alloc: Global,
    crowd: &Crowd<'_>,
    callings: &mut Vec<Calling<Talk>>,
) {
    let threads = callings.len().max(1);
    thread::for_each_mut(
        rt,
        callings.as_mut_slice(),
        threads,
        &|place, calling| {
            if place == 0 {
                crowd.come_last(rt, alloc, calling);
            } else {
                crowd.come_first(rt, alloc, calling);
            }
        },
    );
}

// The one that comes last gets no order, and all others do.
fn assert_one_is_closed(rt: &impl Abort, callings: &[Calling<Talk>]) {
    for (place, calling) in callings.iter().enumerate() {
        let forwarded = calls_of(calling.caller(), CallAnswer::Forwarded);
        assert_eq!(rt; forwarded, u128::from(place > 0), "{place}");
    }
}

// A caller for each.
fn callings(alloc: Global) -> Result<Vec<Calling<Talk>>, Fail> {
    let mut first = calling(alloc, NODE, SEED, Boot(9))?;
    let mut callings = Vec::new(alloc);
    for _i in 0..SHARE {
        callings.push(first.split().ok_or("no caller")?)?;
    }
    callings.push(first)?;
    Ok(callings)
}

fn assert_closed<R: Threads + Wait + Sync + Abort>(
    rt: &R,
    alloc: Global,
    crowd: &Crowd<'_>,
    mut callings: Vec<Calling<Talk>>,
) {
    come(rt, alloc, crowd, &mut callings);
    assert_one_is_closed(rt, callings.as_slice());
    // Its client was written nothing, no connection was made for it, and it was given up.
    let ends = crowd.tracker.ends();
    assert_eq!(rt; (ends.made, ends.done, ends.strayed), (65, 65, 0));
    assert_eq!(rt; ends.given_up, 1);
    assert!(rt; crowd.is_heard.load(Ordering::SeqCst));
}

#[test]
fn no_seat(rt: HostRuntime) -> Result<(), Fail> {
    let tracker = Tracker::new(rt.alloc())?;
    let crowd = Crowd {
        arrived: AtomicU64::new(0),
        may_go: AtomicU64::new(0),
        is_heard: AtomicBool::new(false),
        tracker: &tracker,
    };
    assert_closed(&rt, rt.alloc(), &crowd, callings(rt.alloc())?);
    Ok(())
}
