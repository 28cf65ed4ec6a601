//! Cancel connections at a real node that get no order, over streams that log what happens to them.
use crate::heard::{Heard, HeardBy, Notice, assert_heard};
use crate::log::{Dialer, Event, Log, Marks, Reply, Wire, assert_logged};
use crate::node::{Asked, Node};
use cancel_router::RouteRefusal;
use node_core::{CancelRefusal, ReleaseReply};
use peer_forward::Verdict;
use pg_ids::AnyKey;
use std::alloc::Global;
use std::process::Abort;
use std::sync::Wait;
use std::test::Fail;

// The key of the second client.
const SECOND: [u8; 8] = [0, 8, 0, 4, 0, 0, 0, 0x17];

// A cancel connection with this key is served, and heard.
fn cancel_heard<R: Wait>(rt: &R, node: &mut Node, log: &Log, heard: &Heard, key: AnyKey) {
    let mut requester = Wire::new(log, 16, Reply::End);
    let dialer = Dialer {
        log,
        reply: Reply::End,
    };
    let opener = HeardBy {
        opener: &dialer,
        heard,
        is_gone: false,
    };
    node.cancel(rt, &opener, &Marks(log), &mut requester, key);
}

// A cancel connection with this key is served. Nothing is connected or written for it, its last
// byte is taken, and the observer hears this.
fn expect_nothing<R: Wait + Abort>(
    rt: &R,
    alloc: Global,
    node: &mut Node,
    asked: [u8; 8],
    notices: &[Notice],
) {
    let log = Log::new(alloc);
    let heard = Heard::new(alloc);
    cancel_heard(rt, node, &log, &heard, AnyKey::from_short_bytes(asked));
    assert_logged(rt, &log, &[Event::TakesSeen]);
    assert_heard(rt, &heard, notices);
}

// Requests that go nowhere: with spent hops, with another secret, for a pooler that isn't listed,
// and for a client without a link.
const REFUSED: &[([u8; 8], RouteRefusal)] = &[
    ([0, 8, 0, 0, 0, 0, 0, 4], RouteRefusal::Spent),
    ([0, 8, 0, 0, 0, 0, 0, 11], RouteRefusal::Unknown),
    ([0, 16, 0, 0, 0, 0, 0, 7], RouteRefusal::NoPeer),
    (SECOND, RouteRefusal::NoLink),
];

// What is heard of a request that ends a wait.
const UNWAITS: &[Notice] = &[
    Notice::CancelUnwaits,
    Notice::CancelEnded(Verdict::Unwaited),
];

fn expect_refused<R: Wait + Abort>(rt: &R, alloc: Global, node: &mut Node) {
    for (asked, reason) in REFUSED {
        let notices = [
            Notice::CancelRefused(CancelRefusal::Route(*reason)),
            Notice::CancelEnded(Verdict::Refused),
        ];
        expect_nothing(rt, alloc, node, *asked, &notices);
    }
}

// A request for a client that waits for a link ends its wait, and counts no word. Without allowance
// nothing is counted.
#[test]
fn refused(rt: HostRuntime) -> Result<(), Fail> {
    let mut node = Node::new(rt.alloc())?;
    let first = node.login(&rt, 1).expect(&rt, "a slot");
    let lease = node.open(&rt, &first, 7).expect(&rt, "a link");
    let second = node.login(&rt, 5).expect(&rt, "a slot");
    expect_refused(&rt, rt.alloc(), &mut node);
    assert_eq!(rt; node.ask(&rt, &second), Asked::Waiting);
    expect_nothing(&rt, rt.alloc(), &mut node, SECOND, UNWAITS);
    assert_eq!(rt; node.ask(&rt, &second), Asked::Cancelled);
    node.impoverish().expect(&rt, "parts of the seat");
    expect_refused(&rt, rt.alloc(), &mut node);
    let released = node.release(&rt, lease);
    assert_eq!(rt; released, ReleaseReply::Idle);
    assert!(rt; node.leave(&rt, first));
    assert!(rt; node.leave(&rt, second));
    assert_eq!(rt; node.words(), [1, 1, 1, 1, 0, 0, 0, 0]);
    Ok(())
}
