//! Several threads, each with a caller of its own.
ghost use Rattle.std.specs.Prelude.{◌≡◌, ◌<◌, length, IfSome};
ghost use Rattle.std.specs.Thread.{IsSync};

use crate::lock::nodes::{Caller, Journal, LOWERED, Shared, key, left, node, ordered, stray};
use locked_node::{CallAnswer, CallKind, Tally};
use node_core::{DatabaseNo, JoinRefusal, LeaveReply, Order, Pass, TicketRecord};
use pg_ids::{AnyKey, Kind, Secret};
use startup::Packet;
use std::process::Abort;
use std::sync::Wait;
use std::test::Fail;
use std::thread;
use std::thread::Threads;

// The replies that threads got: how many clients joined, found no slot and left, and how many
// requests were sent on, and refused since their peer is in no list.
#[derive(Clone, Copy, Drop)]
struct Replies {
    joined: u64,
    full: u64,
    left: u64,
    forwarded: u64,
    strayed: u64,
}

impl Replies {
    const fn none() -> Replies {
        Replies {
            joined: 0,
            full: 0,
            left: 0,
            forwarded: 0,
            strayed: 0,
        }
    }

    fn add(&mut self, other: Replies) {
        self.joined = self.joined.wrapping_add(other.joined);
        self.full = self.full.wrapping_add(other.full);
        self.left = self.left.wrapping_add(other.left);
        self.forwarded = self.forwarded.wrapping_add(other.forwarded);
        self.strayed = self.strayed.wrapping_add(other.strayed);
    }
}

// Four calls: a client joins, two cancel requests come, and the client leaves or, if it couldn't
// join, a third request comes.
fn round<R: Wait>(rt: &R, shared: &Shared, caller: &mut Caller, replies: &mut Replies)
    requires own { caller.old.lock ≡ shared.now }
    requires database { 0 < length caller.old.start.view.pools }
    ensures { (caller.new.lock ≡ caller.old.lock) × (caller.new.start ≡ caller.old.start) }
{
    let pass = shared.join(rt, caller, DatabaseNo(0), Secret(1), Kind::Short);
    request(rt, shared, caller, key(), replies);
    request(rt, shared, caller, stray(), replies);
    match pass {
        Ok(pass) => {
            replies.joined = replies.joined.wrapping_add(1);
            leave(rt, shared, caller, pass, replies);
        }
        Err(_) => {
            replies.full = replies.full.wrapping_add(1);
            request(rt, shared, caller, key(), replies);
        }
    }
}

fn request<R: Wait>(
    rt: &R,
    shared: &Shared,
    caller: &mut Caller,
    key: AnyKey,
    replies: &mut Replies,
)
    requires own { caller.old.lock ≡ shared.now }
    ensures { (caller.new.lock ≡ caller.old.lock) × (caller.new.start ≡ caller.old.start) }
{
    match ordered(shared.cancel(rt, caller, key)) {
        Order::Forward(_, _) => replies.forwarded = replies.forwarded.wrapping_add(1),
        Order::Refused(_) => replies.strayed = replies.strayed.wrapping_add(1),
        Order::Serve(_, _, _) | Order::Unwait(_) => {}
    }
}

fn leave<R: Wait>(rt: &R, shared: &Shared, caller: &mut Caller, pass: Pass, replies: &mut Replies)
    requires own { caller.old.lock ≡ shared.now }
    ensures { (caller.new.lock ≡ caller.old.lock) × (caller.new.start ≡ caller.old.start) }
{
    if left(shared.leave(rt, caller, pass)) == LeaveReply::Left {
        replies.left = replies.left.wrapping_add(1);
    }
}

// A thousand calls.
fn work<R: Wait>(rt: &R, shared: &Shared, mut caller: Caller) -> (Caller, Replies)
    requires own { caller.lock ≡ shared.now }
    requires database { 0 < length caller.start.view.pools }
    ensures { (result.0.lock ≡ caller.lock) × (result.0.start ≡ caller.start) }
{
    let mut replies = Replies::none();
    for _i in 0..250u32 {
        round(rt, shared, &mut caller, &mut replies);
    }
    (caller, replies)
}

// The callers of two threads are joined.
fn united(shared: &Shared, one: (Caller, Replies), other: (Caller, Replies)) -> (Caller, Replies)
    requires own { (one.0.lock ≡ shared.now) × (other.0.lock ≡ shared.now) }
    ensures { (result.0.lock ≡ one.0.lock) × (result.0.start ≡ one.0.start) }
{
    let (mut caller, mut replies) = one;
    let (second, more) = other;
    caller.join(shared, second);
    replies.add(more);
    (caller, replies)
}

// The callers of two threads.
#[derive(Drop)]
struct Two(Caller, Caller);

// In two threads, each with a caller of its own.
fn by_two<R: Threads + Wait + Sync>(rt: &R, shared: &Shared, callers: Two) -> (Caller, Replies)
    requires own { (callers.0.lock ≡ shared.now) × (callers.1.lock ≡ shared.now) }
    requires database { (0 < length callers.0.start.view.pools)
        × (0 < length callers.1.start.view.pools) }
    ensures { (result.0.lock ≡ callers.0.lock) × (result.0.start ≡ callers.0.start) }
{
    let Two(first, second) = callers;
    let (one, other) = thread::join(
        rt,
        || -> (Caller, Replies)
            requires { (first.lock ≡ shared.now) × (0 < length first.start.view.pools) }
            ensures { (result.0.lock ≡ first.lock) × (result.0.start ≡ first.start) }
        { work(rt, shared, first) },
        || -> (Caller, Replies)
            requires { (second.lock ≡ shared.now) × (0 < length second.start.view.pools) }
            ensures { result.0.lock ≡ second.lock }
        { work(rt, shared, second) },
    );
    united(shared, one, other)
}

// In four.
fn by_four<R: Threads + Wait + Sync>(
    rt: &R,
    shared: &Shared,
    front: Two,
    back: Two,
) -> (Caller, Replies)
    requires own { (front.0.lock ≡ shared.now) × (front.1.lock ≡ shared.now)
        × (back.0.lock ≡ shared.now) × (back.1.lock ≡ shared.now) }
    requires database { (0 < length front.0.start.view.pools)
        × (0 < length front.1.start.view.pools) × (0 < length back.0.start.view.pools)
        × (0 < length back.1.start.view.pools) }
    ensures { (result.0.lock ≡ front.0.lock) × (result.0.start ≡ front.0.start) }
{
    let (one, other) = thread::join(
        rt,
        || -> (Caller, Replies)
            requires { IsSync R.row × (front.0.lock ≡ shared.now) × (front.1.lock ≡ shared.now)
                × (0 < length front.0.start.view.pools) × (0 < length front.1.start.view.pools) }
            ensures { (result.0.lock ≡ front.0.lock) × (result.0.start ≡ front.0.start) }
        { by_two(rt, shared, front) },
        || -> (Caller, Replies)
            requires { IsSync R.row × (back.0.lock ≡ shared.now) × (back.1.lock ≡ shared.now)
                × (0 < length back.0.start.view.pools) × (0 < length back.1.start.view.pools) }
            ensures { result.0.lock ≡ back.0.lock }
        { by_two(rt, shared, back) },
    );
    united(shared, one, other)
}

// A caller with another, split from it.
fn pair(shared: &Shared, first: &mut Caller) -> Option<Two>
    requires own { first.old.lock ≡ shared.now }
    requires database { 0 < length first.old.start.view.pools }
    ensures first { (first.new.lock ≡ first.old.lock) × (first.new.start ≡ first.old.start) }
    ensures own { IfSome result (λ two. (two.0.lock ≡ shared.now) × (two.1.lock ≡ shared.now)) }
    ensures start { IfSome result
        (λ two. (two.0.start ≡ first.old.start) × (two.1.start ≡ first.old.start)) }
{
    let Some(one) = first.split(shared) else {
        return None;
    };
    let Some(other) = first.split(shared) else {
        return None;
    };
    Some(Two(one, other))
}

// The lock counted each answer as often as threads got it.
fn assert_replies(rt: &impl Abort, caller: &Caller, replies: &Replies) {
    for (answer, calls) in [
        (CallAnswer::Joined, replies.joined),
        (CallAnswer::JoinFull, replies.full),
        (CallAnswer::Left, replies.left),
        (CallAnswer::Forwarded, replies.forwarded),
        (CallAnswer::CancelNoPeer, replies.strayed),
    ] {
        assert_eq!(rt; caller.calls(CallKind::short(answer)), u128::from(calls));
    }
    assert_eq!(rt; (replies.joined, replies.strayed), (replies.left, 2000));
}

// The journal has eight thousand calls, and this tally of them.
fn assert_journal(rt: &impl Abort, journal: &Journal, tally: &Tally) {
    assert_eq!(rt; journal.calls(), 8000);
    assert_eq!(rt; journal.totals(), tally);
}

#[test]
fn eight_threads(rt: HostRuntime) -> Result<(), Fail> {
    let (shared, mut first) = Shared::new(rt.alloc(), node(rt.alloc(), 3)?)?;
    let one = pair(&shared, &mut first).ok_or("two callers")?;
    let two = pair(&shared, &mut first).ok_or("four callers")?;
    let three = pair(&shared, &mut first).ok_or("six callers")?;
    let last = first.split(&shared).ok_or("eight callers")?;
    let four = Two(first, last);
    let lock = &shared;
    let (front, back) = thread::join(
        &rt,
        || -> (Caller, Replies)
            requires { (four.0.lock ≡ lock.now) × (four.1.lock ≡ lock.now)
                × (one.0.lock ≡ lock.now) × (one.1.lock ≡ lock.now)
                × (0 < length four.0.start.view.pools) × (0 < length four.1.start.view.pools)
                × (0 < length one.0.start.view.pools) × (0 < length one.1.start.view.pools) }
            ensures { result.0.lock ≡ four.0.lock }
        { by_four(&rt, lock, four, one) },
        || -> (Caller, Replies)
            requires { (two.0.lock ≡ lock.now) × (two.1.lock ≡ lock.now)
                × (three.0.lock ≡ lock.now) × (three.1.lock ≡ lock.now)
                × (0 < length two.0.start.view.pools) × (0 < length two.1.start.view.pools)
                × (0 < length three.0.start.view.pools) × (0 < length three.1.start.view.pools) }
            ensures { result.0.lock ≡ two.0.lock }
        { by_four(&rt, lock, two, three) },
    );
    let (caller, replies) = united(&shared, front, back);
    assert_replies(&rt, &caller, &replies);
    let tally = *caller.tally();
    let journal = shared.into_journal(caller).ok_or("a lock that is free")?;
    assert_journal(&rt, &journal, &tally);
    Ok(())
}

// A client joins, and the caller comes back.
fn client<R: Wait>(
    rt: &R,
    shared: &Shared,
    mut caller: Caller,
) -> (Caller, Result<Pass, JoinRefusal>)
    requires own { caller.lock ≡ shared.now }
    requires database { 0 < length caller.start.view.pools }
    ensures { result.0.lock ≡ caller.lock }
{
    let pass = shared.join(rt, &mut caller, DatabaseNo(0), Secret(1), Kind::Short);
    (caller, pass)
}

// A cancel request comes, and the caller comes back.
fn canceller<R: Wait>(rt: &R, shared: &Shared, mut caller: Caller) -> (Caller, Order<TicketRecord>)
    requires own { caller.lock ≡ shared.now }
    ensures { result.0.lock ≡ caller.lock }
{
    let order = ordered(shared.cancel(rt, &mut caller, key()));
    (caller, order)
}

// A client joins in one thread and leaves again, and a cancel request comes in another.
fn by_both<R: Abort + Threads + Wait + Sync>(
    rt: &R,
    shared: &Shared,
    first: Caller,
    second: Caller,
) -> (Caller, Order<TicketRecord>)
    requires own { (first.lock ≡ shared.now) × (second.lock ≡ shared.now) }
    requires database { 0 < length first.start.view.pools }
    ensures { result.0.lock ≡ first.lock }
{
    let ((mut one, pass), (two, order)) = thread::join(
        rt,
        || -> (Caller, Result<Pass, JoinRefusal>)
            requires { (first.lock ≡ shared.now) × (0 < length first.start.view.pools) }
            ensures { result.0.lock ≡ first.lock }
        { client(rt, shared, first) },
        || -> (Caller, Order<TicketRecord>)
            requires { second.lock ≡ shared.now }
            ensures { result.0.lock ≡ second.lock }
        { canceller(rt, shared, second) },
    );
    one.join(shared, two);
    let pass = pass.expect(rt, "a slot");
    assert_eq!(rt; left(shared.leave(rt, &mut one, pass)), LeaveReply::Left);
    (one, order)
}

// To which peer a request was sent on, and what was sent.
fn sent_on(order: &Order<TicketRecord>) -> Option<(u16, Packet)> {
    match order {
        Order::Forward(peer, packet) => Some((peer.get(), *packet)),
        _ => None,
    }
}

#[test]
fn two_threads(rt: HostRuntime) -> Result<(), Fail> {
    let (shared, mut first) = Shared::new(rt.alloc(), node(rt.alloc(), 3)?)?;
    let second = first.split(&shared).ok_or("a second caller")?;
    let (caller, order) = by_both(&rt, &shared, first, second);
    assert_eq!(rt; sent_on(&order), Some((2, LOWERED)));
    assert_eq!(rt; shared.total_calls(caller), 3);
    Ok(())
}
