//! Clients that wait for links, each in a thread of its own: who is woken, and what a copy of the
//! node shows meanwhile.
ghost use Rattle.std.specs.Prelude.{◌≡◌, ◌<◌, length};
ghost use Rattle.std.specs.Thread.{IsSync};

use crate::lock::nodes::{Caller, Shared, Stream, alone};
use crate::lock::steps::{login, open};
use link_pool::Claim;
use locked_node::{CallAnswer, CallKind};
use node_core::{AcquireReply, DatabaseNo, Lease, Pass, UpReply, View};
use pg_ids::{Boot, Kind, Secret, ServerKey};
use std::alloc::Global;
use std::hint::spin_loop;
use std::sync::Wait;
use std::test::Fail;
use std::thread;
use std::thread::Threads;

const SERVER: ServerKey = ServerKey([0, 0, 0, 1, 0, 0, 0, 2]);

// The client keeps its link for a while, and gives it back.
fn give<R: Wait>(rt: &R, shared: &Shared, caller: &mut Caller, lease: Lease<Stream>)
    requires own { caller.old.lock ≡ shared.now }
    ensures { (caller.new.lock ≡ caller.old.lock) × (caller.new.start ≡ caller.old.start) }
{
    for _i in 0..1000u32 {
        spin_loop();
    }
    shared.release(rt, caller, lease);
}

// The client waits until it gets a link, which it gives back, or until its pass is stale.
fn use_link<R: Wait>(rt: &R, shared: &Shared, caller: &mut Caller, pass: &Pass)
    requires own { caller.old.lock ≡ shared.now }
    ensures { (caller.new.lock ≡ caller.old.lock) × (caller.new.start ≡ caller.old.start) }
{
    for _ in rt.forever() {
        match shared.acquire(rt, caller, pass) {
            AcquireReply::Waiting => shared.wait_turn(rt, caller, pass),
            AcquireReply::Got(lease) => {
                give(rt, shared, caller, lease);
                return;
            }
            AcquireReply::Open(permit) => {
                match shared.up(rt, caller, permit, Stream(1), SERVER) {
                    UpReply::Up(lease) => give(rt, shared, caller, lease),
                    UpReply::Exhausted(permit, _) => {
                        permit.forfeit();
                    }
                    UpReply::Stale(_) | UpReply::AtEnd(_) => {}
                }
                return;
            }
            AcquireReply::Cancelled
            | AcquireReply::Holding
            | AcquireReply::Exhausted
            | AcquireReply::Stale => return,
        }
    }
    unreachable!()
}

// A client joins and uses a link. It never leaves, so no other gets its slot.
fn session<R: Wait>(rt: &R, shared: &Shared, mut caller: Caller) -> Caller
    requires own { caller.lock ≡ shared.now }
    requires database { 0 < length caller.start.view.pools }
    ensures { (result.lock ≡ caller.lock) × (result.start ≡ caller.start) }
{
    if let Ok(pass) = shared.join(rt, &mut caller, DatabaseNo(0), Secret(1), Kind::Long) {
        use_link(rt, shared, &mut caller, &pass);
        pass.forfeit();
    }
    caller
}

// A client, and this many others, each in a thread of its own.
fn crowd<R: Threads + Wait + Sync>(
    rt: &R,
    shared: &Shared,
    mut caller: Caller,
    others: u32,
) -> Caller
    requires own { caller.lock ≡ shared.now }
    requires database { 0 < length caller.start.view.pools }
    ensures { (result.lock ≡ caller.lock) × (result.start ≡ caller.start) }
{
    if others == 0 {
        return session(rt, shared, caller);
    }
    let Some(other) = caller.split(shared) else {
        return caller;
    };
    let fewer = others - 1;
    let (mut one, two) = thread::join(
        rt,
        || -> Caller
            requires { IsSync R.row × (caller.lock ≡ shared.now)
                × (0 < length caller.start.view.pools) }
            ensures { (result.lock ≡ caller.lock) × (result.start ≡ caller.start) }
        { crowd(rt, shared, caller, fewer) },
        || -> Caller
            requires { (other.lock ≡ shared.now) × (0 < length other.start.view.pools) }
            ensures { result.lock ≡ other.lock }
        { session(rt, shared, other) },
    );
    one.join(shared, two);
    one
}

// Each of 128 clients gets one of eight links, and none is woken before its turn: who waits asks
// twice, and no more.
#[test]
fn one_is_woken_by_a_release(rt: HostRuntime) -> Result<(), Fail> {
    let (shared, first) = Shared::new(rt.alloc(), alone(rt.alloc(), 1, 8, 128)?)?;
    let caller = crowd(&rt, &shared, first, 127);
    let got = caller.calls(CallKind::long(CallAnswer::AcquireGot));
    let opened = caller.calls(CallKind::long(CallAnswer::AcquireOpen));
    let waited = caller.calls(CallKind::long(CallAnswer::AcquireWaiting));
    assert_eq!(rt; caller.calls(CallKind::long(CallAnswer::Joined)), 128);
    assert_eq!(rt; (got.wrapping_add(opened), opened <= 8), (128, true));
    assert!(rt; waited <= 120);
    Ok(())
}

// How many clients wait.
fn waiting(view: &View<Stream>) -> usize {
    let mut count = 0usize;
    for claim in view.claims() {
        if let Claim::Waiting(_) = claim {
            count = count.wrapping_add(1);
        }
    }
    count
}

// Starts the node anew once this many clients wait.
fn start_anew<R: Wait>(
    rt: &R,
    alloc: Global,
    shared: &Shared,
    mut caller: Caller,
    clients: usize,
) -> Caller
    requires own { caller.lock ≡ shared.now }
    ensures { (result.lock ≡ caller.lock) × (result.start ≡ caller.start) }
{
    for _ in rt.forever() {
        let Ok(view) = shared.copy_view(rt, alloc, &mut caller) else {
            return caller;
        };
        if waiting(&view) == clients {
            shared.restart(rt, &mut caller, Boot(10));
            return caller;
        }
    }
    unreachable!()
}

// While the only link is held, sixteen clients wait, and after a new start none waits again. How
// soon they are woken `wakes` tells.
#[test]
fn all_are_woken_by_a_new_start(rt: HostRuntime) -> Result<(), Fail> {
    let (shared, mut first) = Shared::new(rt.alloc(), alone(rt.alloc(), 1, 1, 17)?)?;
    let second = first.split(&shared).ok_or("a second caller")?;
    let pass = login(&rt, &shared, &mut first, 1, Kind::Short).expect(&rt, "a slot");
    let lease = open(&rt, &shared, &mut first, &pass, 7, SERVER).expect(&rt, "a link");
    let lock = &shared;
    let alloc = rt.alloc();
    let (mut caller, other) = thread::join(
        &rt,
        || -> Caller
            requires { (first.lock ≡ lock.now) × (0 < length first.start.view.pools) }
            ensures { result.lock ≡ first.lock }
        { crowd(&rt, lock, first, 15) },
        || -> Caller
            requires { second.lock ≡ lock.now }
            ensures { result.lock ≡ second.lock }
        { start_anew(&rt, alloc, lock, second, 16) },
    );
    caller.join(&shared, other);
    shared.release(&rt, &mut caller, lease);
    pass.forfeit();
    assert_eq!(rt; caller.calls(CallKind::long(CallAnswer::AcquireStale)), 16);
    assert_eq!(rt; caller.calls(CallKind::short(CallAnswer::ReleaseStale)), 1);
    assert_eq!(rt; caller.calls(CallKind::short(CallAnswer::Restarted)), 1);
    Ok(())
}
