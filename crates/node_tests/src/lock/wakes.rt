//! Who is woken, told by how long a client waits for its turn: one that was called returns at once,
//! and one that wasn't sleeps for half a second.
ghost use Rattle.std.specs.Prelude.{◌≡◌, ◌<◌, length};
ghost use Rattle.std.specs.Thread.{IsSync};

use crate::lock::nodes::{Caller, Shared, alone, left};
use crate::lock::steps::{login, open, waits};
use node_core::{LeaveReply, Pass};
use pg_ids::{Boot, Kind, ServerKey};
use std::process::Abort;
use std::sync::Wait;
use std::test::Fail;
use std::thread::Threads;
use std::time::{Clock, Duration, Instant};
use std::{io, thread};

const SERVER: ServerKey = ServerKey([0, 0, 0, 1, 0, 0, 0, 2]);

// How long a client sleeps that isn't called, in milliseconds.
const SLEEP: u128 = 500;

// How long clients are left to fall asleep, in milliseconds.
const PAUSE: u64 = 50;

// How many milliseconds the client waits for its turn.
fn wait_of<R: Wait + Clock>(
    rt: &R,
    shared: &Shared,
    caller: &mut Caller,
    pass: &Pass,
) -> io::Result<u128>
    requires own { caller.old.lock ≡ shared.now }
    ensures same { caller.new ≡ caller.old }
{
    let start = Instant::now(rt)?;
    shared.wait_turn(rt, caller, pass);
    Ok(start.elapsed(rt)?.as_millis())
}

// A client that waits for a link.
fn waiting<R: Wait + Abort>(rt: &R, shared: &Shared, caller: &mut Caller, secret: u32) -> Pass
    requires own { caller.old.lock ≡ shared.now }
    requires database { 0 < length caller.old.start.view.pools }
    ensures { (caller.new.lock ≡ caller.old.lock) × (caller.new.start ≡ caller.old.start) }
{
    let pass = login(rt, shared, caller, secret, Kind::Short).expect(rt, "a slot");
    assert!(rt; waits(shared.acquire(rt, caller, &pass)));
    pass
}

// After a new start the only link is given back while another client waits for it.
#[test]
fn a_client_after_a_new_start(rt: HostRuntime) -> Result<(), Fail> {
    let (shared, mut caller) = Shared::new(rt.alloc(), alone(rt.alloc(), 1, 1, 2)?)?;
    shared.restart(&rt, &mut caller, Boot(10));
    let first = login(&rt, &shared, &mut caller, 1, Kind::Short).expect(&rt, "a slot");
    let lease = open(&rt, &shared, &mut caller, &first, 7, SERVER).expect(&rt, "a link");
    let second = waiting(&rt, &shared, &mut caller, 2);
    shared.release(&rt, &mut caller, lease);
    let time = wait_of(&rt, &shared, &mut caller, &second);
    first.forfeit();
    second.forfeit();
    assert!(rt; time? < SLEEP);
    Ok(())
}

// The first of two clients that wait is called, and leaves in place of asking.
#[test]
fn the_next_of_one_that_leaves(rt: HostRuntime) -> Result<(), Fail> {
    let (shared, mut caller) = Shared::new(rt.alloc(), alone(rt.alloc(), 1, 1, 3)?)?;
    let holder = login(&rt, &shared, &mut caller, 1, Kind::Short).expect(&rt, "a slot");
    let lease = open(&rt, &shared, &mut caller, &holder, 7, SERVER).expect(&rt, "a link");
    let first = waiting(&rt, &shared, &mut caller, 2);
    let second = waiting(&rt, &shared, &mut caller, 3);
    shared.release(&rt, &mut caller, lease);
    let reply = left(shared.leave(&rt, &mut caller, first));
    let time = wait_of(&rt, &shared, &mut caller, &second);
    holder.forfeit();
    second.forfeit();
    assert_eq!(rt; reply, LeaveReply::Left);
    assert!(rt; time? < SLEEP);
    Ok(())
}

// A client that slept for as long as it may, and is called then, doesn't sleep again.
#[test]
fn one_that_slept(rt: HostRuntime) -> Result<(), Fail> {
    let (shared, mut caller) = Shared::new(rt.alloc(), alone(rt.alloc(), 1, 1, 2)?)?;
    let first = login(&rt, &shared, &mut caller, 1, Kind::Short).expect(&rt, "a slot");
    let lease = open(&rt, &shared, &mut caller, &first, 7, SERVER).expect(&rt, "a link");
    let second = waiting(&rt, &shared, &mut caller, 2);
    shared.wait_turn(&rt, &mut caller, &second);
    shared.release(&rt, &mut caller, lease);
    let time = wait_of(&rt, &shared, &mut caller, &second);
    first.forfeit();
    second.forfeit();
    assert!(rt; time? < SLEEP);
    Ok(())
}

// How many milliseconds a client waits in a thread of its own. Where there is no clock it counts as
// one that wasn't called.
fn wait_alone<R: Wait + Clock>(rt: &R, shared: &Shared, mut caller: Caller, pass: &Pass) -> u128
    requires own { caller.lock ≡ shared.now }
{
    wait_of(rt, shared, &mut caller, pass).unwrap_or(SLEEP)
}

// The longer wait of two clients, each in a thread of its own.
fn longer_wait<R: Threads + Wait + Clock + Sync>(
    rt: &R,
    shared: &Shared,
    one: Caller,
    first: &Pass,
    other: Caller,
    second: &Pass,
) -> u128
    requires own { (one.lock ≡ shared.now) × (other.lock ≡ shared.now) }
{
    let (time, next) = thread::join(
        rt,
        || -> u128
            requires { one.lock ≡ shared.now }
        { wait_alone(rt, shared, one, first) },
        || -> u128
            requires { other.lock ≡ shared.now }
        { wait_alone(rt, shared, other, second) },
    );
    time.max(next)
}

// Starts the node anew once its clients sleep.
fn start_anew<R: Wait + Clock>(rt: &R, shared: &Shared, mut caller: Caller)
    requires own { caller.lock ≡ shared.now }
{
    thread::sleep(rt, Duration::from_millis(PAUSE));
    shared.restart(rt, &mut caller, Boot(10));
}

// The longer wait of two clients at a node that a third thread starts anew meanwhile.
fn longer_wait_of_stale<R: Threads + Wait + Clock + Sync>(
    rt: &R,
    shared: &Shared,
    mut caller: Caller,
    first: &Pass,
    second: &Pass,
) -> Option<u128>
    requires own { caller.lock ≡ shared.now }
{
    let one = caller.split(shared)?;
    let other = caller.split(shared)?;
    let (time, ()) = thread::join(
        rt,
        || -> u128
            requires { IsSync R.row × (one.lock ≡ shared.now) × (other.lock ≡ shared.now) }
        { longer_wait(rt, shared, one, first, other, second) },
        || -> ()
            requires { caller.lock ≡ shared.now }
        { start_anew(rt, shared, caller) },
    );
    Some(time)
}

// Two clients sleep, neither of them at its turn, and a new start wakes both.
#[test]
fn all_at_a_new_start(rt: HostRuntime) -> Result<(), Fail> {
    let (shared, mut caller) = Shared::new(rt.alloc(), alone(rt.alloc(), 1, 1, 3)?)?;
    let holder = login(&rt, &shared, &mut caller, 1, Kind::Short).expect(&rt, "a slot");
    let lease = open(&rt, &shared, &mut caller, &holder, 7, SERVER).expect(&rt, "a link");
    let first = waiting(&rt, &shared, &mut caller, 2);
    let second = waiting(&rt, &shared, &mut caller, 3);
    let time = longer_wait_of_stale(&rt, &shared, caller, &first, &second);
    let _stream = lease.forfeit();
    holder.forfeit();
    first.forfeit();
    second.forfeit();
    assert!(rt; time.ok_or("three callers")? < SLEEP - u128::from(PAUSE));
    Ok(())
}
