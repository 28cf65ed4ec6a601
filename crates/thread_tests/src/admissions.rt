//! Clients that wait before they ask for a link.
ghost use Rattle.std.specs.Thread.{IsSync};

use ini_config::Settings;
use node_threads::{Admission, Entrance};
use pg_ids::{DatabaseNo, PeerNo, SlotNo};
use std::alloc::Global;
use std::process::Abort;
use std::sync::Wait;
use std::sync::atomic::{AtomicBool, AtomicU64, Ordering};
use std::test::Fail;
use std::thread;
use std::thread::Threads;
use std::time::{Clock, Duration};

// The only database.
const PLAIN: DatabaseNo = DatabaseNo(0);

// How often each thread comes and goes.
const TIMES: u32 = 1_000;

// The way in at a database with this many places.
fn admission(alloc: Global, places: u16) -> Result<Admission, Fail> {
    let me = PeerNo::new(2).ok_or("no such peer")?;
    let settings = Settings::plain(alloc, me, Vec::new(alloc), places.max(1), 4)?;
    Ok(Admission::new(alloc, &settings)?)
}

// The client leaves, as a session does.
fn leave<R: Wait>(rt: &R, entrance: &Entrance<'_>) {
    if !entrance.try_leave() {
        entrance.leave(rt);
    }
}

fn come_and_go<R: Wait>(rt: &R, entrance: &Entrance<'_>) {
    for _i in 0..TIMES {
        entrance.enter(rt);
        leave(rt, entrance);
    }
}

fn two_come_and_go<R: Threads + Wait + Sync>(rt: &R, one: &Entrance<'_>, other: &Entrance<'_>) {
    thread::join(
        rt,
        ||
            requires { IsSync R.row }
        { come_and_go(rt, one) },
        ||
            requires { IsSync R.row }
        { come_and_go(rt, other) },
    );
}

// The first two are let in at once, and the third by the timeout.
fn come_one_by_one<R: Wait + Abort>(rt: &R, admission: &Admission, entrances: &[Entrance<'_>]) {
    for (before, entrance) in entrances.iter().enumerate() {
        assert_eq!(rt; admission.used(PLAIN), before);
        assert_eq!(rt; entrance.enter(rt), before == 2);
    }
    assert_eq!(rt; admission.used(PLAIN), entrances.len());
    for entrance in entrances {
        leave(rt, entrance);
    }
    assert_eq!(rt; admission.used(PLAIN), 0);
}

#[test]
fn whoever_is_not_let_in_comes_in_by_the_timeout(rt: HostRuntime) -> Result<(), Fail> {
    let alloc = rt.alloc();
    let admission = admission(alloc, 2)?;
    let mut entrances = Vec::new(alloc);
    for slot in 0..3 {
        entrances.push(Entrance::new(&rt, alloc, &admission, SlotNo(slot), PLAIN)?)?;
    }
    come_one_by_one(&rt, &admission, entrances.as_slice());
    Ok(())
}

#[test]
fn nobody_is_left_inside(rt: HostRuntime) -> Result<(), Fail> {
    let alloc = rt.alloc();
    let admission = admission(alloc, 1)?;
    let one = Entrance::new(&rt, alloc, &admission, SlotNo(0), PLAIN)?;
    let other = Entrance::new(&rt, alloc, &admission, SlotNo(1), PLAIN)?;
    two_come_and_go(&rt, &one, &other);
    assert_eq!(rt; admission.used(PLAIN), 0);
    Ok(())
}

// After how many milliseconds a client comes in that isn't let in before.
const TIMEOUT: u64 = 200;

// How often each of eight clients comes under load.
const TURNS: u32 = 200;

// How many microseconds each is inside, so that others have to wait.
const INSIDE: u64 = 200;

// How many waits ended before the timeout, and how many didn't.
#[derive(Drop)]
struct Waits {
    // Whether clients wait in the node's queue now and then.
    with_queue: bool,
    early: AtomicU64,
    late: AtomicU64,
}

impl Waits {
    const fn new(with_queue: bool) -> Waits {
        Waits {
            with_queue,
            early: AtomicU64::new(0),
            late: AtomicU64::new(0),
        }
    }

    // Some of the waits ended early. Where nobody is let in, or told to ask, none does.
    fn assert_early(&self, rt: &impl Abort) {
        let early = self.early.load(Ordering::SeqCst);
        let late = self.late.load(Ordering::SeqCst);
        assert!(rt;
            early > 0 && early >= late / 3,
            "{early} early, {late} late"
        );
    }

    // A client comes in. If it had to wait, the wait is counted.
    fn enter<R: Wait + Clock>(&self, rt: &R, entrance: &Entrance<'_>) {
        let before = rt.monotonic().unwrap_or(Duration::ZERO);
        let has_waited = entrance.enter(rt);
        let after = rt.monotonic().unwrap_or(Duration::ZERO);
        if !has_waited {
            return;
        }
        if after.saturating_sub(before) < Duration::from_millis(TIMEOUT) {
            self.early.fetch_add(1, Ordering::SeqCst);
        } else {
            self.late.fetch_add(1, Ordering::SeqCst);
        }
    }
}

// Comes often. Of the first turns no wait is counted.
fn come_often<R: Wait + Clock>(rt: &R, entrances: &[Entrance<'_>], place: usize, waits: &Waits) {
    let Some(entrance) = entrances.get(place) else {
        return;
    };
    for turn in 0..TURNS {
        if turn < TURNS / 2 {
            entrance.enter(rt);
        } else {
            waits.enter(rt, entrance);
        }
        entrance.asked(rt, false);
        if waits.with_queue && turn % 8 == 0 {
            entrance.queue(rt);
            entrance.asked(rt, true);
            entrance.asked(rt, false);
        }
        thread::sleep(rt, Duration::from_micros(INSIDE));
        leave(rt, entrance);
    }
}

// Two come often, from this place on; four do; eight do.
fn by_two<R: Threads + Wait + Clock + Sync>(
    rt: &R,
    entrances: &[Entrance<'_>],
    place: usize,
    waits: &Waits,
) {
    let other = place.wrapping_add(1);
    thread::join(
        rt,
        ||
            requires { IsSync R.row }
        { come_often(rt, entrances, place, waits) },
        ||
            requires { IsSync R.row }
        { come_often(rt, entrances, other, waits) },
    );
}

fn by_four<R: Threads + Wait + Clock + Sync>(
    rt: &R,
    entrances: &[Entrance<'_>],
    place: usize,
    waits: &Waits,
) {
    let other = place.wrapping_add(2);
    thread::join(
        rt,
        ||
            requires { IsSync R.row }
        { by_two(rt, entrances, place, waits) },
        ||
            requires { IsSync R.row }
        { by_two(rt, entrances, other, waits) },
    );
}

fn by_eight<R: Threads + Wait + Clock + Sync>(rt: &R, entrances: &[Entrance<'_>], waits: &Waits) {
    thread::join(
        rt,
        ||
            requires { IsSync R.row }
        { by_four(rt, entrances, 0, waits) },
        ||
            requires { IsSync R.row }
        { by_four(rt, entrances, 4, waits) },
    );
}

// Eight clients come often to two places. Whoever waits is let in, and nobody is left inside: two
// clients come in at once in the end.
fn assert_let_in<R: Threads + Wait + Clock + Sync + Abort>(
    rt: &R,
    admission: &Admission,
    entrances: &[Entrance<'_>],
    with_queue: bool,
) {
    let waits = Waits::new(with_queue);
    by_eight(rt, entrances, &waits);
    waits.assert_early(rt);
    assert_eq!(rt; admission.used(PLAIN), 0);
    let two = entrances.split_at(entrances.len().min(2)).0;
    for entrance in two {
        assert!(rt; !entrance.enter(rt));
    }
    for entrance in two {
        leave(rt, entrance);
    }
}

#[test]
fn whoever_waits_is_let_in(rt: HostRuntime) -> Result<(), Fail> {
    let alloc = rt.alloc();
    let me = PeerNo::new(2).ok_or("no such peer")?;
    let settings = Settings::plain(alloc, me, Vec::new(alloc), 2, 8)?;
    let admission = Admission::new(alloc, &settings)?;
    let mut entrances = Vec::new(alloc);
    for slot in 0..8 {
        entrances.push(Entrance::new(&rt, alloc, &admission, SlotNo(slot), PLAIN)?)?;
    }
    assert_let_in(&rt, &admission, entrances.as_slice(), false);
    assert_let_in(&rt, &admission, entrances.as_slice(), true);
    Ok(())
}

// The client of slot 1 comes often, and always has to wait.
fn wait_often<R: Wait + Clock>(rt: &R, entrance: &Entrance<'_>, waits: &Waits, done: &AtomicBool) {
    for _i in 0..50u32 {
        waits.enter(rt, entrance);
        entrance.asked(rt, false);
        leave(rt, entrance);
    }
    done.store(true, Ordering::SeqCst);
}

// It is made to ask, until it is done.
fn tell_often<R: Wait>(rt: &R, admission: &Admission, done: &AtomicBool) {
    for _ in rt.forever() {
        if done.load(Ordering::SeqCst) {
            return;
        }
        admission.tell_to_ask(rt, SlotNo(1));
        thread::yield_now();
    }
    unreachable!()
}

fn wait_and_tell<R: Threads + Wait + Clock + Sync>(
    rt: &R,
    admission: &Admission,
    entrance: &Entrance<'_>,
    waits: &Waits,
) {
    let done = AtomicBool::new(false);
    thread::join(
        rt,
        ||
            requires { IsSync R.row }
        { wait_often(rt, entrance, waits, &done) },
        ||
            requires { IsSync R.row }
        { tell_often(rt, admission, &done) },
    );
}

// A client that is made to ask waits no longer.
#[test]
fn whoever_is_told_to_ask_asks(rt: HostRuntime) -> Result<(), Fail> {
    let alloc = rt.alloc();
    let admission = admission(alloc, 1)?;
    let keeper = Entrance::new(&rt, alloc, &admission, SlotNo(0), PLAIN)?;
    let entrance = Entrance::new(&rt, alloc, &admission, SlotNo(1), PLAIN)?;
    assert!(rt; !keeper.enter(&rt));
    let waits = Waits::new(false);
    wait_and_tell(&rt, &admission, &entrance, &waits);
    waits.assert_early(&rt);
    keeper.leave(&rt);
    assert_eq!(rt; admission.used(PLAIN), 0);
    Ok(())
}

// While a client waits in the node's queue nobody is let in at once. Others are when it asks again and
// needn't wait.
#[test]
fn whoever_waits_no_longer_lets_others_in(rt: HostRuntime) -> Result<(), Fail> {
    let alloc = rt.alloc();
    let admission = admission(alloc, 2)?;
    let opens = Entrance::new(&rt, alloc, &admission, SlotNo(0), PLAIN)?;
    let other = Entrance::new(&rt, alloc, &admission, SlotNo(1), PLAIN)?;
    assert!(rt; opens.try_enter());
    opens.queue(&rt);
    assert!(rt; !other.try_enter());
    opens.asked(&rt, true);
    assert!(rt; !other.try_enter());
    opens.asked(&rt, false);
    assert!(rt; other.try_enter());
    leave(&rt, &other);
    opens.queue(&rt);
    assert!(rt; !other.try_enter());
    leave(&rt, &opens);
    assert!(rt; other.try_enter());
    leave(&rt, &other);
    assert_eq!(rt; admission.used(PLAIN), 0);
    Ok(())
}

fn ask_after_a_while<R: Wait + Clock>(rt: &R, entrance: &Entrance<'_>) {
    pause(rt, 4);
    entrance.asked(rt, false);
}

// Counts a wait that ends long before the timeout.
fn enter_soon<R: Wait + Clock>(rt: &R, entrance: &Entrance<'_>, soon: &AtomicU64) {
    let before = rt.monotonic().unwrap_or(Duration::ZERO);
    entrance.enter(rt);
    let after = rt.monotonic().unwrap_or(Duration::MAX);
    if after.saturating_sub(before) < Duration::from_millis(TIMEOUT / 4) {
        soon.fetch_add(1, Ordering::SeqCst);
    }
}

fn wait_for_the_queue<R: Threads + Wait + Clock + Sync>(
    rt: &R,
    queued: &Entrance<'_>,
    other: &Entrance<'_>,
    soon: &AtomicU64,
) {
    thread::join(
        rt,
        ||
            requires { IsSync R.row }
        { ask_after_a_while(rt, queued) },
        ||
            requires { IsSync R.row }
        { enter_soon(rt, other, soon) },
    );
}

// A client that waits since another does in the node's queue is let in when that one needn't any more,
// and not by the timeout. A thread can be late, so this is tried ten times.
#[test]
fn whoever_waits_for_the_queue_is_let_in(rt: HostRuntime) -> Result<(), Fail> {
    let alloc = rt.alloc();
    let admission = admission(alloc, 2)?;
    let queued = Entrance::new(&rt, alloc, &admission, SlotNo(0), PLAIN)?;
    let other = Entrance::new(&rt, alloc, &admission, SlotNo(1), PLAIN)?;
    let soon = AtomicU64::new(0);
    for _i in 0..10u32 {
        assert!(rt; queued.try_enter());
        queued.queue(&rt);
        wait_for_the_queue(&rt, &queued, &other, &soon);
        leave(&rt, &other);
        leave(&rt, &queued);
        assert_eq!(rt; admission.used(PLAIN), 0);
    }
    assert!(rt; soon.load(Ordering::SeqCst) > 5);
    Ok(())
}

// Four clients at one place: one that is inside, one that waits for all that follows, one that is
// made to ask, leaves and comes again, and one that came before it did so.
#[derive(Clone, Copy)]
struct Line<'a> {
    admission: &'a Admission,
    keeper: &'a Entrance<'a>,
    first: &'a Entrance<'a>,
    again: &'a Entrance<'a>,
    between: &'a Entrance<'a>,
    // How many of the last two were let in, and how often the one that came again was the first.
    let_in: &'a AtomicU64,
    wrong: &'a AtomicU64,
}

// Time for others to come.
fn pause<R: Wait + Clock>(rt: &R, steps: u64) {
    thread::sleep(rt, Duration::from_millis(steps.saturating_mul(5)));
}

fn enter_and_leave<R: Wait>(rt: &R, entrance: &Entrance<'_>) {
    entrance.enter(rt);
    leave(rt, entrance);
}

// The client that came again.
fn come_again<R: Wait + Clock>(rt: &R, line: Line<'_>) {
    pause(rt, 1);
    enter_and_leave(rt, line.again);
    pause(rt, 2);
    line.again.enter(rt);
    if line.let_in.fetch_add(1, Ordering::SeqCst) == 0 {
        line.wrong.fetch_add(1, Ordering::SeqCst);
    }
    leave(rt, line.again);
}

fn come_between<R: Wait + Clock>(rt: &R, line: Line<'_>) {
    pause(rt, 3);
    line.between.enter(rt);
    line.let_in.fetch_add(1, Ordering::SeqCst);
    leave(rt, line.between);
}

// The client that is inside goes when all others wait.
fn tell_and_go<R: Wait + Clock>(rt: &R, line: Line<'_>) {
    pause(rt, 2);
    line.admission.tell_to_ask(rt, SlotNo(2));
    pause(rt, 4);
    leave(rt, line.keeper);
}

fn the_last_two<R: Threads + Wait + Clock + Sync>(rt: &R, line: Line<'_>) {
    thread::join(
        rt,
        ||
            requires { IsSync R.row }
        { come_again(rt, line) },
        ||
            requires { IsSync R.row }
        { come_between(rt, line) },
    );
}

fn the_first_two<R: Threads + Wait + Clock + Sync>(rt: &R, line: Line<'_>) {
    thread::join(
        rt,
        ||
            requires { IsSync R.row }
        { tell_and_go(rt, line) },
        ||
            requires { IsSync R.row }
        { enter_and_leave(rt, line.first) },
    );
}

fn all_four<R: Threads + Wait + Clock + Sync>(rt: &R, line: Line<'_>) {
    thread::join(
        rt,
        ||
            requires { IsSync R.row }
        { the_first_two(rt, line) },
        ||
            requires { IsSync R.row }
        { the_last_two(rt, line) },
    );
}

// Whoever comes again waits behind those that came before, also where its earlier wait ended early.
// A thread can be late, so this is tried ten times.
#[test]
fn whoever_comes_again_waits_again(rt: HostRuntime) -> Result<(), Fail> {
    let alloc = rt.alloc();
    let admission = admission(alloc, 1)?;
    let keeper = Entrance::new(&rt, alloc, &admission, SlotNo(0), PLAIN)?;
    let first = Entrance::new(&rt, alloc, &admission, SlotNo(1), PLAIN)?;
    let again = Entrance::new(&rt, alloc, &admission, SlotNo(2), PLAIN)?;
    let between = Entrance::new(&rt, alloc, &admission, SlotNo(3), PLAIN)?;
    let let_in = AtomicU64::new(0);
    let wrong = AtomicU64::new(0);
    let line = Line {
        admission: &admission,
        keeper: &keeper,
        first: &first,
        again: &again,
        between: &between,
        let_in: &let_in,
        wrong: &wrong,
    };
    for _i in 0..10u32 {
        let_in.store(0, Ordering::SeqCst);
        line.keeper.enter(&rt);
        all_four(&rt, line);
        assert_eq!(rt; admission.used(PLAIN), 0);
    }
    assert!(rt; wrong.load(Ordering::SeqCst) < 5);
    Ok(())
}
