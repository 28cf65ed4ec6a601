//! Ten thousand steps: rounds of forty, drawn by a generator. No step takes memory: all that is
//! asked for is there before the first one. `tools/refused_memory` refuses every allocation after it,
//! and compares: the replies are those of the rows, and the keys, which the rows leave open, have the
//! same hash.
use crate::node::desk::{Act, Desk, Made, Said};
use crate::node::{KEY, NOTHING, OTHER_KEY, run_later};
use node_core::{CloseReply, EndedReply, FailedReply, ReleaseReply, RestartReply, UpFailedReply};
use pg_ids::SlotNo;
use std::alloc::Global;
use std::test::Fail;

// The steps of a round, and what is made in it. Four clients, with keys of both kinds, share at
// most two links. Before and after it nobody is logged in, and no link is open. Numbers are those
// of a first round.
#[derive(Clone, Copy)]
struct Round {
    rows: &'static [(Act, Said)],
    made: Made,
}

// Links that are opened, given back, condemned and closed.
const OPENING: Round = Round {
    rows: &[
        (Act::Enter(1), Said::Entered),
        (Act::EnterLong(5), Said::EnteredLong(0, 0)),
        (Act::Enter(6), Said::Entered),
        (Act::EnterLong(7), Said::EnteredLong(0, 1)),
        (Act::Join(8), Said::Refused(30)),
        (Act::Acquire(0), Said::Open(0)),
        (Act::Acquire(0), Said::Refused(35)),
        (Act::Up(0, 70, KEY), Said::Link(0)),
        (Act::Acquire(1), Said::Open(1)),
        (Act::UpFailed(1), Said::UpFailed(UpFailedReply::Freed)),
        (Act::Acquire(1), Said::Open(2)),
        (Act::Up(2, 71, OTHER_KEY), Said::Link(1)),
        (Act::Acquire(2), Said::Waiting),
        (Act::Acquire(3), Said::Waiting),
        (Act::Leave(0), Said::Refused(35)),
        (Act::CancelOf(0), Said::Serve(0, KEY)),
        (Act::CancelOf(1), Said::Serve(1, OTHER_KEY)),
        (Act::Cancel([0, 8, 0, 0, 0, 0, 0, 0x0b]), Said::Refused(61)),
        (Act::Failed(1), Said::Failed(FailedReply::Condemned)),
        (Act::Release(1), Said::Release(ReleaseReply::Closed(71))),
        (Act::Release(0), Said::Release(ReleaseReply::Quarantined)),
        (Act::Acquire(3), Said::Waiting),
        (Act::Acquire(2), Said::Open(3)),
        (Act::UpFailed(3), Said::UpFailed(UpFailedReply::Freed)),
        (Act::Ended(0), Said::Ended(EndedReply::Freed)),
        (Act::Acquire(3), Said::Link(0)),
        (Act::Leave(2), Said::Left),
        (Act::Release(2), Said::Release(ReleaseReply::Idle)),
        (Act::Acquire(0), Said::Link(0)),
        (Act::CancelOf(0), Said::Serve(2, KEY)),
        (Act::CancelOf(0), Said::Serve(3, KEY)),
        (Act::Ended(2), Said::Ended(EndedReply::Counted)),
        (Act::Release(3), Said::Release(ReleaseReply::Quarantined)),
        (Act::Failed(3), Said::Failed(FailedReply::Closed(70))),
        (Act::Ended(0), Said::Ended(EndedReply::Stale)),
        (Act::Release(0), Said::Release(ReleaseReply::Stale(70))),
        (Act::Acquire(3), Said::Open(4)),
        (Act::Up(4, 72, KEY), Said::Link(2)),
        (Act::Close(4), Said::Close(CloseReply::Closed(72))),
        (Act::Restart(1), Said::Restart(RestartReply::Restarted)),
    ],
    made: Made {
        boots: 1,
        serials: 0,
        permits: 5,
        links: 3,
        tickets: 4,
    },
};

// Clients whose wait is cancelled, and who leave.
const WAITING: Round = Round {
    rows: &[
        (Act::EnterLong(1), Said::EnteredLong(0, 0)),
        (Act::Enter(2), Said::Entered),
        (Act::EnterLong(3), Said::EnteredLong(0, 1)),
        (Act::Enter(4), Said::Entered),
        (Act::Acquire(0), Said::Open(0)),
        (Act::Up(0, 70, KEY), Said::Link(0)),
        (Act::Acquire(1), Said::Open(1)),
        (Act::Up(1, 71, OTHER_KEY), Said::Link(1)),
        (Act::Acquire(2), Said::Waiting),
        (Act::Acquire(3), Said::Waiting),
        (Act::CancelOf(2), Said::Unwaited),
        (Act::CancelOf(2), Said::Refused(63)),
        (Act::Acquire(2), Said::Cancelled),
        (Act::Acquire(2), Said::Waiting),
        (Act::Release(0), Said::Release(ReleaseReply::Idle)),
        (Act::Acquire(2), Said::Waiting),
        (Act::Acquire(3), Said::Link(0)),
        (Act::CancelOf(2), Said::Unwaited),
        (Act::Leave(2), Said::Left),
        (Act::Enter(9), Said::Entered),
        (Act::Acquire(4), Said::Waiting),
        (Act::CancelOf(4), Said::Unwaited),
        (Act::Acquire(4), Said::Cancelled),
        (Act::Acquire(4), Said::Waiting),
        (Act::Release(1), Said::Release(ReleaseReply::Idle)),
        (Act::Acquire(4), Said::Link(1)),
        (Act::CancelOf(4), Said::Serve(0, OTHER_KEY)),
        (Act::Ended(0), Said::Ended(EndedReply::Counted)),
        (Act::Close(3), Said::Close(CloseReply::Closed(71))),
        (Act::Close(2), Said::Close(CloseReply::Closed(70))),
        (Act::Leave(0), Said::Left),
        (Act::Leave(1), Said::Left),
        (Act::Leave(3), Said::Left),
        (Act::CancelOf(3), Said::Refused(61)),
        (Act::Acquire(4), Said::Open(2)),
        (Act::Leave(4), Said::Refused(35)),
        (Act::UpFailed(2), Said::UpFailed(UpFailedReply::Freed)),
        (Act::Leave(4), Said::Left),
        (Act::Leave(4), Said::Refused(32)),
        (Act::Acquire(0), Said::Refused(32)),
    ],
    made: Made {
        boots: 0,
        serials: 2,
        permits: 3,
        links: 2,
        tickets: 1,
    },
};

// Clients who take back what they gave back.
const TAKING_BACK: Round = Round {
    rows: &[
        (Act::Enter(1), Said::Entered),
        (Act::EnterLong(2), Said::EnteredLong(0, 0)),
        (Act::EnterLong(3), Said::EnteredLong(0, 1)),
        (Act::EnterLong(4), Said::EnteredLong(0, 2)),
        (Act::Acquire(0), Said::Open(0)),
        (Act::Up(0, 70, KEY), Said::Link(0)),
        (Act::Acquire(1), Said::Open(1)),
        (Act::Up(1, 71, OTHER_KEY), Said::Link(1)),
        (Act::Acquire(2), Said::Waiting),
        (Act::Acquire(3), Said::Waiting),
        (Act::CancelOf(1), Said::Serve(0, OTHER_KEY)),
        (Act::CancelOf(1), Said::Serve(1, OTHER_KEY)),
        (Act::Release(1), Said::Release(ReleaseReply::Quarantined)),
        (Act::Acquire(2), Said::Waiting),
        (Act::CancelOf(1), Said::Refused(63)),
        (Act::Acquire(1), Said::Link(1)),
        (Act::CancelOf(1), Said::Serve(2, OTHER_KEY)),
        (Act::Ended(0), Said::Ended(EndedReply::Counted)),
        (Act::Release(2), Said::Release(ReleaseReply::Quarantined)),
        (Act::Ended(1), Said::Ended(EndedReply::Counted)),
        (Act::Ended(2), Said::Ended(EndedReply::Freed)),
        (Act::Acquire(1), Said::Waiting),
        (Act::Acquire(3), Said::Waiting),
        (Act::Acquire(2), Said::Link(1)),
        (Act::CancelOf(0), Said::Serve(3, KEY)),
        (Act::Release(0), Said::Release(ReleaseReply::Quarantined)),
        (Act::Leave(0), Said::Left),
        (Act::Acquire(3), Said::Waiting),
        (Act::Ended(3), Said::Ended(EndedReply::Freed)),
        (Act::Acquire(3), Said::Link(0)),
        (Act::CancelOf(3), Said::Serve(4, KEY)),
        (Act::Release(4), Said::Release(ReleaseReply::Quarantined)),
        (Act::Acquire(3), Said::Link(0)),
        (Act::Failed(4), Said::Failed(FailedReply::Condemned)),
        (Act::Release(5), Said::Release(ReleaseReply::Closed(70))),
        (Act::Close(3), Said::Close(CloseReply::Closed(71))),
        (Act::Leave(1), Said::Left),
        (Act::Leave(2), Said::Left),
        (Act::Leave(3), Said::Left),
        (Act::Ended(4), Said::Ended(EndedReply::Stale)),
    ],
    made: Made {
        boots: 0,
        serials: 3,
        permits: 2,
        links: 2,
        tickets: 5,
    },
};

// A new start among clients who wait, whose wait was cancelled, and whose links are quarantined.
const STARTING_ANEW: Round = Round {
    rows: &[
        (Act::EnterLong(1), Said::EnteredLong(0, 0)),
        (Act::Enter(2), Said::Entered),
        (Act::EnterLong(3), Said::EnteredLong(0, 1)),
        (Act::Enter(4), Said::Entered),
        (Act::JoinLong(5), Said::Refused(30)),
        (Act::Acquire(0), Said::Open(0)),
        (Act::Up(0, 70, KEY), Said::Link(0)),
        (Act::Acquire(1), Said::Open(1)),
        (Act::Acquire(2), Said::Waiting),
        (Act::Acquire(3), Said::Waiting),
        (Act::Up(1, 71, OTHER_KEY), Said::Link(1)),
        (Act::CancelOf(0), Said::Serve(0, KEY)),
        (Act::CancelOf(1), Said::Serve(1, OTHER_KEY)),
        (Act::CancelOf(3), Said::Unwaited),
        (Act::Release(0), Said::Release(ReleaseReply::Quarantined)),
        (Act::Acquire(2), Said::Waiting),
        (Act::Failed(0), Said::Failed(FailedReply::Closed(70))),
        (Act::Acquire(0), Said::Waiting),
        (Act::Acquire(2), Said::Open(2)),
        (Act::Up(2, 72, KEY), Said::Link(2)),
        (Act::CancelOf(2), Said::Serve(2, KEY)),
        (Act::CancelOf(0), Said::Unwaited),
        (Act::Release(2), Said::Release(ReleaseReply::Quarantined)),
        (Act::Release(1), Said::Release(ReleaseReply::Quarantined)),
        (Act::Acquire(3), Said::Cancelled),
        (Act::Acquire(3), Said::Waiting),
        (Act::Restart(1), Said::Restart(RestartReply::Restarted)),
        (Act::Acquire(0), Said::Refused(32)),
        (Act::Acquire(2), Said::Refused(32)),
        (Act::Ended(1), Said::Ended(EndedReply::Stale)),
        (Act::Failed(2), Said::Failed(FailedReply::Stale)),
        (Act::EnterLong(1), Said::EnteredLong(1, 0)),
        (Act::CancelOf(0), Said::Refused(61)),
        (Act::CancelOf(4), Said::Refused(63)),
        (Act::Acquire(4), Said::Open(3)),
        (Act::Up(3, 73, OTHER_KEY), Said::Link(3)),
        (Act::CancelOf(4), Said::Serve(3, OTHER_KEY)),
        (Act::Close(3), Said::Close(CloseReply::Closed(73))),
        (Act::Failed(3), Said::Failed(FailedReply::Stale)),
        (Act::Restart(2), Said::Restart(RestartReply::Restarted)),
    ],
    made: Made {
        boots: 2,
        serials: 0,
        permits: 4,
        links: 4,
        tickets: 4,
    },
};

// The round of a number that was drawn.
fn round_of(drawn: u64) -> Round {
    match drawn % 4 {
        0 => OPENING,
        1 => WAITING,
        2 => TAKING_BACK,
        _ => STARTING_ANEW,
    }
}

// The number behind this one, by Knuth's linear congruential generator (MMIX).
fn next(number: u64) -> u64 {
    number
        .wrapping_mul(6_364_136_223_846_793_005)
        .wrapping_add(1_442_695_040_888_963_407)
}

fn four_clients(alloc: Global) -> Result<Desk, Fail> {
    Desk::new(alloc, 2, 2, 4)
}

#[test]
fn before_the_first_step(rt: HostRuntime) -> Result<(), Fail> {
    let desk = four_clients(rt.alloc())?;
    assert_eq!(rt; desk.next_slot(), Some(SlotNo(0)));
    Ok(())
}

#[test]
fn ten_thousand_steps(rt: HostRuntime) -> Result<(), Fail> {
    let mut desk = four_clients(rt.alloc())?;
    let mut made = NOTHING;
    let mut number = 1;
    for _ in 0..250 {
        number = next(number);
        let round = round_of(number >> 32);
        run_later(&rt, &mut desk, round.rows, &made)?;
        desk.forget();
        made = made.and(&round.made);
    }
    println!(rt; "the keys of ten thousand steps: {}", desk.keys())?;
    Ok(())
}
