//! The calls that were counted.
use locked_node::{CallAnswer, CallKind, Caller};
use std::process::Abort;

// How many calls with this answer were counted.
pub(crate) fn calls_of<S: Drop>(caller: &Caller<S>, answer: CallAnswer) -> u128 {
    let short = caller.calls(CallKind::short(answer));
    short.wrapping_add(caller.calls(CallKind::long(answer)))
}

// This many calls with each of these answers were counted. Returns how many they are in all.
pub(crate) fn assert_calls<S: Drop>(
    rt: &impl Abort,
    caller: &Caller<S>,
    calls: &[(CallAnswer, u128)],
) -> u128 {
    let mut total = 0u128;
    for (answer, expected) in calls {
        let counted = calls_of(caller, *answer);
        assert_eq!(rt; counted, *expected, "{answer:?}");
        total = total.wrapping_add(counted);
    }
    total
}

// As many of each were made as were spent: passes, permits, leases and tickets.
#[track_caller]
pub(crate) fn assert_spent<S: Drop>(rt: &impl Abort, caller: &Caller<S>) {
    assert_even(rt, caller, &[CallAnswer::Joined], &[CallAnswer::Left]);
    assert_even(
        rt,
        caller,
        &[CallAnswer::AcquireOpen],
        &[CallAnswer::WentUp, CallAnswer::UpFailedFreed],
    );
    assert_even(
        rt,
        caller,
        &[CallAnswer::AcquireGot, CallAnswer::WentUp],
        &[
            CallAnswer::ReleasedIdle,
            CallAnswer::ReleasedQuarantined,
            CallAnswer::ReleasedClosed,
            CallAnswer::Closed,
        ],
    );
    assert_even(
        rt,
        caller,
        &[CallAnswer::Served],
        &[CallAnswer::EndedCounted, CallAnswer::FailedCondemned],
    );
}

#[track_caller]
fn assert_even<S: Drop>(
    rt: &impl Abort,
    caller: &Caller<S>,
    made: &[CallAnswer],
    spent: &[CallAnswer],
) {
    assert_eq!(rt; sum(caller, made), sum(caller, spent), "{made:?} {spent:?}");
}

fn sum<S: Drop>(caller: &Caller<S>, answers: &[CallAnswer]) -> u128 {
    let mut sum = 0u128;
    for answer in answers {
        sum = sum.wrapping_add(calls_of(caller, *answer));
    }
    sum
}
