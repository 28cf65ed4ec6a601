//! What is counted of a node's calls.
use locked_node::{ANSWERS, CallAnswer, CallKind, Tally};
use std::alloc::{AllocError, Global};

// Each step with the name of its answer.
const ALL: [CallAnswer; ANSWERS] = [
    CallAnswer::AcquireGot,
    CallAnswer::ReleasedIdle,
    CallAnswer::Joined,
    CallAnswer::JoinFull,
    CallAnswer::JoinExhausted,
    CallAnswer::Left,
    CallAnswer::LeaveHolding,
    CallAnswer::LeaveStale,
    CallAnswer::LeaveExhausted,
    CallAnswer::AcquireOpen,
    CallAnswer::AcquireWaiting,
    CallAnswer::AcquireCancelled,
    CallAnswer::AcquireHolding,
    CallAnswer::AcquireStale,
    CallAnswer::AcquireExhausted,
    CallAnswer::WentUp,
    CallAnswer::UpExhausted,
    CallAnswer::UpStale,
    CallAnswer::UpAtEnd,
    CallAnswer::UpFailedFreed,
    CallAnswer::UpFailedStale,
    CallAnswer::UpFailedExhausted,
    CallAnswer::ReleasedQuarantined,
    CallAnswer::ReleasedClosed,
    CallAnswer::ReleaseStale,
    CallAnswer::ReleaseExhausted,
    CallAnswer::Closed,
    CallAnswer::CloseStale,
    CallAnswer::CloseExhausted,
    CallAnswer::Served,
    CallAnswer::Forwarded,
    CallAnswer::Unwaited,
    CallAnswer::CancelSpent,
    CallAnswer::CancelUnknown,
    CallAnswer::CancelNoPeer,
    CallAnswer::CancelNoLink,
    CallAnswer::CancelBusy,
    CallAnswer::CancelExhausted,
    CallAnswer::EndedFreed,
    CallAnswer::EndedCounted,
    CallAnswer::EndedStale,
    CallAnswer::EndedExhausted,
    CallAnswer::FailedCondemned,
    CallAnswer::FailedClosed,
    CallAnswer::FailedStale,
    CallAnswer::FailedExhausted,
    CallAnswer::Restarted,
    CallAnswer::RestartExhausted,
];

// How many calls there may be.
const MOST: u128 = 1 << 127;

/// How many calls there were, where so many are left, and a line for each kind of call.
pub(crate) fn counts(alloc: Global, left: u128, tally: &Tally) -> Result<String, AllocError> {
    let calls = MOST.wrapping_sub(left);
    let mut text = format!(in alloc; " -> {calls} calls")?;
    for answer in ALL {
        put_kind(CallKind::short(answer), "", tally, &mut text)?;
        put_kind(CallKind::long(answer), " long", tally, &mut text)?;
    }
    Ok(text)
}

// The calls of a kind, if there are any, and the sums of their numbers.
fn put_kind(kind: CallKind, key: &str, tally: &Tally, text: &mut String) -> Result<(), AllocError> {
    let calls = tally.calls(kind);
    if calls == 0 {
        return Ok(());
    }
    let answer = kind.answer;
    write!(text, "\n  {answer:?}{key} {calls}:")?;
    for sum in tally.sums(kind) {
        write!(text, " {sum}")?;
    }
    Ok(())
}
