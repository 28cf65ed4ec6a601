//! The calls of a node that were counted.
use locked_node::{ANSWERS, CallAnswer as Answer, CallKind, Caller};
use std::alloc::{AllocError, Global};

// A node's answers to calls.
const ALL: [Answer; ANSWERS] = [
    Answer::AcquireGot,
    Answer::ReleasedIdle,
    Answer::Joined,
    Answer::JoinFull,
    Answer::JoinExhausted,
    Answer::Left,
    Answer::LeaveHolding,
    Answer::LeaveStale,
    Answer::LeaveExhausted,
    Answer::AcquireOpen,
    Answer::AcquireWaiting,
    Answer::AcquireCancelled,
    Answer::AcquireHolding,
    Answer::AcquireStale,
    Answer::AcquireExhausted,
    Answer::WentUp,
    Answer::UpExhausted,
    Answer::UpStale,
    Answer::UpAtEnd,
    Answer::UpFailedFreed,
    Answer::UpFailedStale,
    Answer::UpFailedExhausted,
    Answer::ReleasedQuarantined,
    Answer::ReleasedClosed,
    Answer::ReleaseStale,
    Answer::ReleaseExhausted,
    Answer::Closed,
    Answer::CloseStale,
    Answer::CloseExhausted,
    Answer::Served,
    Answer::Forwarded,
    Answer::Unwaited,
    Answer::CancelSpent,
    Answer::CancelUnknown,
    Answer::CancelNoPeer,
    Answer::CancelNoLink,
    Answer::CancelBusy,
    Answer::CancelExhausted,
    Answer::EndedFreed,
    Answer::EndedCounted,
    Answer::EndedStale,
    Answer::EndedExhausted,
    Answer::FailedCondemned,
    Answer::FailedClosed,
    Answer::FailedStale,
    Answer::FailedExhausted,
    Answer::Restarted,
    Answer::RestartExhausted,
];

// How often each answer was counted, if it was.
pub(crate) fn counted<S: Drop>(
    alloc: Global,
    whose: &str,
    caller: &Caller<S>,
) -> Result<String, AllocError> {
    let mut line = format!(in alloc; "calls of {whose}:")?;
    for answer in ALL {
        let count = count_of(caller, answer);
        if count > 0 {
            write!(line, " {answer:?} {count}")?;
        }
    }
    Ok(line)
}

// With keys of either length.
fn count_of<S: Drop>(caller: &Caller<S>, answer: Answer) -> u128 {
    let short = caller.calls(CallKind::short(answer));
    short.wrapping_add(caller.calls(CallKind::long(answer)))
}
