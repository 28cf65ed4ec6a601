//! What the numbers of a kind's calls sum up to.
use locked_node::{CallAnswer, CallKind, Tally, WIDEST};
use std::process::Abort;

// The numbers of the calls of this kind sum up to these, by position, and behind them there are
// none.
pub(crate) fn assert_sums(rt: &impl Abort, tally: &Tally, kind: &CallKind, wanted: &[u128]) {
    let sums = tally.sums(*kind);
    for place in 0..WIDEST {
        assert_eq!(rt;
            sums.get(place).copied().unwrap_or(0),
            wanted.get(place).copied().unwrap_or(0),
            "{kind:?}, number {place}"
        );
    }
}

// The same of the calls with each of these answers, and with short keys or none.
pub(crate) fn assert_short(rt: &impl Abort, tally: &Tally, wanted: &[(CallAnswer, &[u128])]) {
    for (answer, sums) in wanted {
        assert_sums(rt, tally, &CallKind::short(*answer), sums);
    }
}
