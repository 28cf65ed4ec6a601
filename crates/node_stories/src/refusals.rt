//! The number and the text of each refusal of a node, its table, its links and its counters.
use cancel_router::RouteRefusal;
use key_table::Full;
use node_core::{CancelRefusal, JoinRefusal, StepRefusal};
use quarantine::Busy;
use stat_board::NoAllowance;
use std::alloc::{AllocError, Global};
use std::fmt::Display;

const STEPS: [StepRefusal; 3] = [
    StepRefusal::Stale,
    StepRefusal::Exhausted,
    StepRefusal::Holding,
];

const JOINS: [JoinRefusal; 2] = [JoinRefusal::Full, JoinRefusal::Exhausted];

const ROUTES: [RouteRefusal; 4] = [
    RouteRefusal::Spent,
    RouteRefusal::Unknown,
    RouteRefusal::NoPeer,
    RouteRefusal::NoLink,
];

const CANCELS: [CancelRefusal; 6] = [
    CancelRefusal::Route(RouteRefusal::Spent),
    CancelRefusal::Route(RouteRefusal::Unknown),
    CancelRefusal::Route(RouteRefusal::NoPeer),
    CancelRefusal::Route(RouteRefusal::NoLink),
    CancelRefusal::Busy,
    CancelRefusal::Exhausted,
];

/// All refusals.
pub(crate) fn refusals(alloc: Global) -> Result<String, AllocError> {
    let mut text = String::new(alloc);
    put(Full.number(), &Full, &mut text)?;
    put(Busy.number(), &Busy, &mut text)?;
    put(NoAllowance.number(), &NoAllowance, &mut text)?;
    for refusal in ROUTES {
        put(refusal.number(), &refusal, &mut text)?;
    }
    for refusal in STEPS {
        put(refusal.number(), &refusal, &mut text)?;
    }
    for refusal in JOINS {
        put(refusal.number(), &refusal, &mut text)?;
    }
    for refusal in CANCELS {
        put(refusal.number(), &refusal, &mut text)?;
    }
    Ok(text)
}

// A refusal with its number.
fn put<T: Display>(number: u8, refusal: &T, text: &mut String) -> Result<(), AllocError> {
    write!(text, "\n  {number} {refusal}")
}
