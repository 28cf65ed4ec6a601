//! All parameters that are watched.
ghost use Rattle.std.specs.Prelude.{◌≡◌, ◌≤◌, IfNone, IfSome, map};
ghost use Rattle.std.specs.List.{AllByRecursion};
ghost use Rattle.link_state.specs.Watched.{judged, all_seen, Suffices, IsSame, IsChangeOf};

use crate::Difference;
use crate::watched::Watched;

// How many bytes the head of a message has.
const HEAD: usize = 5;

/// Takes note of a ParameterStatus for each of these.
pub fn judge_all(all: &mut [Watched], body: &[u8])
    ensures { all_seen all.new ≡ map (judged body.now) (all_seen all.old) }
{
    for one in all.iter_mut() {
        one.judge(body);
    }
}

/// The first change among these.
pub fn first_change(all: &[Watched]) -> Option<Difference<'_>>
    ensures none { IfNone result (AllByRecursion IsSame (all_seen all.now)) }
    ensures some { IfSome result (IsChangeOf (all_seen all.now)) }
{
    let Some((one, more)) = all.split_first() else {
        return None;
    };
    match one.difference() {
        Some(change) => Some(change),
        None => first_change(more),
    }
}

/// How many bytes of a message are enough to judge each of these.
pub fn limit_of(all: &[Watched]) -> usize
    ensures enough { AllByRecursion (Suffices result) (all_seen all.now) }
    ensures head { 5 ≤ result }
{
    match all.split_first() {
        Some((one, more)) => one.needs().max(limit_of(more)),
        None => HEAD,
    }
}
