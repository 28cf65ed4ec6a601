//! A call's kind, beside the place of its cells in a tally.
use crate::call_kind::CallKind;
use crate::tally::start_of;
use std::marker::Model;

/// The kind of a call, and where the cells of its kind begin: both tallies that count the call take
/// the place from here.
#[derive(Debug, Drop)]
pub struct CountedKind {
    kind: CallKind,
    start: usize,
}

impl Model for CountedKind {
    ghost use Rattle.std.specs.Prelude.{◌≡◌, ◌<◌, slice_index};
    ghost use Rattle.locked_node.specs.CallNumbers.{KINDS, index_of};
    ghost use Rattle.locked_node.specs.declared.call_kind.CallKind.{CallKind};
    ghost use Rattle.locked_node.specs.declared.tally.TheConstants.{START};

    ghost Value = { CallKind };

    ghost view = { λ k. k.kind };

    ghost invariant = { λ k.
        (index_of k.kind < KINDS) × (k.start ≡ slice_index START (index_of k.kind)) };
}

impl CountedKind {
    ghost use Rattle.std.specs.Prelude.{◌≡◌, ◌<◌, slice_index};
    ghost use Rattle.locked_node.specs.CallNumbers.{KINDS, index_of};
    ghost use Rattle.locked_node.specs.declared.tally.TheConstants.{START};

    // A kind whose place is looked up.
    #[inline(always)]
    pub(crate) fn new(kind: CallKind) -> CountedKind
        ensures { result ≡ kind }
    {
        CountedKind {
            kind,
            start: start_of(kind.index()),
        }
    }

    // Where the cells of the kind begin.
    #[inline(always)]
    pub(crate) fn start(&self) -> usize
        ensures place { result ≡ slice_index START (index_of self.now) }
        ensures kind { index_of self.now < KINDS }
        ensures within { result < 467 }
    {
        self.start
    }
}
