//! What is noted of a call as it is made.
ghost use Rattle.std.specs.Prelude.{◌≡◌, []};
ghost use Rattle.locked_node.specs.declared.turn.Woken.TheVariants.{Nobody};

use crate::call_answer::CallAnswer;
use crate::call_kind::CallKind;
use crate::counted_kind::CountedKind;
use crate::numbers::Numbers;
use crate::turn::{Turn, Woken};
use pg_ids::Kind;

/// What is noted of a call: its kind and its numbers, which are counted, and whom it wakes.
#[derive(Drop)]
pub struct CallNote {
    pub(crate) kind: CountedKind,
    pub(crate) numbers: Numbers,
    pub(crate) turn: Turn,
}

impl CallNote {
    // Room for what is noted of a call.
    #[inline(always)]
    pub(crate) fn new() -> CallNote {
        CallNote {
            kind: CountedKind::new(CallKind::short(CallAnswer::Joined)),
            numbers: Numbers::new(),
            turn: Turn {
                incarnation: 0,
                woken: Woken::Nobody,
            },
        }
    }

    // A call with this answer, and with a key of this kind. Its numbers are to follow. It wakes
    // nobody.
    #[inline(always)]
    pub(crate) fn begin(&mut self, answer: CallAnswer, key: Kind)
        ensures kind { self.new.kind ≡ record { answer = answer; key = key } }
        ensures numbers { self.new.numbers ≡ [] }
        ensures woken { self.new.turn.woken ≡ Nobody }
    {
        self.kind = CountedKind::new(CallKind { answer, key });
        self.numbers.clear();
        self.turn.woken = Woken::Nobody;
    }
}
