//! The kinds of a call with its answer.
ghost use Rattle.std.specs.Prelude.{◌≡◌};
ghost use Rattle.locked_node.specs.CallNumbers.{key_index, key_width};

use crate::call_answer::{ANSWERS, CallAnswer};
use pg_ids::Kind;

/// How many kinds there are: one for each answer and each kind of key.
pub const KINDS: usize = 96;

// How many numbers a call with each answer has besides its keys', by the answer's place.
const REST: [usize; ANSWERS] = [
    8, 5, // AcquireGot, ReleasedIdle
    5, 2, 2, // Join
    3, 6, 3, 3, // Leave
    8, 3, 3, 3, 3, 3, // Acquire
    11, 11, 6, 6, // Up
    5, 5, 5, // UpFailed
    5, 5, 5, 5, // Release
    5, 5, 5, // Close
    8, 1, 1, 0, 0, 0, 0, 0, 0, // Cancel
    6, 6, 6, 6, // Ended
    6, 6, 6, 6, // Failed
    1, 1, // Restart
];

// How many keys of clients it has.
const KEYS: [usize; ANSWERS] = [
    1, 0, // AcquireGot, ReleasedIdle
    1, 0, 0, // Join
    1, 2, 1, 1, // Leave
    1, 1, 1, 1, 1, 1, // Acquire
    0, 0, 0, 0, // Up
    0, 0, 0, // UpFailed
    0, 0, 0, 0, // Release
    0, 0, 0, // Close
    1, 2, 1, 1, 1, 1, 1, 1, 1, // Cancel
    0, 0, 0, 0, // Ended
    0, 0, 0, 0, // Failed
    0, 0, // Restart
];

/// The kind of a call: its step with the answer's name, and whether its key is short or long.
#[derive(Clone, Copy, Debug, PartialEq, Eq, Hash)]
pub struct CallKind {
    /// The step, with the answer's name.
    pub answer: CallAnswer,
    /// The kind of the key that it names, or that a login asked for. `Short` where there is none.
    pub key: Kind,
}

impl CallKind {
    ghost use Rattle.std.specs.Prelude.{◌<◌, ◌≤◌, length};
    ghost use Rattle.node_core.specs.View.{NodeView};
    ghost use Rattle.node_core.specs.NodeStep.{NodeStep};
    ghost use Rattle.node_core.specs.declared.exchange.Exchange.{Exchange};
    ghost use Rattle.locked_node.specs.CallNumbers.{KINDS, WIDEST, kind_of, index_of};
    ghost use Rattle.locked_node.specs.CallNumbers.{short, long, numbers_of};

    /// The kind of the calls with this answer, and with a short key or none.
    pub const fn short(answer: CallAnswer) -> CallKind
        ensures { result ≡ short answer }
    {
        CallKind {
            answer,
            key: Kind::Short,
        }
    }

    /// The kind of the calls with this answer, and with a long key.
    pub const fn long(answer: CallAnswer) -> CallKind
        ensures { result ≡ long answer }
    {
        CallKind {
            answer,
            key: Kind::Long,
        }
    }

    /// Its place among the kinds.
    #[inline(always)]
    pub fn index(self) -> usize
        ensures value { result ≡ index_of self }
        ensures within { result < KINDS }
    {
        2 * self.answer.index() + key_index(self.key)
    }

    /// How many numbers a call of this kind has: the kind fixes it, of each call that a node makes.
    pub fn numbers(self) -> usize
        ensures fixed { (old new : NodeView) (call : Exchange) → NodeStep old call new
            → kind_of call ≡ self → length (numbers_of call) ≡ result }
        ensures within { result ≤ WIDEST }
    {
        let answer = self.answer.index();
        REST[answer] + KEYS[answer] * key_width(self.key)
    }
}

// 0 for short keys, and 1 for long ones.
const fn key_index(kind: Kind) -> usize
    ensures { result ≡ key_index kind }
{
    match kind {
        Kind::Short => 0,
        Kind::Long => 1,
    }
}

// How many numbers a key of this kind has.
const fn key_width(kind: Kind) -> usize
    ensures { result ≡ key_width kind }
{
    match kind {
        Kind::Short => 1,
        Kind::Long => 3,
    }
}
