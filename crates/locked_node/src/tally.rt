//! Calls counted by their kind, with the sums of their numbers.
ghost use Rattle.std.specs.Prelude.{◌≡◌, ◌+◌, ◌^◌, ◌<◌, ◌≤◌, length, slice_index};
ghost use Rattle.locked_node.specs.CallNumbers.{KINDS};
ghost use Rattle.locked_node.specs.Adding.{AddedTo};
ghost use Rattle.locked_node.specs.declared.tally.TheConstants.{START, CELLS};

use crate::call_kind::{CallKind, KINDS};
use crate::call_note::CallNote;
use crate::numbers::WIDEST;

// Where the cells of each kind begin, by the kind's place: one for the count of its calls, and then
// one for each number that a call of the kind can have. There are none for a long key where the
// step names no key. With a short key, `Joined`, `LeaveHolding` and `Forwarded` have as many as with
// a long one: their kind doesn't fix the key of the answer. The cells of the last kind end at the
// end.
const START: [usize; KINDS + 1] = [
    0, 10, 22, 28, // AcquireGot, ReleasedIdle
    29, 38, 47, 50, 53, 56, // Join
    59, 64, 71, 84, 97, 102, 109, 114, // Leave
    121, 131, 143, 148, 155, 160, 167, 172, 179, 184, 191, 196, // Acquire
    203, 215, 216, 228, 229, 236, 237, 244, // Up
    245, 251, 252, 258, 259, 265, // UpFailed
    266, 272, 273, 279, 280, 286, 287, 293, // Release
    294, 300, 301, 307, 308, 314, // Close
    315, 325, 337, 345, 353, 356, // Cancel
    361, 363, 367, 369, 373, 375, 379, 381, 385, 387, 391, 393, // Cancel, refused
    397, 404, 405, 412, 413, 420, 421, 428, // Ended
    429, 436, 437, 444, 445, 452, 453, 460, // Failed
    461, 463, 464, 466, // Restart
    467, // the end
];

// Behind the last kind's cells there is room for the numbers of any call.
const CELLS: usize = 467 + WIDEST;

// Where the cells of a kind begin.
#[inline(always)]
pub(crate) fn start_of(kind: usize) -> usize
    requires { kind < KINDS }
    ensures place { result ≡ slice_index START kind }
    ensures within { result < 467 }
{
    START[kind]
}

// Adds the first numbers to the cells from a place on. Where it is inlined with a constant count, it
// has no loop.
#[inline(always)]
fn add_first(cells: &mut [u128; CELLS], from: usize, numbers: &[u64], count: usize)
    requires few { count ≤ length numbers.now }
    requires room { from + count ≤ CELLS }
    ensures { AddedTo from count cells.old numbers.now cells.new }
{
    for i in 0..count {
        let at = from + i;
        cells[at] = cells[at].wrapping_add(u128::from(numbers[i]));
    }
}

// Adds numbers to the cells from a place on. Most calls have five numbers or nine: those of a link
// that is given back, and those of one that is got with a short key.
#[inline(always)]
fn add_all(cells: &mut [u128; CELLS], from: usize, numbers: &[u64])
    requires { from + length numbers.now ≤ CELLS }
    ensures { AddedTo from (length numbers.now) cells.old numbers.now cells.new }
{
    match numbers.len() {
        5 => add_first(cells, from, numbers, 5),
        9 => add_first(cells, from, numbers, 9),
        count => add_first(cells, from, numbers, count),
    }
}

/// The calls of each kind, with the sums of their numbers modulo 2^128.
#[derive(Clone, Copy, Debug, PartialEq, Eq)]
pub struct Tally {
    cells: [u128; CELLS],
}

impl Tally {
    ghost use Rattle.locked_node.specs.CallNumbers.{index_of};
    ghost use Rattle.node_core.specs.declared.exchange.Exchange.{Exchange as CallOf};
    ghost use Rattle.locked_node.specs.Totals.{IsEmpty, IsCountOf, Counts, AddsUp};
    ghost use Rattle.locked_node.specs.Totals.{all_calls, calls_at, row_at};

    /// No calls.
    pub const fn new() -> Tally
        ensures { IsEmpty result }
    {
        Tally { cells: [0; CELLS] }
    }

    /// How many calls of this kind there are.
    pub fn calls(&self, kind: CallKind) -> u128
        ensures { result ≡ calls_at self.now (index_of kind) }
    {
        self.cells[start_of(kind.index())]
    }

    /// The sums of the numbers of the calls of this kind, by position, modulo 2^128: at least as many
    /// as a call of this kind has numbers.
    pub fn sums(&self, kind: CallKind) -> &[u128]
        ensures { result.now ≡ (row_at self.now (index_of kind)).sums }
    {
        let kind = kind.index();
        &self.cells[START[kind] + 1..START[kind + 1]]
    }

    /// Counts one more call, of which this was noted.
    #[inline(always)]
    pub(crate) fn add(&mut self, note: &CallNote)
        requires room { all_calls self.old < 2 ^ 127 }
        ensures { (call : CallOf) → IsCountOf call note.now → Counts self.old call self.new }
    {
        let start = note.kind.start();
        add_all(&mut self.cells, start + 1, note.numbers.as_slice());
        self.cells[start] += 1;
    }

    /// Counts the calls of another tally too.
    pub fn merge(&mut self, other: &Tally)
        requires { all_calls self.old + all_calls other.now < 2 ^ 128 }
        ensures { AddsUp self.old other.now self.new }
    {
        for i in 0..CELLS {
            self.cells[i] = self.cells[i].wrapping_add(other.cells[i]);
        }
    }
}
