//! Who makes calls at a node behind a lock.
ghost use Rattle.std.specs.Prelude.{◌≡◌, ◌<◌, ◌≤◌, IfNone, IfSome};

use crate::call_kind::CallKind;
use crate::call_note::CallNote;
use crate::rule::Place;
use crate::shared::Shared;
use crate::tally::Tally;
use std::marker::Model;

// What a new caller is handed.
const PART: u128 = 1 << 64;

/// Who makes calls at a node behind its lock: how many it may still make, and the totals of those
/// that it made.
#[derive(Drop)]
pub struct Caller<S> {
    pub(crate) seat: Place<S>,
    pub(crate) allowance: u128,
    // What was noted of its last call. The tally begins with the cells of the usual calls, so these
    // lie beside the note.
    pub(crate) note: CallNote,
    pub(crate) tally: Tally,
}

impl<S> Model for Caller<S> {
    ghost use Rattle.locked_node.specs.Lock.{CallerView};

    ghost Value = { CallerView };

    ghost use Rattle.locked_node.specs.CallerOf.{caller_of, IsCaller};

    ghost view = { caller_of };

    ghost invariant = { IsCaller };
}

impl<S: Drop> Caller<S> {
    ghost use Rattle.locked_node.specs.CallNumbers.{index_of};
    ghost use Rattle.locked_node.specs.Totals.{calls_at};
    ghost use Rattle.locked_node.specs.Lock.{HANDED, Splits, JoinsUp};

    /// How many calls it may still make.
    pub fn allowance(&self) -> u128
        ensures { result ≡ self.now.allowance }
    {
        self.allowance
    }

    /// Its calls by kind, with the sums of their numbers.
    pub fn tally(&self) -> &Tally
        ensures { result.now ≡ self.now.tally }
    {
        &self.tally
    }

    /// How many calls of this kind it made.
    pub fn calls(&self, kind: CallKind) -> u128
        ensures { result ≡ calls_at self.now.tally (index_of kind) }
    {
        self.tally.calls(kind)
    }

    /// Hands 2^64 of the allowance to a new caller without calls. Returns `None` if no more than
    /// that is left. The lock is this caller's own.
    pub fn split(&mut self, lock: &Shared<S>) -> Option<Caller<S>>
        requires own { self.old.lock ≡ lock.now }
        ensures none { IfNone result ((self.old.allowance ≤ HANDED) × (self.new ≡ self.old)) }
        ensures some { IfSome result
            (λ part. (HANDED < self.old.allowance) × Splits self.old self.new part) }
    {
        if self.allowance <= PART {
            return None;
        }
        let seat = lock.hand(&mut self.seat);
        self.allowance -= PART;
        Some(Caller {
            seat,
            allowance: PART,
            tally: Tally::new(),
            note: CallNote::new(),
        })
    }

    /// Adds the allowance and the totals of another caller of this lock.
    pub fn join(&mut self, lock: &Shared<S>, other: Caller<S>)
        requires own { self.old.lock ≡ lock.now }
        requires same { other.lock ≡ lock.now }
        ensures { JoinsUp self.old other self.new }
    {
        lock.unite(&mut self.seat, other.seat);
        self.allowance += other.allowance;
        self.tally.merge(&other.tally);
    }
}
