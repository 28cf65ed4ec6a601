//! Clients that sleep until it is their turn to get a link.
//!
//! Each slot has a word of the lock's table, behind the lock's own. It has an incarnation of the
//! node and what its client does there, so that a client of an earlier incarnation, which may still
//! sleep on the word, is never taken for the one that has the slot now. The lock's rule speaks of
//! its own word alone.
ghost use Rattle.std.specs.Prelude.{◌≡◌, ◌≢◌, ◌<◌, IfSome};

use crate::caller::Caller;
use crate::rule::{Place, Rest};
use crate::shared::{FIRST_SLOT, Shared};
use lease::Pass;
use pg_ids::SlotNo;
use std::sync::Wait;
use std::time::Duration;

// What a slot's word says of its client: it was called since it last waited, or it sleeps;
// otherwise neither.
const CALLED: u64 = 1;

const ASLEEP: u64 = 2;

const STATES: u64 = 4;

// How long a client sleeps at most, in milliseconds.
const LONGEST_SLEEP: u64 = 500;

// The word of an incarnation in which the client does this.
fn word_of(incarnation: u64, state: u64) -> u64 {
    incarnation.wrapping_mul(STATES).wrapping_add(state)
}

impl<S: Drop> Shared<S> {
    // The word of a slot, if there is one.
    fn slot_word(&self, slot: SlotNo) -> Option<usize>
        ensures { IfSome result (λ word. (word ≢ 0) × (word < self.now.words)) }
    {
        let word = FIRST_SLOT + slot.get() as usize;
        if word < self.table.word_count() {
            Some(word)
        } else {
            None
        }
    }

    // A slot's word becomes another, if it is still as it was found. Returns whether it was.
    fn change(&self, seat: &mut Place<S>, word: usize, found: u64, new: u64) -> bool
        requires own { seat.old.table_id ≡ self.now }
        requires word { (word ≢ 0) × (word < self.now.words) }
        ensures own { seat.new.table_id ≡ seat.old.table_id }
        ensures same { seat.new.me ≡ seat.old.me }
    {
        self.table
            .shared
            .compare_exchange::<Rest>(seat, word, found, new)
            == found
    }

    // Wakes the client of a slot in this incarnation, or spares it its next sleep, and wakes those
    // of earlier incarnations.
    #[inline(never)]
    pub(crate) fn wake_slot<R: Wait>(
        &self,
        rt: &R,
        seat: &mut Place<S>,
        incarnation: u64,
        slot: SlotNo,
    )
        requires own { seat.old.table_id ≡ self.now }
        ensures own { seat.new.table_id ≡ seat.old.table_id }
        ensures same { seat.new.me ≡ seat.old.me }
    {
        let Some(word) = self.slot_word(slot) else {
            return;
        };
        let called = word_of(incarnation, CALLED);
        for _ in rt.forever() {
            let found = self.table.shared.peek(word);
            if found == called || found / STATES > incarnation {
                return;
            }
            if self.change(seat, word, found, called) {
                if found % STATES == ASLEEP {
                    self.table.shared.wake_all(word);
                }
                return;
            }
        }
        unreachable!()
    }

    // Wakes the client of each slot.
    #[cold]
    #[inline(never)]
    pub(crate) fn wake_every<R: Wait>(&self, rt: &R, seat: &mut Place<S>, incarnation: u64)
        requires own { seat.old.table_id ≡ self.now }
        ensures own { seat.new.table_id ≡ seat.old.table_id }
        ensures same { seat.new.me ≡ seat.old.me }
    {
        for slot in 0..=u16::MAX {
            if self.slot_word(SlotNo(slot)).is_none() {
                return;
            }
            self.wake_slot(rt, seat, incarnation, SlotNo(slot));
        }
    }

    /// Sleeps until it may be the turn of the client of a pass: a link is idle or a place is free
    /// and nobody waits before it, its wait was cancelled, or the node was started anew. It returns
    /// after 500 milliseconds at the latest, and may return for no reason, so ask for a link again,
    /// and wait again if there is none. It is no call of the node: it takes no lock and isn't
    /// counted.
    ///
    /// A client that asks and then waits misses no turn that came in between. Steps that make it
    /// somebody's turn wake that client alone.
    pub fn wait_turn<R: Wait>(&self, rt: &R, caller: &mut Caller<S>, pass: &Pass)
        requires own { caller.old.lock ≡ self.now }
        ensures same { caller.new ≡ caller.old }
    {
        let pass = pass.details();
        let Some(word) = self.slot_word(pass.key.slot()) else {
            return;
        };
        self.sleep(rt, &mut caller.seat, word, pass.incarnation);
    }

    // Sleeps on a slot's word, for a limited time, until its client of this incarnation is called
    // or another incarnation has begun. The client doesn't sleep from then on, and whoever finds
    // its word so calls it without waking it.
    fn sleep<R: Wait>(&self, rt: &R, seat: &mut Place<S>, word: usize, incarnation: u64)
        requires own { seat.old.table_id ≡ self.now }
        requires word { (word ≢ 0) × (word < self.now.words) }
        ensures own { seat.new.table_id ≡ seat.old.table_id }
        ensures same { seat.new.me ≡ seat.old.me }
    {
        let called = word_of(incarnation, CALLED);
        let asleep = word_of(incarnation, ASLEEP);
        let expected = (asleep % (1 << 32)) as u32;
        let longest = Duration::from_millis(LONGEST_SLEEP);
        let mut slept = false;
        for _ in rt.forever() {
            let found = self.table.shared.peek(word);
            if found / STATES > incarnation {
                return;
            }
            if slept || found == called {
                if self.change(seat, word, found, word_of(incarnation, 0)) {
                    return;
                }
            } else if found == asleep || self.change(seat, word, found, asleep) {
                self.table.shared.park_timeout(rt, word, expected, longest);
                slept = true;
            }
        }
        unreachable!()
    }
}
