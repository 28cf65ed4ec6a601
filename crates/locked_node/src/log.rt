//! The last calls of a node, and the totals of all.
ghost use Rattle.std.specs.Prelude.{◌≡◌, ◌+◌, ◌<◌, ◌≤◌, [], length, IfOk, MatchBool};
ghost use Rattle.link_pool.specs.declared.replies.AcquireReply.TheVariants as acquire;
ghost use Rattle.link_pool.specs.declared.replies.ReleaseReply.TheVariants as release;
ghost use Rattle.node_core.specs.declared.exchange.Exchange.TheVariants as call;

use crate::call_note::CallNote;
use crate::tally::Tally;
use circular_buffer::{HeapCircularBuffer, Iter};
use node_core::{AcquireReply, Exchange, LinkRecord, PassRecord, PermitRecord, ReleaseReply};
use std::alloc::{AllocError, Global};
use std::marker::Model;

/// How many calls are kept with their replies.
const TAIL: usize = 4096;

/// How many calls there may be.
pub(crate) const MOST: u128 = 1 << 127;

/// A call with its reply, in the tail of a journal.
#[derive(Debug, Drop)]
pub struct Entry {
    /// The call.
    pub call: Exchange,
}

impl Model for Entry {
    ghost use Rattle.node_core.specs.declared.exchange.Exchange.{Exchange};

    ghost Value = { Exchange };

    ghost view = { λ e. e.call };
}

// The tail of a journal, and the totals of all its calls.
#[derive(Drop)]
pub struct Log {
    tail: HeapCircularBuffer<Entry>,
    calls: u128,
    totals: Tally,
}

impl Model for Log {
    ghost use Rattle.std.specs.Prelude.{◌≡◌, ◌≤◌, length};
    ghost use Rattle.locked_node.specs.Journal.{LogView, CALL_LIMIT, TAIL_LIMIT};
    ghost use Rattle.locked_node.specs.Totals.{all_calls};

    ghost Value = { LogView };

    ghost view = { λ l. record { tail = l.tail.items; totals = l.totals } };

    ghost invariant = { λ l.
        (length l.tail.items ≤ TAIL_LIMIT) × (l.tail.capacity ≡ TAIL_LIMIT)
        × (l.calls ≡ all_calls l.totals) × (l.calls ≤ CALL_LIMIT) };
}

impl Log {
    ghost use Rattle.node_core.specs.declared.exchange.Exchange.{Exchange as CallOf};
    ghost use Rattle.std.specs.Map.Iter.{ShowsInOrder, deref};
    ghost use Rattle.locked_node.specs.Journal.{Puts, CALL_LIMIT, TAIL_LIMIT};
    ghost use Rattle.locked_node.specs.Totals.{IsEmpty, IsCountOf, Counts, all_calls};

    /// No calls, and room for the tail.
    pub(crate) fn new(alloc: Global) -> Result<Log, AllocError>
        ensures tail { IfOk result (λ log. log.tail ≡ []) }
        ensures totals { IfOk result (λ log. IsEmpty log.totals) }
    {
        Ok(Log {
            tail: HeapCircularBuffer::with_capacity(alloc, TAIL)?,
            calls: 0,
            totals: Tally::new(),
        })
    }

    /// How many calls there were.
    pub(crate) fn calls(&self) -> u128
        ensures value { result ≡ all_calls self.now.totals }
        ensures within { result ≤ CALL_LIMIT }
        ensures tail { length self.now.tail ≤ TAIL_LIMIT }
    {
        self.calls
    }

    /// How many more calls it takes.
    pub(crate) fn calls_left(&self) -> u128
        ensures { result + all_calls self.now.totals ≡ CALL_LIMIT }
    {
        MOST - self.calls
    }

    /// The last calls, the oldest first.
    pub(crate) fn tail(&self) -> Iter<'_, Entry>
        ensures calls { result ≡ self.now.tail }
        ensures runs { ShowsInOrder (deref {X = CallOf}) }
    {
        self.tail.iter()
    }

    /// The totals of all calls.
    pub(crate) fn totals(&self) -> &Tally
        ensures { result.now ≡ self.now.totals }
    {
        &self.totals
    }

    /// Whether no further call is taken.
    pub(crate) fn is_full(&self) -> bool
        ensures full { MatchBool result
            (all_calls self.now.totals ≡ CALL_LIMIT) (all_calls self.now.totals < CALL_LIMIT) }
        ensures tail { length self.now.tail ≤ TAIL_LIMIT }
    {
        self.calls == MOST
    }

    /// Puts a call behind the tail, which the oldest one leaves where it is full. It isn't counted
    /// yet.
    #[inline(never)]
    pub(crate) fn put(&mut self, call: &Exchange)
        ensures { Puts self.old call.now self.new }
    {
        self.put_here(*call);
    }

    // The same, with the call written where it is kept.
    #[inline(always)]
    fn put_here(&mut self, call: Exchange)
        ensures { Puts self.old call self.new }
    {
        if self.tail.is_full() {
            self.tail.truncate_front(TAIL - 1);
        }
        let _none = self.tail.try_push_back(Entry { call });
    }

    /// Puts the call of a client that got this link, likewise.
    #[inline(always)]
    pub(crate) fn put_got(&mut self, pass: &PassRecord, lease: &LinkRecord)
        ensures { Puts self.old (call.Acquire pass.now (acquire.Got lease.now)) self.new }
    {
        self.put_here(Exchange::Acquire(*pass, AcquireReply::Got(*lease)));
    }

    /// Puts the call of a client whose link is idle again, likewise.
    #[inline(always)]
    pub(crate) fn put_released(&mut self, lease: &LinkRecord)
        ensures { Puts self.old (call.Release lease.now release.Idle) self.new }
    {
        self.put_here(Exchange::Release(*lease, ReleaseReply::Idle));
    }

    /// Puts the call of a client that may open a link by this permit, likewise.
    #[inline(never)]
    pub(crate) fn put_open(&mut self, pass: &PassRecord, permit: &PermitRecord)
        ensures { Puts self.old (call.Acquire pass.now (acquire.Open permit.now)) self.new }
    {
        self.put(&Exchange::Acquire(*pass, AcquireReply::Open(*permit)));
    }

    /// Counts a call, of which this was noted.
    #[inline(always)]
    pub(crate) fn count(&mut self, note: &CallNote)
        requires room { all_calls self.old.totals < CALL_LIMIT }
        requires of { (call : CallOf) × IsCountOf call note.now }
        ensures tail { self.new.tail ≡ self.old.tail }
        ensures totals { (call : CallOf) → IsCountOf call note.now
            → Counts self.old.totals call self.new.totals }
    {
        self.totals.add(note);
        self.calls += 1;
    }
}
