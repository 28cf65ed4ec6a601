//! A node beside the calls that led to its state.
ghost use Rattle.std.specs.Prelude.{◌≡◌, ◌+◌, ◌^◌, ◌<◌, ◌≤◌, [], length, IfOk};
ghost use Rattle.node_core.specs.View.{NodeView, IsView};

use crate::call::Call;
use crate::call_note::CallNote;
use crate::log::{Entry, Log};
use crate::tally::Tally;
use circular_buffer::Iter;
use node_core::NodeCore;
use std::alloc::{AllocError, Global};
use std::marker::Model;

/// A node with the last 4,096 of its calls, each with its reply, and the totals of all its calls.
/// The calls led to the node's state: that is true of every journal. `S` is the stream of a link.
#[derive(Drop)]
pub struct Journal<S> {
    core: NodeCore<S>,
    log: Log,
}

impl<S> Model for Journal<S> {
    ghost use Rattle.locked_node.specs.Journal.{JournalValue, HasHistory};

    ghost Value = { JournalValue S };

    ghost view = { λ j. record { view = j.core.view; log = j.log; stored = j.core.stored } };

    ghost invariant = { λ j. HasHistory (record { view = j.core.view; log = j.log }) };
}

impl<S: Drop> Journal<S> {
    ghost use Rattle.node_core.specs.declared.exchange.Exchange.{Exchange};
    ghost use Rattle.std.specs.Map.Iter.{ShowsInOrder, deref};
    ghost use Rattle.locked_node.specs.Journal.{journal_view, JournalStep, Journaled, HasHistory};
    ghost use Rattle.locked_node.specs.Journal.{CountsWithin};
    ghost use Rattle.locked_node.specs.Journal.{CALL_LIMIT, TAIL_LIMIT};
    ghost use Rattle.locked_node.specs.Replay.{Replay};
    ghost use Rattle.locked_node.specs.Totals.{IsEmpty, IsCountOf, calls_at, all_calls};
    ghost use Rattle.locked_node.specs.Waking.{Wakes, woken_by, database_of};

    /// The journal of a node that begins with its state. It takes all the memory that it needs.
    pub fn new(alloc: Global, core: NodeCore<S>) -> Result<Journal<S>, AllocError>
        ensures view { IfOk result (λ journal. journal.view ≡ core.view) }
        ensures stored { IfOk result (λ journal. journal.stored ≡ core.stored) }
        ensures tail { IfOk result (λ journal. journal.log.tail ≡ []) }
        ensures totals { IfOk result (λ journal. IsEmpty journal.log.totals) }
    {
        let log = Log::new(alloc)?;
        Ok(Journal { core, log })
    }

    /// The node. The calls led to its state.
    pub fn view(&self) -> &NodeCore<S>
        ensures view { result.now.view ≡ self.now.view }
        ensures stored { result.now.stored ≡ self.now.stored }
        ensures whole { IsView self.now.view }
        ensures history { HasHistory (journal_view self.now) }
        // As many numbers and incarnations were given as the calls say, at least.
        ensures numbers { CountsWithin (calls_at self.now.log.totals) self.now.view }
    {
        whole_node(&self.core)
    }

    /// How many calls there were, those of the tail among them.
    pub fn calls(&self) -> u128
        ensures value { result ≡ all_calls self.now.log.totals }
        ensures within { result ≤ CALL_LIMIT }
        ensures tail { length self.now.log.tail ≤ TAIL_LIMIT }
    {
        self.log.calls()
    }

    /// How many more calls it takes.
    pub fn calls_left(&self) -> u128
        ensures { result + all_calls self.now.log.totals ≡ CALL_LIMIT }
    {
        self.log.calls_left()
    }

    /// The last calls with their replies, the oldest first: an audit log.
    pub fn tail(&self) -> Iter<'_, Entry>
        ensures calls { result ≡ self.now.log.tail }
        ensures runs { ShowsInOrder (deref {X = Exchange}) }
    {
        self.log.tail()
    }

    /// The totals of all its calls.
    pub fn totals(&self) -> &Tally
        ensures { result.now ≡ self.now.log.totals }
    {
        self.log.totals()
    }

    // Makes a call of any step, where one is left, and keeps it with its reply. Notes what of it is
    // counted, and whose turn it is then.
    #[inline(always)]
    pub(crate) fn make<C: Call<S>>(&mut self, call: C, note: &mut CallNote) -> C::Reply
        requires room { all_calls self.old.log.totals < CALL_LIMIT }
        requires can { C.can_make self.old.view.pools call }
        ensures step { JournalStep (journal_view self.old) (C.exchange (C.handed call) result)
            (journal_view self.new) }
        ensures streams { C.streams call result self.old.stored self.new.stored }
        ensures count { IsCountOf (C.exchange (C.handed call) result) note.new }
        ensures turn { Wakes (woken_by (C.exchange (C.handed call) result))
            (database_of self.old.view (C.exchange (C.handed call) result)) note.new.turn
            self.new.view }
    {
        let details = call.details();
        let database = call.database(whole_node(&self.core));
        let reply = call.make(&mut self.core);
        C::record(&details, &reply, &mut self.log, note);
        self.log.count(note);
        note.turn.pass_on(&self.core, database);
        reply
    }

    /// Makes a call of any step. After 2^127 calls nothing changes, and what was handed in is
    /// spent.
    pub fn call<C: Call<S>>(&mut self, call: C) -> C::Reply
        requires { C.can_make self.old.view.pools call }
        ensures made { Journaled (C.exchange (C.handed call) result) result (C.at_end call)
            (journal_view self.old) (journal_view self.new) }
        ensures streams { C.streams call result self.old.stored self.new.stored }
    {
        if self.log.is_full() {
            return call.forfeit();
        }
        self.make(call, &mut CallNote::new())
    }
}

// The node. The view of each node is whole, but in this crate only a clause of a method says so. So
// one is called for its clause alone.
#[inline(always)]
fn whole_node<S: Drop>(core: &NodeCore<S>) -> &NodeCore<S>
    ensures same { result.now ≡ core.now }
    ensures whole { IsView core.now.view }
{
    core.incarnation();
    core
}
