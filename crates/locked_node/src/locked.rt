//! A journal as it lies in the lock's table.
use crate::call::Call;
use crate::call_note::CallNote;
use crate::journal::Journal;
use node_core::{View, ViewRoom};
use std::alloc::{AllocError, Global};
use std::marker::Model;

/// A journal without what its model says of streams: the lock's rule doesn't speak of them.
#[derive(Drop)]
pub struct Locked<S> {
    pub(crate) journal: Journal<S>,
}

impl<S> Model for Locked<S> {
    ghost use Rattle.locked_node.specs.Journal.{JournalView, journal_view};

    ghost Value = { JournalView };

    ghost view = { λ l. journal_view l.journal };
}

impl<S: Drop> Locked<S> {
    ghost use Rattle.std.specs.Prelude.{◌≡◌, ◌<◌, [], IfOk};
    ghost use Rattle.node_core.specs.View.{IsView};
    ghost use Rattle.locked_node.specs.Journal.{JournalStep, CountsWithin};
    ghost use Rattle.locked_node.specs.Journal.{CALL_LIMIT};
    ghost use Rattle.locked_node.specs.Totals.{IsCountOf, calls_at, all_calls};
    ghost use Rattle.locked_node.specs.Lock.{Somewhere};
    ghost use Rattle.locked_node.specs.Waking.{Wakes, woken_by, database_of};

    /// Makes a call of any step, where one is left. Notes what of it is counted, and whose turn it
    /// is then.
    #[inline(always)]
    pub(crate) fn make<C: Call<S>>(&mut self, call: C, note: &mut CallNote) -> C::Reply
        requires room { all_calls self.old.log.totals < CALL_LIMIT }
        requires can { C.can_make self.old.view.pools call }
        ensures step { JournalStep self.old (C.exchange (C.handed call) result) self.new }
        ensures streams { Somewhere (C.streams call result) }
        ensures count { IsCountOf (C.exchange (C.handed call) result) note.new }
        ensures turn { Wakes (woken_by (C.exchange (C.handed call) result))
            (database_of self.old.view (C.exchange (C.handed call) result)) note.new.turn
            self.new.view }
    {
        self.journal.make(call, note)
    }

    /// What the node is, in memory that was taken before.
    pub(crate) fn copy(&self, alloc: Global, room: ViewRoom) -> Result<View<S>, AllocError>
        ensures view { IfOk result (λ view. view ≡ self.now.view) }
        ensures whole { IsView self.now.view }
        ensures numbers { CountsWithin (calls_at self.now.log.totals) self.now.view }
    {
        View::fill(alloc, room, self.journal.view())
    }
}
