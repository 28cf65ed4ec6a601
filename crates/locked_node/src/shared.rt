//! A node behind its lock, which any number of callers share.
ghost use Rattle.std.specs.Prelude.{◌≡◌, ◌<◌, [], length, None};
ghost use Rattle.locked_node.specs.Lock.{Takes, Holds, IsFound, IsCopy, Calls, Called, Given, Returned, stake};
ghost use Rattle.locked_node.specs.Journal.{CountsWithin};
ghost use Rattle.locked_node.specs.Replay.{fixed_of};
ghost use Rattle.locked_node.specs.Waking.{WakesAfter};
ghost use Rattle.node_core.specs.View.{IsView};

use crate::call::Call;
use crate::call_note::CallNote;
use crate::caller::Caller;
use crate::journal::Journal;
use crate::locked::Locked;
use crate::log::MOST;
use crate::rule::{Both, Give, Hand, Look, Place, Return, Rule, Share, Take};
use crate::turn::{Turn, Woken};
use atomic_table::Table;
use crossbeam_utils::Backoff;
use node_core::{View, ViewRoom};
use std::alloc::{AllocError, Global};
use std::marker::Model;
use std::snapshot::Snapshot;
use std::sync::Wait;

// What the lock's word says: it is free, it is taken, or it is taken and somebody may sleep until
// it is given back.
const FREE: u64 = 0;

const TAKEN: u64 = 1;

const AWAITED: u64 = 2;

// How often a caller looks at a taken lock before it sleeps. It pauses before each look, longer
// each time: a look takes the lock's word from the caller that has the lock, and in a pause that
// one may make several calls.
const LOOKS: u32 = 6;

/// The place of the first slot's word among the table's. The lock's word comes first, and has a
/// cache line of its own: a client that sleeps or is woken takes no line from whoever calls.
pub(crate) const FIRST_SLOT: usize = 8;

/// A node with its journal, behind a lock.
#[derive(Drop)]
pub struct Shared<S> {
    pub(crate) table: Table<Locked<S>, Share, Snapshot<Locked<S>>, Rule, Global>,
    // What a copy of the node needs, which no step changes: how many slots it has, and the pool
    // size of each database.
    slots: usize,
    pool_sizes: Vec<u16>,
}

impl<S> Model for Shared<S> {
    ghost use Rattle.std.specs.Prelude.{◌≡◌, ◌<◌};
    ghost use Rattle.atomic_table.specs.Seated.{TableId, table_id_coded};

    ghost Value = { TableId };

    ghost coded = { table_id_coded };

    ghost view = { λ s. s.table.shared.table_id };

    ghost invariant = { λ s. (0 < s.table.shared.table_id.words)
        × (s.table.shared.table_id.slots ≡ 1) };
}

impl<S: Drop> Shared<S> {
    ghost use Rattle.std.specs.Prelude.{◌≤◌, ◌+◌, IfOk, IfSome, IsSomeAnd, MatchBool};
    ghost use Rattle.locked_node.specs.Totals.{IsCountOf, all_calls, calls_at};
    ghost use Rattle.locked_node.specs.Journal.{journal_view, CALL_LIMIT};
    ghost use Rattle.locked_node.specs.Lock.{Somewhere, IsWhole, IsOfLock, IsWithin};
    ghost use Rattle.locked_node.specs.Lock.{HANDED, handing, handed, joined};

    /// A lock with this journal, and its first caller, which has the journal's totals and may make
    /// all calls that are left. Beside the lock's word its table has a word for each slot of the
    /// node, for the client there to sleep on while it waits for a link.
    pub fn new(alloc: Global, journal: Journal<S>) -> Result<(Shared<S>, Caller<S>), AllocError>
        ensures lock { IfOk result (λ made. made.1.lock ≡ made.0) }
        ensures start { IfOk result (λ made. made.1.start ≡ journal_view journal) }
        ensures allowance { IfOk result
            (λ made. made.1.allowance + all_calls journal.log.totals ≡ CALL_LIMIT) }
        ensures none { IfOk result (λ made. (made.1.made ≡ []) × (made.1.places ≡ [])) }
        ensures totals { IfOk result (λ made. made.1.tally ≡ journal.log.totals) }
    {
        let tally = *journal.totals();
        let allowance = journal.calls_left();
        let slots = journal.view().slots();
        let mut pool_sizes = Vec::new(alloc);
        pool_sizes.extend_from_slice(journal.view().pool_sizes())?;
        let words = vec![in alloc; FREE; FIRST_SLOT + slots]?;
        let locked = Locked { journal };
        let start = Snapshot::of(&locked);
        let mut only = Vec::with_capacity(alloc, 1)?;
        only.push(locked)?;
        let Ok((table, seat)) = Table::new(alloc, &words, only, &start) else {
            return Err(AllocError);
        };
        let first = Caller {
            seat,
            allowance,
            tally,
            note: CallNote::new(),
        };
        let shared = Shared {
            table,
            slots,
            pool_sizes,
        };
        Ok((shared, first))
    }

    /// The journal, at the end, and `None` if the lock is taken, which a lock that somebody owns
    /// never is. Some calls lead from the node as it was to the journal's state, this caller's among
    /// them at their places, and they leave this caller's allowance. If all callers were joined to
    /// this one, there is a journal, its totals are this caller's, and the calls are this caller's.
    pub fn into_journal(self, caller: Caller<S>) -> Option<Journal<S>>
        requires own { caller.lock ≡ self }
        ensures own { IfSome result (λ journal. IsOfLock caller (journal_view journal)) }
        ensures whole { caller.allowance + all_calls caller.tally ≡ CALL_LIMIT
            → IsSomeAnd result (λ journal. IsWhole caller (journal_view journal)) }
    {
        let Shared {
            table,
            slots: _,
            pool_sizes: _,
        } = self;
        let Caller {
            seat,
            allowance: _,
            tally: _,
            note: _,
        } = caller;
        let mut closed = table.close_with(seat);
        let word = closed.word(0);
        let locked = closed.take(0);
        closed.free();
        let Locked { journal } = locked;
        if word == FREE { Some(journal) } else { None }
    }

    /// How many calls were made in all, those of the journal before the lock among them: at least
    /// those of this caller, and at most as many as its allowance leaves.
    pub fn total_calls(self, caller: Caller<S>) -> u128
        requires own { caller.lock ≡ self }
        ensures whole { caller.allowance + all_calls caller.tally ≡ CALL_LIMIT
            → result ≡ all_calls caller.tally }
        ensures least { all_calls caller.tally ≤ result }
        ensures most { result + caller.allowance ≤ CALL_LIMIT }
    {
        let left = caller.allowance;
        match self.into_journal(caller) {
            Some(journal) => journal.calls(),
            None => MOST - left,
        }
    }

    // Takes the lock if it is free.
    #[inline(always)]
    fn try_take(&self, seat: &mut Place<S>) -> bool
        requires own { seat.old.table_id ≡ self.now }
        requires some { 0 < stake seat.old.me.0 }
        requires empty { seat.old.me.1 ≡ [] }
        ensures own { seat.new.table_id ≡ seat.old.table_id }
        ensures taken { MatchBool result (Takes seat.old.me seat.new.me)
            (seat.new.me ≡ seat.old.me) }
    {
        self.table
            .shared
            .compare_exchange::<Take>(seat, 0, FREE, TAKEN)
            == FREE
    }

    // Takes the lock if it is free at one of six looks. Before these it pauses 3, 12 and 48 times,
    // and then 128 times each.
    fn spin(&self, seat: &mut Place<S>) -> bool
        requires own { seat.old.table_id ≡ self.now }
        requires some { 0 < stake seat.old.me.0 }
        requires empty { seat.old.me.1 ≡ [] }
        ensures own { seat.new.table_id ≡ seat.old.table_id }
        ensures taken { MatchBool result (Takes seat.old.me seat.new.me)
            (seat.new.me ≡ seat.old.me) }
    {
        let backoff = Backoff::new();
        for _ in 0..LOOKS {
            backoff.spin();
            backoff.spin();
            if self.table.shared.peek(0) == FREE && self.try_take(seat) {
                return true;
            }
        }
        false
    }

    // Takes the lock. A caller that finds it taken looks at it for a while, and then sleeps until
    // it is given back.
    #[inline(always)]
    pub(crate) fn take<R: Wait>(&self, rt: &R, seat: &mut Place<S>)
        requires own { seat.old.table_id ≡ self.now }
        requires some { 0 < stake seat.old.me.0 }
        requires empty { seat.old.me.1 ≡ [] }
        ensures own { seat.new.table_id ≡ seat.old.table_id }
        ensures took { Takes seat.old.me seat.new.me }
    {
        if !self.try_take(seat) {
            self.wait(rt, seat);
        }
    }

    // Takes the lock, which another caller had.
    #[cold]
    #[inline(never)]
    fn wait<R: Wait>(&self, rt: &R, seat: &mut Place<S>)
        requires own { seat.old.table_id ≡ self.now }
        requires some { 0 < stake seat.old.me.0 }
        requires empty { seat.old.me.1 ≡ [] }
        ensures own { seat.new.table_id ≡ seat.old.table_id }
        ensures took { Takes seat.old.me seat.new.me }
    {
        if self.spin(seat) {
            return;
        }
        let shared = &self.table.shared;
        // Whoever slept can't know that nobody else does, so it says that somebody may.
        for _ in rt.forever() {
            if shared.swap::<Take>(seat, 0, AWAITED) == FREE {
                return;
            }
            shared.park(rt, 0, AWAITED as u32);
        }
        unreachable!()
    }

    // A caller's seat without calls, for 2^64 of the allowance of another.
    pub(crate) fn hand(&self, seat: &mut Place<S>) -> Place<S>
        requires own { seat.old.table_id ≡ self.now }
        requires idle { seat.old.me.0.found ≡ None }
        requires more { HANDED < seat.old.me.0.allowance }
        ensures own { (seat.new.table_id ≡ seat.old.table_id)
            × (result.table_id ≡ seat.old.table_id) }
        ensures left { seat.new.me ≡ (handing seat.old.me.0, seat.old.me.1) }
        ensures right { result.me ≡ (handed seat.old.me.0, []) }
    {
        self.table.shared.split_seat::<Hand>(seat)
    }

    // Two callers' seats are one.
    pub(crate) fn unite(&self, seat: &mut Place<S>, other: Place<S>)
        requires own { (seat.old.table_id ≡ self.now) × (other.table_id ≡ self.now) }
        requires idle { (seat.old.me.0.found ≡ None) × (other.me.0.found ≡ None) }
        requires empty { (seat.old.me.1 ≡ []) × (other.me.1 ≡ []) }
        requires some { 0 < stake seat.old.me.0 }
        ensures own { seat.new.table_id ≡ seat.old.table_id }
        ensures both { seat.new.me ≡ (joined seat.old.me.0 other.me.0, []) }
        ensures within { IsWithin seat.new.me.0 }
    {
        let shared = &self.table.shared;
        shared.join_seat::<Both>(seat, other);
        shared.load::<Look>(seat, 0);
    }

    // Makes a call of any step on the journal that the seat holds. Notes what of it is counted, and
    // whose turn it is then.
    #[inline(always)]
    pub(crate) fn make<C: Call<S>>(
        &self,
        seat: &mut Place<S>,
        call: C,
        note: &mut CallNote,
    ) -> C::Reply
        requires own { seat.old.table_id ≡ self.now }
        requires holds { Holds seat.old.me }
        requires can { C.can_make seat.old.me.0.start.view.pools call }
        ensures own { seat.new.table_id ≡ seat.old.table_id }
        ensures calls { Calls seat.old.me (C.exchange (C.handed call) result) seat.new.me }
        ensures streams { Somewhere (C.streams call result) }
        ensures count { IsCountOf (C.exchange (C.handed call) result) note.new }
        ensures turn { WakesAfter seat.old.me (C.exchange (C.handed call) result) note.new.turn
            seat.new.me }
    {
        seat.slot_mut(&self.table.shared, 0).make(call, note)
    }

    // Gives the lock back, with one call more in the journal, and wakes whoever the call wakes. Most
    // calls wake nobody: these call no function that may wait, since each such call costs
    // instructions, also where it is inlined.
    #[inline(always)]
    pub(crate) fn pass_on<R: Wait>(&self, rt: &R, seat: &mut Place<S>, turn: &Turn)
        requires own { seat.old.table_id ≡ self.now }
        requires called { Called seat.old.me }
        ensures own { seat.new.table_id ≡ seat.old.table_id }
        ensures given { Given seat.old.me seat.new.me }
    {
        self.give(seat);
        match turn.woken {
            Woken::Nobody => {}
            Woken::One(slot) => self.wake_slot(rt, seat, turn.incarnation, slot),
            Woken::All => self.wake_every(rt, seat, turn.incarnation),
        }
    }

    // Gives the lock back, with one call more in the journal.
    #[inline(always)]
    fn give(&self, seat: &mut Place<S>)
        requires own { seat.old.table_id ≡ self.now }
        requires called { Called seat.old.me }
        ensures own { seat.new.table_id ≡ seat.old.table_id }
        ensures given { Given seat.old.me seat.new.me }
    {
        let shared = &self.table.shared;
        if shared.swap::<Give>(seat, 0, FREE) == AWAITED {
            shared.wake_one(0);
        }
    }

    // What the node is that the seat has found, in memory that was taken before.
    fn copy(
        &self,
        alloc: Global,
        room: ViewRoom,
        seat: &mut Place<S>,
    ) -> Result<View<S>, AllocError>
        requires own { seat.old.table_id ≡ self.now }
        requires found { IsFound seat.old.me }
        ensures own { seat.new.table_id ≡ seat.old.table_id }
        ensures same { seat.new.me ≡ seat.old.me }
        ensures view { IfOk result (λ view. IsCopy seat.old.me view) }
    {
        seat.slot_mut(&self.table.shared, 0).copy(alloc, room)
    }

    // Gives the lock back, with the journal as it was found.
    fn put_back(&self, seat: &mut Place<S>)
        requires own { seat.old.table_id ≡ self.now }
        requires found { IsFound seat.old.me }
        ensures own { seat.new.table_id ≡ seat.old.table_id }
        ensures same { Returned seat.old.me seat.new.me }
    {
        let shared = &self.table.shared;
        if shared.swap::<Return>(seat, 0, FREE) == AWAITED {
            shared.wake_one(0);
        }
    }

    /// What the node is at one moment between the calls of all callers: a view of this node, whose
    /// incarnation and next numbers are at least the counts of the calls that this caller made. It
    /// is no call itself: it isn't counted, and needs no allowance. The memory for the copy is taken
    /// before the lock is, and filled under it, so the work there grows with the node's slots and
    /// places.
    pub fn copy_view<R: Wait>(
        &self,
        rt: &R,
        alloc: Global,
        caller: &mut Caller<S>,
    ) -> Result<View<S>, AllocError>
        requires own { caller.old.lock ≡ self.now }
        ensures whole { IfOk result (λ view. IsView view) }
        ensures of { IfOk result (λ view. fixed_of view ≡ fixed_of caller.old.start.view) }
        ensures numbers { IfOk result (λ view. CountsWithin (calls_at caller.old.tally) view) }
        ensures same { caller.new ≡ caller.old }
    {
        let room = ViewRoom::new(alloc, self.slots, self.pool_sizes.as_slice())?;
        self.take(rt, &mut caller.seat);
        let view = self.copy(alloc, room, &mut caller.seat);
        self.put_back(&mut caller.seat);
        view
    }
}
