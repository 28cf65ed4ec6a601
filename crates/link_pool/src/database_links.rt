//! The links of one database: its places, and which of them are free or have an idle link.
ghost use Rattle.std.specs.Prelude.{vec_capacity, ◌≡◌, ◌≢◌, ◌<◌, ◌≤◌, ℕ, [], true, false, Some, IfSome, IfNone, IfOk, length, map, slice_get, option_map, replicate};
ghost use Rattle.link_pool.specs.declared.entry.Entry.{Entry as EntryOf};
ghost use Rattle.link_pool.specs.declared.entry.Entry.TheVariants as entry;
ghost use Rattle.link_pool.specs.Stacks.{put_on, top, under_top, all_places};
ghost use Rattle.link_pool.specs.Parts.{IsHeldIn, IsStaleIn};
ghost use Rattle.link_pool.specs.Entries.{place_of, idle_entry, free_entry, settled, leaving, stored_link, lent, ungiven, put_at, with_entry, freed, new_links, TakesIdle, IsQuarantined};

use crate::entry::{Entry, Held};
use crate::place::{LinkState, Place};
use lease::{Lease, LinkRecord, PermitRecord};
use pg_ids::SlotNo;
use quarantine::Hold;
use std::alloc::{AllocError, Global};
use std::marker::Model;

/// The links of one database. `free` has its free places and `idle` those with an idle link; the
/// last of each is taken next.
#[derive(Drop)]
pub(crate) struct DatabaseLinks<S> {
    entries: Vec<Entry<S>>,
    free: Vec<u16>,
    idle: Vec<u16>,
}

impl<S> Model for DatabaseLinks<S> {
    ghost use Rattle.std.specs.Prelude.{◌≤◌, vec_len, vec_capacity};
    ghost use Rattle.link_pool.specs.Entries.{Entries, idle_entry, free_entry};
    ghost use Rattle.link_pool.specs.Stacks.{IsStack};

    ghost Value = { Entries S };

    ghost view = { λ p. record { entries = p.entries.items; free = p.free.items } };

    ghost invariant = { λ p. (vec_len p.entries ≤ 65535) × (vec_len p.entries ≤ vec_capacity p.idle)
        × IsStack idle_entry p.entries.items p.idle.items
        × (vec_len p.entries ≤ vec_capacity p.free)
        × IsStack free_entry p.entries.items p.free.items };
}

// As many free places as the size.
fn free_places<S: Drop>(entries: &mut Vec<Entry<S>>, size: u16)
    requires none { entries.old.items ≡ [] }
    requires room { size ≤ vec_capacity entries.old }
    ensures { entries.new.items ≡ replicate size entry.Free }
{
    for _index in 0..size {
        entries.push_reserved(Entry::Free);
    }
}

// Puts all places of a pool of this size on the stack, of which the first is taken first.
fn stack_all(stack: &mut Vec<u16>, size: u16)
    requires none { stack.old.items ≡ [] }
    requires room { size ≤ vec_capacity stack.old }
    ensures places { stack.new.items ≡ all_places size }
    ensures capacity { vec_capacity stack.new ≡ vec_capacity stack.old }
{
    for index in (0..size).rev() {
        stack.push_reserved(index);
    }
}

impl<S: Drop> DatabaseLinks<S> {
    // As many free places as the size, at most 65,535. All the memory that the database needs is
    // taken here.
    pub(crate) fn new(alloc: Global, size: u16) -> Result<DatabaseLinks<S>, AllocError>
        ensures { IfOk result (λ links. links ≡ new_links size) }
    {
        let mut entries = Vec::with_capacity(alloc, size as usize)?;
        let mut free = Vec::with_capacity(alloc, size as usize)?;
        let idle = Vec::with_capacity(alloc, size as usize)?;
        free_places(&mut entries, size);
        stack_all(&mut free, size);
        Ok(DatabaseLinks {
            entries,
            free,
            idle,
        })
    }

    // Nothing is at any place. The streams of links that no client has are dropped.
    pub(crate) fn empty(&mut self)
        ensures { self.new ≡ freed self.old }
    {
        let size = self.entries.len() as u16;
        self.entries.clear();
        self.free.clear();
        self.idle.clear();
        free_places(&mut self.entries, size);
        stack_all(&mut self.free, size);
    }

    // What is at a place.
    pub(crate) fn place(&self, index: u16) -> Option<Place>
        ensures { result ≡ option_map place_of (slice_get self.now.entries index) }
    {
        let entry = self.entries.get(index as usize)?;
        Some(entry.place())
    }

    // The link of a lease with its client, if that client has it.
    #[inline(always)]
    pub(crate) fn held(&self, lease: &LinkRecord) -> Option<Held>
        ensures held { IfSome result (λ found. IsHeldIn lease.now found.link found.slot
            (option_map place_of (slice_get self.now.entries lease.now.at.index))) }
        ensures stale { IfNone result (IsStaleIn lease.now
            (option_map place_of (slice_get self.now.entries lease.now.at.index))) }
    {
        let Some(entry) = self.entries.get(lease.at.index as usize) else {
            return None;
        };
        entry.held(lease)
    }

    // The free place that is taken next, if one is free.
    pub(crate) fn next_free(&self) -> Option<u16>
        ensures next { result ≡ top self.now.free }
        ensures none { IfNone result ((i : ℕ) → free_entry (slice_get self.now.entries i) ≡ false) }
    {
        self.free.last().copied()
    }

    // The place of the idle link that is got next, if one is idle.
    pub(crate) fn next_idle(&self) -> Option<u16>
        ensures idle { IfSome result
            (λ index. idle_entry (slice_get self.now.entries index) ≡ true) }
        ensures none { IfNone result ((i : ℕ) → idle_entry (slice_get self.now.entries i) ≡ false) }
    {
        self.idle.last().copied()
    }

    // What is at each place, in memory that was taken before.
    pub(crate) fn places(&self, room: Vec<Place>) -> Result<Vec<Place>, AllocError>
        ensures { IfOk result (λ places. places.items ≡ map place_of self.now.entries) }
    {
        let mut places = room;
        places.clear();
        for index in 0..self.entries.len() {
            places.push(self.entries[index].place())?;
        }
        Ok(places)
    }

    // The place that is taken next is kept for the link that the client of a slot opens by a
    // permit.
    pub(crate) fn keep(&mut self, index: u16, permit: PermitRecord, slot: SlotNo)
        requires { top self.old.free ≡ Some index }
        ensures { self.new ≡ put_at index (entry.Open permit slot) under_top self.old }
    {
        let _index = self.free.pop();
        self.entries[index as usize] = Entry::Open { permit, slot };
    }

    // The client of a slot gets an idle link, if one is idle.
    pub(crate) fn take_idle(&mut self, slot: SlotNo) -> Option<Lease<S>>
        ensures taken { IfSome result (λ lease. TakesIdle slot lease self.old self.new) }
        ensures none { IfNone result ((i : ℕ) → idle_entry (slice_get self.old.entries i) ≡ false) }
        ensures same { IfNone result (self.new ≡ self.old) }
    {
        let Some(index) = self.idle.pop() else {
            return None;
        };
        let entry = &mut self.entries[index as usize];
        entry.lend_idle(slot)
    }

    // The client of a slot gets the quarantined link of a place. Its tickets stay open.
    pub(crate) fn take_back(&mut self, index: u16, slot: SlotNo) -> Option<Lease<S>>
        requires quarantined { IsQuarantined (slice_get self.old.entries index) }
        ensures { (was : EntryOf S) → slice_get self.old.entries index ≡ Some was
            → (result ≡ stored_link was) × (self.new ≡ with_entry index (lent slot was) self.old) }
    {
        let entry = &mut self.entries[index as usize];
        entry.lend(slot)
    }

    // The client has left that gave the quarantined link of a place back.
    pub(crate) fn forget_giver(&mut self, index: u16)
        requires quarantined { IsQuarantined (slice_get self.old.entries index) }
        ensures { (was : EntryOf S) → slice_get self.old.entries index ≡ Some was
            → self.new ≡ with_entry index (ungiven was) self.old }
    {
        let entry = &mut self.entries[index as usize];
        entry.forget_giver();
    }

    // This is at a place from now on, which wasn't free, and at which no idle link was.
    #[inline(always)]
    pub(crate) fn put(&mut self, index: u16, entry: Entry<S>)
        requires there { index < length self.old.entries }
        requires not_idle { idle_entry (slice_get self.old.entries index) ≡ false }
        requires not_free { free_entry (slice_get self.old.entries index) ≡ false }
        ensures { self.new ≡ with_entry index entry self.old }
    {
        let (is_idle, is_free) = (entry.is_idle(), entry.is_free());
        self.entries[index as usize] = entry;
        push_if(&mut self.idle, is_idle, index);
        push_if(&mut self.free, is_free, index);
    }

    // The link of a place, which isn't idle, has these tickets. The stream of a link that leaves
    // the place is returned.
    pub(crate) fn settle(&mut self, index: u16, hold: Hold) -> Option<S>
        requires there { index < length self.old.entries }
        requires not_idle { idle_entry (slice_get self.old.entries index) ≡ false }
        requires not_free { free_entry (slice_get self.old.entries index) ≡ false }
        ensures { (was : EntryOf S) → slice_get self.old.entries index ≡ Some was
            → (result ≡ leaving hold was)
            × (self.new ≡ with_entry index (settled hold was) self.old) }
    {
        let entry = &mut self.entries[index as usize];
        let stream = entry.settle(hold);
        let (is_idle, is_free) = (entry.is_idle(), entry.is_free());
        push_if(&mut self.idle, is_idle, index);
        push_if(&mut self.free, is_free, index);
        stream
    }
}

// A place is put on a stack, if it is of the stack's kind.
#[inline(always)]
fn push_if(stack: &mut Vec<u16>, is_of_kind: bool, index: u16)
    requires { is_of_kind ≡ true → length stack.old.items < vec_capacity stack.old }
    ensures places { stack.new.items ≡ put_on is_of_kind index stack.old.items }
    ensures capacity { vec_capacity stack.new ≡ vec_capacity stack.old }
{
    if is_of_kind {
        stack.push_reserved(index);
    }
}
