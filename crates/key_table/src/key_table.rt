//! The table: a slab with an entry for each live slot, under the slot's number.
ghost use Rattle.std.specs.Prelude.{◌≡◌, ◌≤◌, ◌↔◌, Option, None, Some, IsErr, IfOk, OnErr, length, replicate, slice_set, if◌then◌else◌};
ghost use Rattle.slab.specs.Slab.{HasRoomFor};
ghost use Rattle.pg_ids.specs.AnyKey.{slot_of};
ghost use Rattle.key_table.specs.Slots.{Slots, names, IsNext, IsFree, IsLive, Issues, Frees};
ghost use Rattle.key_table.specs.Live.{slots_of, IsTable};

use crate::entry::{Entry, Issued};
use crate::refusal::Full;
use pg_ids::{AnyKey, ClientKey, Hops, LongPart, PeerNo, Secret, SlotNo};
use slab::Slab;
use std::alloc::{AllocError, Global};
use std::marker::Model;

/// The slots of one pooler.
#[derive(Debug, Drop)]
pub struct KeyTable {
    peer: PeerNo,
    live: Slab<Entry>,
}

impl Model for KeyTable {
    ghost use Rattle.key_table.specs.Slots.{Slots};
    ghost use Rattle.key_table.specs.Live.{slots_of, next_of, IsTable};

    ghost Value = { Slots };

    ghost view = { λ t. record {
      peer = t.peer;
      entries = slots_of t.live;
      next = next_of t.live;
    } };

    ghost invariant = { λ t. IsTable t.live };
}

impl KeyTable {
    /// A table of `limit` slots, 1 to 65,536, each of them free. It takes all the memory that the
    /// table needs.
    pub fn new(alloc: Global, peer: PeerNo, limit: u32) -> Result<KeyTable, AllocError>
        requires some { 1 ≤ limit }
        requires within { limit ≤ 65536 }
        ensures peer { IfOk result (λ t. t.peer ≡ peer) }
        ensures free { IfOk result (λ t. t.entries ≡ replicate limit None) }
        ensures next { IfOk result (λ t. IsNext t.entries t.next) }
    {
        let live = Slab::with_capacity(alloc, limit as usize)?;
        // The slab may take more room than it is asked for, and each place is a slot.
        if live.capacity() != limit as usize {
            return Err(AllocError);
        }
        Ok(KeyTable { peer, live })
    }

    /// The slot that `issue` gives next, and none where each slot is live.
    pub fn next_slot(&self) -> Option<SlotNo>
        ensures value { result ≡ self.now.next }
        ensures free { IsNext self.now.entries result }
    {
        if self.live.len() < self.live.capacity() {
            Some(SlotNo(self.live.vacant_key() as u16))
        } else {
            None
        }
    }

    /// Makes the next slot live with this secret, and returns its key, with all its hops: a long
    /// one if a long key's part is given.
    pub fn issue(&mut self, secret: Secret, long: Option<LongPart>) -> Result<AnyKey, Full>
        // No slot is free exactly where there is no next one.
        ensures full { IsErr result ↔ (self.old.next ≡ None) }
        ensures was_next { IsNext self.old.entries self.old.next }
        ensures issued { IfOk result (λ key. Issues self.old secret long key self.new) }
        ensures live { IfOk result (λ key. IsLive self.new (slot_of key)) }
        ensures next { IsNext self.new.entries self.new.next }
        ensures err { OnErr result (self.new ≡ self.old) }
    {
        let Some(slot) = self.next_slot() else {
            return Err(Full);
        };
        let first = ClientKey::new(self.peer, slot, secret, Hops::MAX);
        let issued = Issued::new(first, long);
        fill_next(&mut self.live, issued.entry);
        Ok(issued.key)
    }

    /// The slot that the key names: the peer is this table's, and the slot is live with a key of
    /// this kind, this secret and, if the key is long, this part.
    #[tactic(auto, using(crate::proofs::Tables::opened_at))]
    pub fn find(&self, key: &AnyKey) -> Option<SlotNo>
        ensures { result ≡ (if names self.now key.now then Some (slot_of key.now) else None) }
    {
        let short = key.short();
        let entry = self.live.get(short.slot.get() as usize).copied()?;
        if short.peer == self.peer && entry.opens(key) {
            Some(short.slot)
        } else {
            None
        }
    }

    /// Frees a live slot, and no other.
    pub fn retire(&mut self, slot: SlotNo)
        requires { IsLive self.old slot }
        ensures freed { Frees self.old slot self.new }
        ensures next { IsNext self.new.entries self.new.next }
    {
        self.live.remove(slot.get() as usize);
    }

    /// Each slot is free again, as in a new table. It takes no memory.
    pub fn clear(&mut self)
        ensures peer { self.new.peer ≡ self.old.peer }
        ensures free { self.new.entries ≡ replicate (length self.old.entries) None }
        ensures next { IsNext self.new.entries self.new.next }
    {
        self.live.clear();
    }
}

// Stores the entry in the next slot. If a slot is left, it also inserts a dummy entry there and
// removes it again: `IsTable` says that the next key is within the capacity and free, and the slab's
// contracts say this of a key only once `insert_reserved` has returned it.
fn fill_next(live: &mut Slab<Entry>, entry: Entry)
    requires table { IsTable live.old }
    requires room { HasRoomFor live.old 1 }
    ensures table { IsTable live.new }
    ensures filled { slots_of live.new
        ≡ slice_set (slots_of live.old) live.old.vacant_key (Some entry) }
{
    live.insert_reserved(entry);
    if live.len() == live.capacity() {
        return;
    }
    let next = live.insert_reserved(Entry::Short(Secret(0)));
    live.remove(next);
}
