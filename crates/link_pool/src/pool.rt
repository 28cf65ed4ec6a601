//! The pools of a node, and the parts of its steps that change them.
ghost use Rattle.std.specs.Prelude.{replicate, ◌≡◌, ◌<◌, true, Some, IfOk, length, map, slice_get};
ghost use Rattle.link_pool.specs.declared.place.Claim.TheVariants as claim;
ghost use Rattle.link_pool.specs.Entries.{stream_of, freed};
ghost use Rattle.link_pool.specs.Pool.{place_at, free_at, keep};
ghost use Rattle.link_pool.specs.Stacks.{top};
ghost use Rattle.link_pool.specs.OnePlace.{IsPool};
ghost use Rattle.link_pool.specs.PoolStep.{fresh, RestartStep};
ghost use Rattle.link_pool.specs.Parts.{is_taken, with_client, Stores};
ghost use Rattle.link_pool.specs.Streams.{AreStored, NothingStored, RestartStreams};

mod asking;
mod links;
mod tickets;

use crate::database_links::DatabaseLinks;
use crate::entry::Entry;
use crate::next_number::NextNumber;
use crate::place::{Claim, Place};
use crate::place_room::PlaceRoom;
use crate::replies::RestartReply;
use lease::{LinkPlace, PermitRecord};
use pg_ids::{PeerNo, SlotNo};
use slot_queues::SlotQueues;
use std::alloc::{AllocError, Global};
use std::marker::Model;

/// The links of one pooler, and what each of its clients has of them.
#[derive(Drop)]
pub struct Pool<S> {
    peer: PeerNo,
    incarnation: u64,
    pools: Vec<DatabaseLinks<S>>,
    queues: SlotQueues,
    claims: Vec<Claim>,
    next_link: NextNumber,
    next_permit: NextNumber,
    next_ticket: NextNumber,
}

impl<S> Model for Pool<S> {
    ghost use Rattle.std.specs.Prelude.{◌≡◌, length};
    ghost use Rattle.link_pool.specs.Streams.{PoolValue};
    ghost use Rattle.link_pool.specs.OnePlace.{IsPool};
    ghost use Rattle.link_pool.specs.PoolOf.{pool_of};

    ghost Value = { PoolValue S };

    ghost view = { pool_of };

    ghost invariant = { λ p. IsPool (pool_of p).view × (p.queues.slots ≡ length p.claims.items) };
}

impl<S: Drop> Pool<S> {
    /// The pools of the node with this number: one of each size, by database, for this number of
    /// slots, with no link. They take all the memory that they need.
    pub fn new(
        alloc: Global,
        me: PeerNo,
        pool_sizes: &[u16],
        slots: u32,
    ) -> Result<Pool<S>, AllocError>
        ensures view { IfOk result (λ pool. pool.view ≡ fresh me pool_sizes.now slots) }
        ensures streams { IfOk result (λ pool. NothingStored pool.stored) }
    {
        let mut pools = Vec::with_capacity(alloc, pool_sizes.len())?;
        for &size in pool_sizes {
            pools.push_reserved(DatabaseLinks::new(alloc, size)?);
        }
        let queues = SlotQueues::new(alloc, pool_sizes.len(), slots)?;
        let claims = vec![in alloc; Claim::Nothing; slots as usize]?;
        Ok(Pool {
            peer: me,
            incarnation: 0,
            pools,
            queues,
            claims,
            next_link: NextNumber::new(),
            next_permit: NextNumber::new(),
            next_ticket: NextNumber::new(),
        })
    }

    /// What is at a place, where there is such a place.
    pub fn place(&self, at: LinkPlace) -> Option<Place>
        ensures value { result ≡ place_at self.now.view at }
        ensures whole { IsPool self.now.view }
    {
        let pool = self.pools.get(at.database.get() as usize)?;
        pool.place(at.index)
    }

    /// What the client of a slot has, where there is such a slot.
    pub fn claim(&self, slot: SlotNo) -> Option<Claim>
        ensures value { result ≡ slice_get self.now.view.claims slot }
        ensures whole { IsPool self.now.view }
    {
        self.claims.get(slot.get() as usize).copied()
    }

    /// How often the pools were started again, which their leases, permits and tickets carry.
    pub fn incarnation(&self) -> u64
        ensures value { result ≡ self.now.view.incarnation }
        ensures whole { IsPool self.now.view }
        ensures streams { AreStored self.now }
    {
        self.incarnation
    }

    /// What is at each place, by database, in memory that was taken before.
    pub fn places(&self, alloc: Global, room: PlaceRoom) -> Result<Vec<Vec<Place>>, AllocError>
        ensures { IfOk result (λ all. map (λ places. places.items) all.items
            ≡ map (λ pool. pool.places) self.now.view.pools) }
    {
        let PlaceRoom { mut all, mut rows } = room;
        all.clear();
        for database in 0..self.pools.len() {
            let row = rows.pop().unwrap_or(Vec::new(alloc));
            all.push(self.pools[database].places(row)?)?;
        }
        Ok(all)
    }

    /// What each client has, by slot, in memory that was taken before.
    pub fn claims(&self, room: Vec<Claim>) -> Result<Vec<Claim>, AllocError>
        ensures { IfOk result (λ claims. claims.items ≡ self.now.view.claims) }
    {
        let mut claims = room;
        claims.clear();
        claims.extend_from_slice(&self.claims)?;
        Ok(claims)
    }

    // What is at a place that a client has changes, and so what the client has.
    #[inline(always)]
    fn change(&mut self, at: &LinkPlace, slot: SlotNo, entry: Entry<S>)
        requires taken { is_taken (place_at self.old.view at.now) ≡ true }
        requires slot { slot < length self.old.view.claims }
        requires whole { IsPool (with_client self.old.view at.now slot entry) }
        ensures view { self.new.view ≡ with_client self.old.view at.now slot entry }
        ensures streams { Stores at.now (stream_of entry) self.old.stored self.new.stored }
        ensures whole { IsPool self.new.view }
    {
        self.claims[slot.get() as usize] = entry.claim(at);
        let pool = &mut self.pools[at.database.get() as usize];
        pool.put(at.index, entry);
    }

    // The place of a permit, the one of its database that is taken next, is kept for the client of
    // a slot.
    fn keep(&mut self, slot: SlotNo, permit: &PermitRecord)
        requires slot { slot < length self.old.view.claims }
        requires next { top (free_at self.old.view permit.now.at.database)
            ≡ Some permit.now.at.index }
        requires whole { IsPool (keep self.old.view slot permit.now) }
        ensures view { self.new.view ≡ keep self.old.view slot permit.now }
        ensures streams { self.new.stored ≡ self.old.stored }
        ensures whole { IsPool self.new.view }
    {
        self.claims[slot.get() as usize] = Claim::Open(permit.at);
        let pool = &mut self.pools[permit.at.database.get() as usize];
        pool.keep(permit.at.index, *permit, slot);
    }

    /// Starts the pools again, in the next incarnation, in which nobody has anything. The streams
    /// of idle and quarantined links are dropped; numbers go on.
    pub fn restart(&mut self) -> RestartReply
        ensures step { RestartStep result self.old.view self.new.view }
        ensures streams { RestartStreams result self.old.stored self.new.stored }
        ensures whole { IsPool self.new.view }
    {
        let Some(next) = self.incarnation.checked_add(1) else {
            return RestartReply::Exhausted;
        };
        empty_all(&mut self.pools);
        self.queues.clear();
        nothing_for_all(&mut self.claims);
        self.incarnation = next;
        RestartReply::Restarted
    }
}

// Empties each pool.
fn empty_all<S: Drop>(pools: &mut Vec<DatabaseLinks<S>>)
    ensures { pools.new.items ≡ map freed pools.old.items }
{
    for database in 0..pools.len() {
        let pool = &mut pools[database];
        pool.empty();
    }
}

// Nobody has anything.
fn nothing_for_all(claims: &mut Vec<Claim>)
    ensures { claims.new.items ≡ replicate (length claims.old.items) claim.Nothing }
{
    for slot in 0..claims.len() {
        claims[slot] = Claim::Nothing;
    }
}
