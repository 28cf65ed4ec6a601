//! Queues that are threaded both ways through two tables.
ghost use Rattle.std.specs.Prelude.{◌≡◌, ◌<◌, ℕ, [], true, IfOk, ◌≤◌, length, map, slice_get, slice_index, slice_set};
ghost use Rattle.slot_queues.specs.Queues.{times_in, others, behind, queue_of, empty_queues};
ghost use Rattle.slot_queues.specs.Rings.{IsApart};

use pg_ids::SlotNo;
use std::alloc::{AllocError, Global};
use std::marker::Model;

/// Queues of slots, by number. Each slot is in one of them at most, and there once.
///
/// Each slot below `slots` is a node, and so is each queue, behind them. A queue's node and the
/// slots that wait in it are a ring; a slot that waits nowhere is a ring by itself. `next` and
/// `prev` have by node its neighbours.
#[derive(Drop)]
pub struct SlotQueues {
    slots: usize,
    next: Vec<usize>,
    prev: Vec<usize>,
}

impl Model for SlotQueues {
    ghost use Rattle.slot_queues.specs.Queues.{Queues};
    ghost use Rattle.slot_queues.specs.Rings.{queues_in, IsTied};

    ghost Value = { Queues };

    ghost view = { λ q. record { slots = q.slots; queues = queues_in q.next.items q.slots } };

    ghost invariant = { λ q.
        IsTied q.next.items q.prev.items q.slots (queues_in q.next.items q.slots) };
}

impl SlotQueues {
    /// `queues` queues for the slots below `slots`, in which nobody waits. Takes all the memory
    /// that they need.
    pub fn new(alloc: Global, queues: usize, slots: u32) -> Result<SlotQueues, AllocError>
        ensures { IfOk result (λ all. all ≡ empty_queues queues slots) }
    {
        let slots = slots as usize;
        let nodes = slots.checked_add(queues).ok_or(AllocError)?;
        let mut next = vec![in alloc; 0; nodes]?;
        let mut prev = vec![in alloc; 0; nodes]?;
        part(&mut next);
        part(&mut prev);
        Ok(SlotQueues { slots, next, prev })
    }

    /// The slot that has waited longest in a queue.
    pub fn first(&self, queue: usize) -> Option<SlotNo>
        requires { queue < length self.now.queues }
        ensures first { result ≡ slice_get (queue_of self.now.queues queue) 0 }
        ensures once { (slot : ℕ) → times_in slot self.now.queues ≤ 1 }
    {
        let node = self.next[self.slots + queue];
        if node < self.slots {
            Some(SlotNo(node as u16))
        } else {
            None
        }
    }

    /// A slot that waits nowhere waits in a queue, behind all others.
    pub fn push(&mut self, queue: usize, slot: SlotNo)
        requires queue { queue < length self.old.queues }
        requires slot { slot < self.old.slots }
        requires waits_nowhere { times_in slot self.old.queues ≡ 0 }
        ensures { self.new ≡ record self.old {
          queues = slice_set self.old.queues queue (behind slot (queue_of self.old.queues queue));
        } }
    {
        let last = self.prev[self.slots + queue];
        exchange(&mut self.next, &mut self.prev, last, slot.get() as usize);
    }

    /// A slot no longer waits, where it did.
    pub fn remove(&mut self, slot: SlotNo)
        requires { slot < self.old.slots }
        ensures { self.new ≡ record self.old { queues = map (others slot) self.old.queues } }
    {
        if self.is_alone(slot) {
            return;
        }
        self.take_out(slot);
    }

    // Whether a slot's ring has only itself, so that it waits nowhere.
    fn is_alone(&self, slot: SlotNo) -> bool
        requires { slot < self.now.slots }
        ensures { result ≡ true → map (others slot) self.now.queues ≡ self.now.queues }
    {
        let node = slot.get() as usize;
        self.prev[node] == node
    }

    // A slot leaves the ring that it is in.
    fn take_out(&mut self, slot: SlotNo)
        requires { slot < self.old.slots }
        ensures { self.new ≡ record self.old { queues = map (others slot) self.old.queues } }
    {
        let node = slot.get() as usize;
        let before = self.prev[node];
        exchange(&mut self.next, &mut self.prev, before, node);
    }

    /// Nobody waits.
    pub fn clear(&mut self)
        ensures { self.new ≡ empty_queues (length self.old.queues) self.old.slots }
    {
        part(&mut self.next);
        part(&mut self.prev);
    }
}

// Each node leads to itself.
fn part(nodes: &mut Vec<usize>)
    ensures { IsApart (length nodes.old.items) nodes.new.items }
{
    for node in 0..nodes.len() {
        nodes[node] = node;
    }
}

// Two nodes exchange those that follow them: two rings become one, or one becomes two.
fn exchange(next: &mut Vec<usize>, prev: &mut Vec<usize>, a: usize, b: usize)
    requires a { a < length next.old.items }
    requires b { b < length next.old.items }
    requires behind_a { slice_index next.old.items a < length prev.old.items }
    requires behind_b { slice_index next.old.items b < length prev.old.items }
    ensures next { next.new.items ≡ slice_set
        (slice_set next.old.items a (slice_index next.old.items b))
        b (slice_index next.old.items a) }
    ensures prev { prev.new.items ≡ slice_set
        (slice_set prev.old.items (slice_index next.old.items b) a)
        (slice_index next.old.items a) b }
{
    let behind_a = next[a];
    let behind_b = next[b];
    next[a] = behind_b;
    next[b] = behind_a;
    prev[behind_b] = a;
    prev[behind_a] = b;
}
