//! The semaphore before a database of a node.
use ini_config::Settings;
use pg_ids::DatabaseNo;
use std::alloc::Global;
use std::collections::VecDeque;
use std::sync::atomic::{AtomicU64, Ordering};
use std::sync::{Arc, Mutex, Wait};

// The state of a client. While it waits for a permit, it is a multiple of `WAIT`, a different one
// for each wait, to which `ADMITTED` and `TOLD` may be added. `ADMITTED`: it was given a permit,
// and hasn't asked the node for a link yet.
pub(crate) const ADMITTED: u64 = 1;

// It has asked, or has no request.
pub(crate) const ASKED: u64 = 2;

// It waits in the node's queue. This includes the bit of `ASKED`.
pub(crate) const QUEUED: u64 = 3;

// It must ask at once, and another thread waits until it has.
pub(crate) const TOLD: u64 = 4;

const WAIT: u64 = 8;

// Added to the number of permits in use while only the holder of the queue's lock may change it.
const LOCKED: u64 = 1 << 32;

/// The state of a client, shared with the threads that give it a permit.
pub(crate) type State = Arc<AtomicU64, Global>;

/// The semaphore before a database. As long as nobody waits, a permit is acquired and released by
/// one atomic operation, without a lock.
#[derive(Drop)]
pub(crate) struct Semaphore {
    // The number of permits.
    permits: u64,
    // How many are in use. Clients that timed out count too, so it may exceed `permits`.
    used: AtomicU64,
    queue: Mutex<Queue>,
}

// The clients that wait.
#[derive(Drop)]
struct Queue {
    // Whether `LOCKED` is added to the number of permits in use.
    is_locked: bool,
    // How many clients with a permit wait in the node's queue.
    queued: usize,
    // The state of the next client that waits.
    next_wait: u64,
    // The clients that wait, in order, each with its state during this wait. An entry whose client
    // has another state by now is left from a wait that has ended.
    waiting: VecDeque<(State, u64)>,
}

impl Semaphore {
    /// A semaphore with all permits free.
    pub(crate) fn new(alloc: Global, settings: &Settings, database: DatabaseNo) -> Semaphore {
        let permits = match settings.database(database) {
            Some(entry) => u64::from(entry.pool_size),
            None => 0,
        };
        Semaphore {
            permits,
            used: AtomicU64::new(0),
            queue: Mutex::new(Queue {
                is_locked: false,
                queued: 0,
                next_wait: 0,
                waiting: VecDeque::new(alloc),
            }),
        }
    }

    /// Returns how many permits are in use.
    pub(crate) fn used(&self) -> u64 {
        self.used.load(Ordering::SeqCst) % LOCKED
    }

    /// Acquires a permit if one is free and nobody waits. Returns whether it did.
    #[inline(always)]
    pub(crate) fn try_acquire(&self) -> bool {
        let found = self.used.load(Ordering::SeqCst);
        found < self.permits && exchange(&self.used, found, found + 1)
    }

    /// Releases a permit if nobody waits. Returns whether it did.
    #[inline(always)]
    pub(crate) fn try_release(&self) -> bool {
        let found = self.used.load(Ordering::SeqCst);
        0 < found && found < LOCKED && exchange(&self.used, found, found - 1)
    }

    /// Acquires a permit, or adds the client to the queue and returns its state while it waits. If
    /// memory for the queue is refused, the client gets a permit without waiting.
    pub(crate) fn acquire<R: Wait>(&self, rt: &R, state: &State) -> Option<u64> {
        let mut queue = self.queue.lock(rt);
        self.begin(&mut queue);
        queue.forget_gone();
        let wait = if self.is_open(&queue) && queue.waiting.is_empty() {
            None
        } else {
            queue.push(state)
        };
        if wait.is_none() {
            state.store(ADMITTED, Ordering::SeqCst);
            self.add_one();
        }
        self.end(&mut queue);
        wait
    }

    /// Gives a client that has timed out a permit beyond the limit.
    pub(crate) fn acquire_late<R: Wait>(&self, rt: &R) {
        let mut queue = self.queue.lock(rt);
        self.begin(&mut queue);
        self.add_one();
        self.end(&mut queue);
    }

    /// Releases a permit. Returns the state of the client that gets it, if one does.
    pub(crate) fn release<R: Wait>(&self, rt: &R) -> Option<State> {
        let mut queue = self.queue.lock(rt);
        self.begin(&mut queue);
        if self.used() > 0 {
            self.used.fetch_sub(1, Ordering::SeqCst);
        }
        let next = self.next(&mut queue);
        self.end(&mut queue);
        next
    }

    /// Gives the first client that waits a permit, if one is free, and returns its state.
    pub(crate) fn admit_next<R: Wait>(&self, rt: &R) -> Option<State> {
        let mut queue = self.queue.lock(rt);
        self.begin(&mut queue);
        let next = self.next(&mut queue);
        self.end(&mut queue);
        next
    }

    /// Begins a wait in the node's queue: nobody is given a permit meanwhile.
    pub(crate) fn begin_node_wait<R: Wait>(&self, rt: &R) {
        let mut queue = self.queue.lock(rt);
        self.begin(&mut queue);
        queue.queued = queue.queued.saturating_add(1);
    }

    /// Ends a wait in the node's queue.
    pub(crate) fn end_node_wait<R: Wait>(&self, rt: &R) {
        let mut queue = self.queue.lock(rt);
        queue.queued = queue.queued.saturating_sub(1);
        self.end(&mut queue);
    }

    // Stops `try_acquire` and `try_release`: from now on a change needs the queue's lock.
    fn begin(&self, queue: &mut Queue) {
        if !queue.is_locked {
            queue.is_locked = true;
            self.used.fetch_add(LOCKED, Ordering::SeqCst);
        }
    }

    // Called before the queue's lock is released: if nobody waits, changes no longer need it.
    fn end(&self, queue: &mut Queue) {
        if queue.is_locked && queue.queued == 0 && queue.waiting.is_empty() {
            queue.is_locked = false;
            self.used.fetch_sub(LOCKED, Ordering::SeqCst);
        }
    }

    // Returns whether a permit may be given.
    fn is_open(&self, queue: &Queue) -> bool {
        queue.queued == 0 && self.used() < self.permits
    }

    // Counts one more permit as used.
    fn add_one(&self) {
        self.used.fetch_add(1, Ordering::SeqCst);
    }

    // Gives the first client that waits a permit, if one is free, and returns its state.
    fn next(&self, queue: &mut Queue) -> Option<State> {
        if !self.is_open(queue) {
            return None;
        }
        for _ in 0..queue.waiting.len() {
            let Some((state, wait)) = queue.waiting.pop_front() else {
                break;
            };
            if exchange(&state, wait, wait | ADMITTED) {
                self.add_one();
                return Some(state);
            }
        }
        None
    }
}

impl Queue {
    // Adds a client to the queue. Returns its state while it waits, or none if memory is refused.
    fn push(&mut self, state: &State) -> Option<u64> {
        let wait = self.next_wait;
        let waiting = Arc::try_clone(state).ok()?;
        if self.waiting.push_back((waiting, wait)).is_err() {
            return None;
        }
        self.next_wait = wait.wrapping_add(WAIT);
        state.store(wait, Ordering::SeqCst);
        Some(wait)
    }

    // Removes entries at the front whose waits have ended.
    fn forget_gone(&mut self) {
        for _ in 0..self.waiting.len() {
            match self.waiting.front() {
                Some(first) if first.0.load(Ordering::SeqCst) != first.1 => {}
                _ => return,
            }
            self.waiting.pop_front();
        }
    }
}

/// Replaces a value that is still as it was found. Returns whether it was.
#[inline(always)]
pub(crate) fn exchange(state: &AtomicU64, found: u64, new: u64) -> bool {
    state
        .compare_exchange(found, new, Ordering::SeqCst, Ordering::SeqCst)
        .is_ok()
}
