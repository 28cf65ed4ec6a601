//! A semaphore before each database of a node: it has as many permits as the pool has places, and
//! a client needs one to ask for a link.
//!
//! A node's queue reserves a released link for the client that waits first, so the link would be
//! unused until that client's thread has woken up. So clients wait here, where a client that
//! finishes wakes the next one, and those with a permit ask in any order. While one of them waits
//! in the node's queue all the same, no permit is given. A client without a permit asks after 200
//! milliseconds, or at once for a cancel request or the console. No contract depends on this.
use crate::semaphore::{ADMITTED, ASKED, QUEUED, Semaphore, State, TOLD, exchange};
use ini_config::Settings;
use pg_ids::{DatabaseNo, SlotNo};
use std::alloc::{AllocError, Global};
use std::sync::atomic::{AtomicU64, Ordering};
use std::sync::{Arc, Mutex, Wait};
use std::time::Duration;

// How many milliseconds a client waits for a permit.
const TIMEOUT: u64 = 200;

// A thread that tells a client to ask waits this many milliseconds until it has asked, at most
// `TRIES` times, and tries as often to tell a client whose state changes meanwhile.
const ASKING: u64 = 20;

const TRIES: u64 = 5;

// How often it waits if it has a cancel request for the client, which ends without effect if the
// client hasn't asked.
const CANCEL_TRIES: u64 = 50;

/// The semaphores before a node's databases, and the states and databases of its clients by slot.
#[derive(Drop)]
pub struct Admission {
    semaphores: Vec<Semaphore>,
    clients: Mutex<Vec<Option<Known>>>,
}

// What is known of a client.
#[derive(Drop)]
struct Known {
    state: State,
    database: DatabaseNo,
}

/// A client's access to the semaphore before its database.
#[derive(Drop)]
pub struct Entrance<'a> {
    semaphore: &'a Semaphore,
    state: State,
}

impl Admission {
    /// Semaphores for the databases of these settings, with all permits free.
    pub fn new(alloc: Global, settings: &Settings) -> Result<Admission, AllocError> {
        let mut semaphores = Vec::new(alloc);
        for place in 0..settings.database_count() {
            let database = DatabaseNo(place as u8);
            semaphores.push(Semaphore::new(alloc, settings, database))?;
        }
        let slots = settings.max_client_conn() as usize;
        let mut clients = Vec::with_capacity(alloc, slots)?;
        for _ in 0..slots {
            clients.push(None)?;
        }
        Ok(Admission {
            semaphores,
            clients: Mutex::new(clients),
        })
    }

    /// Returns how many permits of a database are in use.
    pub fn used(&self, database: DatabaseNo) -> usize {
        match self.semaphores.get(database.get() as usize) {
            Some(semaphore) => semaphore.used() as usize,
            None => 0,
        }
    }

    /// Makes the client of a slot ask for a link at once, if it waits for a permit, and waits until
    /// it has asked, for a second at most.
    pub fn tell_to_ask<R: Wait>(&self, rt: &R, slot: SlotNo) {
        self.tell_and_wait(rt, slot, CANCEL_TRIES);
    }

    /// Makes all clients that wait for a permit ask for a link at once, one after another, and
    /// waits until each has asked, for 100 milliseconds at most.
    pub fn tell_all_to_ask<R: Wait>(&self, rt: &R) {
        for slot in 0..=u16::MAX {
            if slot as usize >= self.clients.lock(rt).len() {
                return;
            }
            self.tell_and_wait(rt, SlotNo(slot), TRIES);
        }
    }

    // Makes the client of a slot ask for a link at once, if it waits for a permit, and waits this
    // many times until it has asked.
    fn tell_and_wait<R: Wait>(&self, rt: &R, slot: SlotNo, tries: u64) {
        if let Some(state) = self.client(rt, slot) {
            if tell(&state) {
                await_asked(rt, &state, tries);
            }
        }
    }

    // Returns the state of the client of a slot.
    fn client<R: Wait>(&self, rt: &R, slot: SlotNo) -> Option<State> {
        let clients = self.clients.lock(rt);
        let known = clients.get(slot.get() as usize)?.as_ref()?;
        Arc::try_clone(&known.state).ok()
    }

    /// Returns the database of the client of a slot, if there is one.
    pub fn database<R: Wait>(&self, rt: &R, slot: SlotNo) -> Option<DatabaseNo> {
        let clients = self.clients.lock(rt);
        let known = clients.get(slot.get() as usize)?.as_ref()?;
        Some(known.database)
    }

    /// Removes the client of a slot, whose session ends.
    pub fn forget<R: Wait>(&self, rt: &R, slot: SlotNo) {
        self.set_client(rt, slot, None);
    }

    // Sets what is known of the client of a slot.
    fn set_client<R: Wait>(&self, rt: &R, slot: SlotNo, known: Option<Known>) {
        let mut clients = self.clients.lock(rt);
        if let Some(client) = clients.get_mut(slot.get() as usize) {
            *client = known;
        }
    }
}

impl<'a> Entrance<'a> {
    /// The access of the client of a slot to a database, if the node has that database.
    pub fn new<R: Wait>(
        rt: &R,
        alloc: Global,
        admission: &'a Admission,
        slot: SlotNo,
        database: DatabaseNo,
    ) -> Result<Entrance<'a>, AllocError> {
        let Some(semaphore) = admission.semaphores.get(database.get() as usize) else {
            return Err(AllocError);
        };
        let state = Arc::new(alloc, AtomicU64::new(ASKED))?;
        let known = Known {
            state: Arc::try_clone(&state)?,
            database,
        };
        admission.set_client(rt, slot, Some(known));
        Ok(Entrance { semaphore, state })
    }

    /// Acquires a permit if one is free and nobody waits. Returns whether it did.
    #[inline(always)]
    pub fn try_enter(&self) -> bool {
        self.semaphore.try_acquire()
    }

    /// Acquires a permit; waits for it for 200 milliseconds at most, and then goes on with one
    /// beyond the limit. Returns whether it waited.
    #[inline(never)]
    pub fn enter<R: Wait>(&self, rt: &R) -> bool {
        let Some(wait) = self.semaphore.acquire(rt, &self.state) else {
            return false;
        };
        self.sleep(rt, wait);
        let found = self.state.fetch_or(ADMITTED, Ordering::SeqCst);
        if found & ADMITTED == 0 {
            self.semaphore.acquire_late(rt);
        }
        true
    }

    // Sleeps until the client's state changes or the time is over. A late wake-up of an earlier
    // wait may end the first sleep, so there is a second.
    fn sleep<R: Wait>(&self, rt: &R, wait: u64) {
        for _ in 0..2u32 {
            if self.state.load(Ordering::SeqCst) != wait {
                return;
            }
            let limit = Duration::from_millis(TIMEOUT / 2);
            self.state.park_timeout(rt, low_half(wait), limit);
        }
    }

    /// Returns whether [`Entrance::asked`] must be called once the client has asked: it waited for
    /// its permit, or waits in the node's queue.
    #[inline(always)]
    pub fn needs_asked(&self) -> bool {
        self.state.load(Ordering::SeqCst) != ASKED
    }

    /// Records that the client has asked for a link, and whether it must wait in the node's queue.
    /// Wakes the threads that made it ask. If its wait in that queue has ended, gives others
    /// permits.
    #[inline(never)]
    pub fn asked<R: Wait>(&self, rt: &R, is_waiting: bool) {
        self.tell_asked();
        if self.is_queued() && !is_waiting {
            self.leave_queue(rt);
        }
    }

    #[inline(never)]
    fn tell_asked(&self) {
        if has_asked(self.state.load(Ordering::SeqCst)) {
            return;
        }
        let found = self.state.swap(ASKED, Ordering::SeqCst);
        if found & TOLD != 0 {
            self.state.wake_all();
        }
    }

    /// Records that the client, which has asked, waits in the node's queue: no permit is given
    /// until its wait has ended.
    pub fn queue<R: Wait>(&self, rt: &R) {
        if exchange(&self.state, ASKED, QUEUED) {
            self.semaphore.begin_node_wait(rt);
        }
    }

    // Returns whether the client waits in the node's queue.
    fn is_queued(&self) -> bool {
        self.state.load(Ordering::SeqCst) == QUEUED
    }

    // Ends the client's wait in the node's queue, and gives others permits.
    #[inline(never)]
    fn leave_queue<R: Wait>(&self, rt: &R) {
        self.state.store(ASKED, Ordering::SeqCst);
        self.semaphore.end_node_wait(rt);
        for _ in rt.forever() {
            match self.semaphore.admit_next(rt) {
                Some(state) => state.wake_all(),
                None => return,
            }
        }
        unreachable!()
    }

    /// Releases the client's permit if nobody waits for it or for the client to ask. Returns
    /// whether it did.
    #[inline(always)]
    pub fn try_leave(&self) -> bool {
        !self.needs_asked() && self.semaphore.try_release()
    }

    /// Releases the client's permit, and wakes the next client.
    #[inline(never)]
    pub fn leave<R: Wait>(&self, rt: &R) {
        self.asked(rt, false);
        if let Some(state) = self.semaphore.release(rt) {
            state.wake_all();
        }
    }
}

// Makes a client ask at once, if it waits for a permit or has one and hasn't asked. Returns whether
// it will ask.
fn tell(state: &AtomicU64) -> bool {
    for _ in 0..TRIES {
        let found = state.load(Ordering::SeqCst);
        if has_asked(found) {
            return false;
        }
        if found & TOLD != 0 {
            return true;
        }
        if exchange(state, found, found | TOLD) {
            state.wake_all();
            return true;
        }
    }
    false
}

// Returns whether a client in this state has asked, or has no request.
fn has_asked(state: u64) -> bool {
    state & ASKED != 0
}

// The half of a state that is compared before a thread sleeps.
fn low_half(state: u64) -> u32 {
    (state % (1 << 32)) as u32
}

// Waits until a client that must ask has asked, this many times at most.
fn await_asked<R: Wait>(rt: &R, state: &AtomicU64, tries: u64) {
    for _ in 0..tries {
        let found = state.load(Ordering::SeqCst);
        if found & TOLD == 0 {
            return;
        }
        state.park_timeout(rt, low_half(found), Duration::from_millis(ASKING));
    }
}
