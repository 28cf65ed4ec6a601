//! A node that serves connections.
use crate::Dialer;
use crate::metrics::Census;
use node_threads::{Calling, Context, Open, serve_connection};
use pg_frames::MessageLimit;
use sockets::{ClientStream, Connection, Consoles, LinkStream, Machine};
use std::alloc::{AllocError, AllocFailed, Global};
use std::sync::{Mutex, Wait};
use telemetry::Meter;

/// A node that serves connections, with its free callers. A caller's totals are large, so callers
/// are boxed.
#[derive(Drop)]
pub struct Serving<M: Machine> {
    first: Mutex<Box<Calling<LinkStream<M>>>>,
    free: Mutex<Vec<Box<Calling<LinkStream<M>>>>>,
    // Callers for cancel requests, if no other can be made.
    reserve: Mutex<Vec<Box<Calling<LinkStream<M>>>>>,
    dialer: Dialer<M>,
    // The sessions on its console.
    consoles: Consoles,
    // The maximum length of a message.
    limit: MessageLimit,
}

impl<M: Machine> Serving<M> {
    /// Returns a node with its first caller, its dialer, and the maximum length of a message.
    pub fn new(
        alloc: Global,
        first: Box<Calling<LinkStream<M>>>,
        dialer: Dialer<M>,
        limit: MessageLimit,
    ) -> Serving<M> {
        Serving {
            first: Mutex::new(first),
            free: Mutex::new(Vec::new(alloc)),
            reserve: Mutex::new(Vec::new(alloc)),
            dialer,
            consoles: Consoles::new(),
            limit,
        }
    }

    /// Returns the count of the sessions on its console.
    pub fn consoles(&self) -> &Consoles {
        &self.consoles
    }

    /// Returns the node's number.
    pub fn number(&self) -> u16 {
        self.dialer.number()
    }

    /// Returns the meter of a new connection to the node.
    pub fn meter(&self) -> Meter {
        self.dialer.meter()
    }

    /// Returns the present states of its clients and links, and how many cancel requests there were.
    pub fn census<R: Wait>(&self, rt: &R, alloc: Global) -> Result<Census, AllocError> {
        let mut calling = self.take(rt, alloc).ok_or(AllocError)?;
        let pools = calling.census(rt, alloc);
        let cancels = calling.cancels(rt);
        self.give_back(rt, calling);
        Ok(Census {
            pools: pools?,
            cancels,
        })
    }

    /// Returns a caller for a connection, if one is free or can be made.
    pub fn take<R: Wait>(&self, rt: &R, alloc: Global) -> Option<Box<Calling<LinkStream<M>>>> {
        if let Some(calling) = self.free.lock(rt).pop() {
            return Some(calling);
        }
        self.make(rt, alloc)
    }

    /// Returns a caller that is kept for cancel requests, if there is one.
    pub fn take_reserved<R: Wait>(&self, rt: &R) -> Option<Box<Calling<LinkStream<M>>>> {
        self.reserve.lock(rt).pop()
    }

    /// Makes callers until this many are free and one is kept for cancel requests, or until no more
    /// can be made. So threads that serve connections need no stack space for making one.
    pub fn stock<R: Wait>(&self, rt: &R, alloc: Global, callers: usize) {
        if self.reserve.lock(rt).is_empty() {
            if let Some(calling) = self.make(rt, alloc) {
                let _ = self.reserve.lock(rt).push(calling);
            }
        }
        let free = self.free.lock(rt).len();
        for _ in free..callers {
            let Some(calling) = self.make(rt, alloc) else {
                return;
            };
            self.give_back(rt, calling);
        }
    }

    #[inline(never)]
    fn make<R: Wait>(&self, rt: &R, alloc: Global) -> Option<Box<Calling<LinkStream<M>>>> {
        let calling = self.first.lock(rt).split()?;
        Box::new(alloc, calling).ok()
    }

    /// Serves a connection until nothing is held for its client any more.
    pub fn serve<R: Wait>(
        &self,
        rt: &R,
        alloc: Global,
        mut calling: Box<Calling<LinkStream<M>>>,
        connection: &Connection,
        client: &mut ClientStream<'_, M>,
    ) {
        let opener = self.dialer.on_behalf(connection);
        let reports = self.dialer.reports();
        let context = Context { rt, gate: &Open };
        let limit = &self.limit;
        serve_connection(
            context,
            alloc,
            &mut calling,
            &opener,
            reports,
            limit,
            client,
        );
        self.give_back(rt, calling);
        opener.finish(client.is_given_up());
    }

    /// Keeps a caller for the next connection, or for the next cancel request if none is kept for
    /// that. Drops it if there is no memory for that.
    pub fn give_back<R: Wait>(&self, rt: &R, calling: Box<Calling<LinkStream<M>>>) {
        let has_reserve = !self.reserve.lock(rt).is_empty();
        let kept = if has_reserve {
            &self.free
        } else {
            &self.reserve
        };
        if let Err(failed) = kept.lock(rt).push(calling) {
            discard(failed);
        }
    }
}

// Drops a caller for which there was no memory. It isn't inlined, so that a connection's thread uses
// stack space for a caller's totals only then.
#[cold]
#[inline(never)]
fn discard<M: Machine>(failed: AllocFailed<Box<Calling<LinkStream<M>>>>) {
    drop(failed);
}
