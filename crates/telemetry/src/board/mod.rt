//! What the sessions and the links of a node do at the moment.
mod client_row;
mod link_row;
mod moment;

pub use client_row::{ClientNames, ClientRow, ClientSight, ClientState};
pub use link_row::{LinkRow, LinkSight, LinkState};
use slab::Slab;
use std::alloc::{AllocError, Global};
use std::net::SocketAddr;
use std::sync::{Arc, Mutex, Wait};
use std::time::Duration;

/// The rows of a node's sessions and links. It is locked where a session or a link begins, where a
/// session ends, and by pages.
#[derive(Drop)]
pub struct Board {
    alloc: Global,
    rows: Mutex<Rows>,
}

// The rows. The row of a link that is gone is dropped when the next link is opened.
#[derive(Drop)]
struct Rows {
    clients: Slab<Arc<ClientRow, Global>>,
    links: Slab<Arc<LinkRow, Global>>,
}

impl Board {
    /// Returns a board without rows.
    pub fn new(alloc: Global) -> Board {
        Board {
            alloc,
            rows: Mutex::new(Rows {
                clients: Slab::new(alloc),
                links: Slab::new(alloc),
            }),
        }
    }

    /// Adds the row of a session. Returns it and its place, unless memory runs out.
    pub fn add_client<R: Wait>(
        &self,
        rt: &R,
        row: ClientRow,
    ) -> Option<(Arc<ClientRow, Global>, usize)> {
        let row = Arc::new(self.alloc, row).ok()?;
        let theirs = Arc::try_clone(&row).ok()?;
        let place = self.rows.lock(rt).clients.insert(row).ok()?;
        Some((theirs, place))
    }

    /// Removes the row of a session at this place.
    pub fn remove_client<R: Wait>(&self, rt: &R, place: usize) {
        let row = self.rows.lock(rt).clients.try_remove(place);
        drop(row);
    }

    /// Adds the row of a link, and drops those of links that are gone. Returns it, unless memory runs
    /// out.
    pub fn add_link<R: Wait>(&self, rt: &R, row: LinkRow) -> Option<Arc<LinkRow, Global>> {
        let row = Arc::new(self.alloc, row).ok()?;
        let theirs = Arc::try_clone(&row).ok()?;
        let mut rows = self.rows.lock(rt);
        rows.links.retain(|_place, row| is_there(row));
        rows.links.insert(row).ok()?;
        Some(theirs)
    }

    /// Returns the sessions.
    pub fn clients<R: Wait>(&self, rt: &R, now: Duration) -> Result<Vec<ClientSight>, AllocError> {
        let mut sights = Vec::new(self.alloc);
        let rows = self.rows.lock(rt);
        for (_place, row) in rows.clients.iter() {
            sights.push(row.sight(now))?;
        }
        Ok(sights)
    }

    /// Returns the links, each with the address of its client, if one has it and its address is known.
    pub fn links<R: Wait>(
        &self,
        rt: &R,
        now: Duration,
    ) -> Result<Vec<(LinkSight, Option<SocketAddr>)>, AllocError> {
        let mut sights = Vec::new(self.alloc);
        let rows = self.rows.lock(rt);
        for (_place, row) in rows.links.iter() {
            if is_there(row) {
                let sight = row.sight(now);
                sights.push((sight, rows.address_of(&sight, now)))?;
            }
        }
        Ok(sights)
    }

    /// Returns for how many microseconds the client has waited for a link that waits longest, or 0, for
    /// each of this many databases.
    pub fn oldest_waits<R: Wait>(
        &self,
        rt: &R,
        databases: usize,
        now: Duration,
    ) -> Result<Vec<u64>, AllocError> {
        let mut oldest = Vec::with_capacity(self.alloc, databases)?;
        for _ in 0..databases {
            oldest.push(0)?;
        }
        let rows = self.rows.lock(rt);
        for (_place, row) in rows.clients.iter() {
            note_wait(&mut oldest, &row.sight(now));
        }
        Ok(oldest)
    }
}

// Notes the wait of a client for its database, if none was longer.
fn note_wait(oldest: &mut [u64], sight: &ClientSight) {
    let (Some(database), Some(wait)) = (sight.names.database, sight.wait) else {
        return;
    };
    if let Some(longest) = oldest.get_mut(database) {
        *longest = wait.max(*longest);
    }
}

impl Rows {
    // Returns the address of the client of a link, if it is known.
    fn address_of(&self, link: &LinkSight, now: Duration) -> Option<SocketAddr> {
        let row = self.clients.get(link.client?)?;
        let sight = row.sight(now);
        if sight.process != link.process {
            return None;
        }
        sight.names.address
    }
}

// Whether another has the row too: its link.
fn is_there(row: &Arc<LinkRow, Global>) -> bool {
    Arc::strong_count(row) > 1
}
