//! How many clients and links of a node are in which state.
ghost use Rattle.std.specs.Prelude.{◌≡◌};
ghost use Rattle.node_threads.specs.Words.{AreRead};

use crate::Calling;
use link_pool::{Claim, LinkState, Place};
use node_core::{Client, LinkPlace, View};
use pg_ids::DatabaseNo;
use quarantine::HoldState;
use std::alloc::{AllocError, Global};
use std::sync::Wait;

/// How many clients and links of a database are in which state.
#[derive(Clone, Copy, Debug, PartialEq, Eq)]
pub struct PoolCensus {
    /// Its clients.
    pub clients: ClientCensus,
    /// Its links.
    pub links: LinkCensus,
}

/// How many clients of a database are in which state, as the console shows them.
#[derive(Clone, Copy, Debug, PartialEq, Eq)]
pub struct ClientCensus {
    /// Those that have no link and don't wait for one.
    pub none: u64,
    /// Those that wait for a link.
    pub waiting: u64,
    /// Those for which a link is opened.
    pub opening: u64,
    /// Those that have a link.
    pub link: u64,
}

/// How many links of a database are where.
#[derive(Clone, Copy, Debug, PartialEq, Eq)]
pub struct LinkCensus {
    /// Those that are opened.
    pub opening: u64,
    /// Those that nobody has.
    pub idle: u64,
    /// Those that a client has.
    pub held: u64,
    /// Those that a client has given back while a cancel request for them is in progress.
    pub quarantined: u64,
    /// Those of these three that are closed when they are given back, since a cancel failed.
    pub condemned: u64,
}

impl<L: Drop> Calling<L> {
    /// How many clients and links of each database are in which state at this moment, in the order
    /// of the settings. It copies the node as the console does, and makes no step of it.
    pub fn census<R: Wait>(&mut self, rt: &R, alloc: Global) -> Result<Vec<PoolCensus>, AllocError>
        ensures same { self.new.caller ≡ self.old.caller }
    {
        let node = &self.node;
        node.admission.tell_all_to_ask(rt);
        let databases = node.settings().database_count();
        let view = node.shared.copy_view(rt, alloc, &mut self.caller)?;
        let mut pools = Vec::with_capacity(alloc, databases)?;
        for place in 0..databases {
            let database = DatabaseNo(place as u8);
            pools.push(PoolCensus {
                clients: clients_of(view.clients(), view.claims(), database),
                links: links_of(&view, database),
            })?;
        }
        Ok(pools)
    }

    /// How many cancel requests there were of each kind, in the order in which the console shows
    /// them.
    pub fn cancels<R: Wait>(&self, rt: &R) -> [u64; 8]
        ensures read { AreRead result }
    {
        self.node.seats.words(rt)
    }
}

// The clients of a database, by their slots and what those have.
fn clients_of(clients: &[Option<Client>], claims: &[Claim], database: DatabaseNo) -> ClientCensus {
    let mut census = ClientCensus {
        none: 0,
        waiting: 0,
        opening: 0,
        link: 0,
    };
    for (client, claim) in clients.iter().zip(claims) {
        if let Some(client) = client {
            if client.database.0 == database.0 {
                census.add(claim);
            }
        }
    }
    census
}

impl ClientCensus {
    // One more, which has this.
    fn add(&mut self, claim: &Claim) {
        let count = match claim {
            Claim::Waiting(_) => &mut self.waiting,
            Claim::Open(_) => &mut self.opening,
            Claim::Link(_) => &mut self.link,
            Claim::Nothing | Claim::Cancelled | Claim::Gave(_) => &mut self.none,
        };
        *count = count.saturating_add(1);
    }
}

// The links of a database.
fn links_of<S: Drop>(view: &View<S>, database: DatabaseNo) -> LinkCensus {
    let mut census = LinkCensus {
        opening: 0,
        idle: 0,
        held: 0,
        quarantined: 0,
        condemned: 0,
    };
    for index in 0..=u16::MAX {
        let Some(place) = view.place(LinkPlace { database, index }) else {
            break;
        };
        census.add(&place);
    }
    census
}

impl LinkCensus {
    // One more place, at which this is.
    fn add(&mut self, place: &Place) {
        let link = match place {
            Place::Free => return,
            Place::Open(_, _) => {
                self.opening = self.opening.saturating_add(1);
                return;
            }
            Place::Link(link) => link,
        };
        if matches!(link.hold.state(), HoldState::Condemned) {
            self.condemned = self.condemned.saturating_add(1);
        }
        let count = match link.state {
            LinkState::Idle => &mut self.idle,
            LinkState::Held(_) => &mut self.held,
            LinkState::Quarantined(_) => &mut self.quarantined,
        };
        *count = count.saturating_add(1);
    }
}
