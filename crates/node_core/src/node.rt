//! A node: what can be read of its state, and its steps by subject.
ghost use Rattle.std.specs.Prelude.{◌≡◌, ◌<◌, ◌≤◌, None, IfOk, length, slice_get};
ghost use Rattle.link_pool.specs.Turns.{IsTurn};
ghost use Rattle.link_pool.specs.Streams.{NothingStored, AreStored, RestartStreams};
ghost use Rattle.node_core.specs.View.{IsView, IsFresh, client_at, links_of};
ghost use Rattle.node_core.specs.declared.exchange.Exchange.TheVariants as call;
ghost use Rattle.node_core.specs.NodeStep.{IsStep};

mod cancels;
mod clients;
mod links;

use crate::client::Client;
use ini_config::Settings;
use key_table::KeyTable;
use link_pool::{NextNumber, Pool, RestartReply};
use pg_ids::{Boot, DatabaseNo, PeerNo, SlotNo};
use std::alloc::{AllocError, Global};
use std::marker::Model;

/// A node's state, which changes by its steps alone. `S` is the stream of a link to a server. No
/// step takes memory.
#[derive(Drop)]
pub struct NodeCore<S> {
    me: PeerNo,
    peers: Vec<PeerNo>,
    pools: Vec<u16>,
    keys: KeyTable,
    clients: Vec<Option<Client>>,
    next_pass: NextNumber,
    boot: Boot,
    next_serial: NextNumber,
    links: Pool<S>,
}

impl<S> Model for NodeCore<S> {
    ghost use Rattle.node_core.specs.View.{NodeValue, IsNode};
    ghost use Rattle.node_core.specs.ViewOf.{node_of};

    ghost Value = { NodeValue S };

    ghost view = { node_of };

    ghost invariant = { λ v. IsNode (node_of v).view };
}

impl<S: Drop> NodeCore<S> {
    /// A node with these settings, at which nobody is logged in: its number, its peers and their
    /// order, the pool size of each database, and a slot for each client. Its long keys have this
    /// boot, which no other start of the node may have had. It takes all the memory that the node
    /// needs.
    pub fn new(alloc: Global, settings: &Settings, boot: Boot) -> Result<NodeCore<S>, AllocError>
        ensures fresh { IfOk result (λ core. IsFresh settings.now boot core.view) }
        ensures streams { IfOk result (λ core. NothingStored core.stored) }
    {
        let me = settings.peer_id();
        let limit = settings.max_client_conn();
        let pools = settings.pool_sizes(alloc)?;
        let links = Pool::new(alloc, me, &pools, limit)?;
        Ok(NodeCore {
            me,
            peers: settings.peer_numbers(alloc)?,
            pools,
            keys: KeyTable::new(alloc, me, limit)?,
            clients: vec![in alloc; None; limit as usize]?,
            next_pass: NextNumber::new(),
            boot,
            next_serial: NextNumber::new(),
            links,
        })
    }

    /// The node's own number.
    pub fn me(&self) -> PeerNo
        ensures { result ≡ self.now.view.me }
    {
        self.me
    }

    /// The numbers of its peers, in the order of its settings.
    pub fn peers(&self) -> &[PeerNo]
        ensures { result.now ≡ self.now.view.peers }
    {
        self.peers.as_slice()
    }

    /// The pool size of each database, by its place.
    pub fn pool_sizes(&self) -> &[u16]
        ensures { result.now ≡ self.now.view.pools }
    {
        self.pools.as_slice()
    }

    /// The number of times that the node was started anew, which its values carry.
    pub fn incarnation(&self) -> u64
        ensures value { result ≡ self.now.view.links.incarnation }
        // This is true of every node: a stream is stored exactly where a link is idle or
        // quarantined.
        ensures whole { IsView self.now.view }
        ensures streams { AreStored (links_of self.now) }
    {
        self.links.incarnation()
    }

    // Does nothing when it runs: it states what is true of every node, for a step or a view that
    // needs it. Of a field's type the checker knows only what a method of that type states.
    pub(crate) fn known(&self)
        ensures { IsView self.now.view }
    {
        self.incarnation();
    }

    /// The boot of its long keys.
    pub fn boot(&self) -> Boot
        ensures { result ≡ self.now.view.boot }
    {
        self.boot
    }

    /// How many slots it has.
    pub fn slots(&self) -> usize
        ensures { result ≡ length self.now.view.clients }
    {
        self.clients.len()
    }

    /// The slot that the next client gets, and none where each slot is live.
    pub fn next_slot(&self) -> Option<SlotNo>
        ensures { result ≡ self.now.view.keys.next }
    {
        self.keys.next_slot()
    }

    /// The client of a slot, and none where the slot isn't live.
    pub fn client(&self, slot: SlotNo) -> Option<Client>
        ensures { result ≡ client_at (slice_get self.now.view.clients slot) }
    {
        self.clients.get(slot.get() as usize).copied().flatten()
    }

    // The client of each live slot, by slot, in memory that was taken before.
    pub(crate) fn clients(
        &self,
        room: Vec<Option<Client>>,
    ) -> Result<Vec<Option<Client>>, AllocError>
        ensures { IfOk result (λ clients. clients.items ≡ self.now.view.clients) }
    {
        let mut clients = room;
        clients.clear();
        clients.extend_from_slice(&self.clients)?;
        Ok(clients)
    }

    /// The slot whose turn it is at a database: the first that waits for it, if a link is idle or a
    /// place is free; and none where there is no such database.
    pub fn turn(&self, database: DatabaseNo) -> Option<SlotNo>
        ensures turn { database < length self.now.view.pools
            → IsTurn database result self.now.view.links }
        ensures none { length self.now.view.pools ≤ database → result ≡ None }
    {
        if database.get() as usize >= self.pools.len() {
            return None;
        }
        self.links.turn(database)
    }

    /// The links, and what each client has of them.
    pub fn links(&self) -> &Pool<S>
        ensures { result.now ≡ links_of self.now }
    {
        &self.links
    }

    /// A new start: the next incarnation, in which nobody is logged in and no link is open. Its
    /// long keys have this boot, which no other start of the node may have had, and serials from 0.
    /// The streams of idle and quarantined links are dropped; other numbers go on.
    pub fn restart(&mut self, boot: Boot) -> RestartReply
        ensures step { IsStep (call.Restart boot result) self.old self.new }
        ensures streams { RestartStreams result self.old.stored self.new.stored }
    {
        match self.links.restart() {
            RestartReply::Restarted => {
                self.keys.clear();
                self.clients.fill(None);
                self.boot = boot;
                self.next_serial = NextNumber::new();
                RestartReply::Restarted
            }
            RestartReply::Exhausted => RestartReply::Exhausted,
        }
    }
}
