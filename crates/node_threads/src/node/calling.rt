//! A node that serves clients, and who calls it.
ghost use Rattle.std.specs.Prelude.{◌≡◌, ℕ, ◌<◌, ◌≤◌, length, slice_get, Some, IfOk, IfSome, IfNone};
ghost use Rattle.std.specs.Option.{ForSome};
ghost use Rattle.std.specs.Arc.{arc_value};
ghost use Rattle.locked_node.specs.Lock.{Splits};
ghost use Rattle.node_core.specs.View.{IsFresh};
ghost use Rattle.node_threads.specs.Balance.{BalancedByRestart};
ghost use Rattle.node_threads.specs.Restarting.{boot_after, RestartsAt};
ghost use Rattle.node_threads.specs.Secrets.{drawing_of, secret_at};

use crate::node::restarts::restart;
use crate::{Admission, Destination, Link, NodePlace, Seats, Secrets};
use ini_config::{Group, Settings};
use link_pool::RestartReply;
use locked_node::{Caller, Journal, Shared};
use node_core::NodeCore;
use pg_ids::{AnyKey, Boot, DatabaseNo, Secret};
use std::alloc::{AllocError, Global};
use std::sync::atomic::{AtomicU64, Ordering};
use std::sync::{Arc, Mutex, Wait};

/// What the threads of a node share.
#[derive(Drop)]
pub struct Node<L: Drop> {
    pub(crate) shared: Shared<Link<L>>,
    pub(crate) seats: Seats,
    pub(crate) admission: Admission,
    pub(crate) group: Arc<Group, Global>,
    pub(crate) place: usize,
    secrets: Secrets,
    // How many secrets were drawn.
    drawn: AtomicU64,
    boot: Mutex<Boot>,
    ghost listed: { place < length (arc_value group) },
}

impl<L: Drop> Node<L> {
    // The lock of a node with these settings, and its first caller.
    fn lock(
        alloc: Global,
        settings: &Settings,
        boot: Boot,
    ) -> Result<(Shared<Link<L>>, Caller<Link<L>>), AllocError>
        ensures own { IfOk result (λ made. made.1.lock ≡ made.0) }
        ensures fresh { IfOk result (λ made. IsFresh settings.now boot made.1.start.view) }
    {
        let core = NodeCore::new(alloc, settings, boot)?;
        Shared::new(alloc, Journal::new(alloc, core)?)
    }

    // A node at a place of its group, behind this lock. Its secrets are these.
    fn new(
        alloc: Global,
        at: NodePlace,
        secrets: Secrets,
        boot: Boot,
        shared: Shared<Link<L>>,
    ) -> Result<Node<L>, AllocError>
        ensures shared { IfOk result (λ node. node.shared ≡ shared) }
        ensures group { IfOk result (λ node. arc_value node.group ≡ at.group) }
        ensures place { IfOk result (λ node. node.place ≡ at.place) }
        ensures secrets { IfOk result (λ node. node.secrets ≡ secrets) }
    {
        let seats = Seats::new(alloc)?;
        let admission = Admission::new(alloc, at.settings())?;
        let NodePlace { group, place } = at;
        Ok(Node {
            shared,
            seats,
            admission,
            group,
            place,
            secrets,
            drawn: AtomicU64::new(0),
            boot: Mutex::new(boot),
        })
    }

    /// Its settings.
    pub fn settings(&self) -> &Settings
        ensures { slice_get (arc_value self.now.group) self.now.place ≡ Some result.now }
    {
        &self.group.nodes()[self.place]
    }

    /// Where a cancel request with this key goes, as far as its slot tells: to this node's client
    /// there, or to another pooler.
    pub(crate) fn destination<R: Wait>(&self, rt: &R, key: AnyKey, is_own: bool) -> Destination {
        if !is_own {
            return Destination::Peer(key.peer());
        }
        match self.admission.database(rt, key.slot()) {
            Some(database) => Destination::Server(self.first_at_server_of(database)),
            None => Destination::Nowhere,
        }
    }

    // The first database that has the same server as this one.
    fn first_at_server_of(&self, database: DatabaseNo) -> DatabaseNo {
        let settings = self.settings();
        let Some(entry) = settings.database(database) else {
            return database;
        };
        for place in 0..settings.database_count() {
            let first = DatabaseNo(place as u8);
            if let Some(other) = settings.database(first) {
                if other.port == entry.port && other.host == entry.host {
                    return first;
                }
            }
        }
        database
    }

    /// The secret for a login, which no other login gets until 2^64 were drawn.
    pub(crate) fn secret(&self) -> Secret
        ensures { (number : ℕ) × (result ≡ secret_at self.now.secrets number) }
    {
        self.secrets.at(self.drawn.fetch_add(1, Ordering::SeqCst))
    }
}

/// A node, with who calls it. A thread that serves a connection has one of its own.
#[derive(Drop)]
pub struct Calling<L: Drop> {
    pub(crate) node: Arc<Node<L>, Global>,
    pub(crate) caller: Caller<Link<L>>,
    ghost own: { caller.lock ≡ (arc_value node).shared },
    ghost databases: { ForSome (slice_get (arc_value (arc_value node).group) (arc_value node).place)
        (λ settings. length settings.databases ≤ length caller.start.view.pools) },
}

impl<L: Drop> Calling<L> {
    /// The node at this place of its group, without clients and links, with its first caller. Its
    /// secrets are drawn from the seed.
    pub fn new(
        alloc: Global,
        at: NodePlace,
        seed: [u8; 32],
        boot: Boot,
    ) -> Result<Calling<L>, AllocError>
        // The node is new: it has the settings of its place, and this boot.
        ensures fresh { IfOk result (λ calling. ForSome (slice_get at.group at.place)
            (λ settings. IsFresh settings boot calling.caller.start.view)) }
        // It serves with the settings of its place.
        ensures group { IfOk result (λ calling.
            arc_value (arc_value calling.node).group ≡ at.group) }
        ensures place { IfOk result (λ calling. (arc_value calling.node).place ≡ at.place) }
        // Its secrets are those of the seed and of its number.
        ensures seeded { IfOk result (λ calling. ForSome (slice_get at.group at.place)
            (λ settings. (arc_value calling.node).secrets ≡ drawing_of seed settings.peer_id)) }
    {
        let settings = at.settings();
        let (shared, caller) = Node::lock(alloc, settings, boot)?;
        let secrets = Secrets::new(seed, settings.peer_id());
        let node = Node::new(alloc, at, secrets, boot, shared)?;
        let node = Arc::new(alloc, node)?;
        Ok(Calling { node, caller })
    }

    /// Another caller of the same node, for 2^64 calls. There is none where memory is refused, or
    /// if this one has no more calls than that left.
    pub fn split(&mut self) -> Option<Calling<L>>
        ensures same { arc_value self.new.node ≡ arc_value self.old.node }
        ensures none { IfNone result (self.new.caller ≡ self.old.caller) }
        ensures some { IfSome result (λ part. (arc_value part.node ≡ arc_value self.old.node)
            × Splits self.old.caller self.new.caller part.caller) }
    {
        let Ok(node) = Arc::try_clone(&self.node) else {
            return None;
        };
        let caller = self.caller.split(&node.shared)?;
        Some(Calling { node, caller })
    }

    /// The calls that were made here.
    pub fn caller(&self) -> &Caller<Link<L>>
        ensures { result.now ≡ self.now.caller }
    {
        &self.caller
    }

    /// The node.
    pub fn node(&self) -> &Node<L>
        ensures { result.now ≡ arc_value self.now.node }
    {
        &self.node
    }

    /// Starts the node anew with its next boot, if the process has one left.
    pub fn restart<R: Wait>(&mut self, rt: &R) -> RestartReply
        ensures restarts { (boot now : ℕ)
            × RestartsAt (boot_after boot) boot self.old.caller result now self.new.caller }
        ensures balanced { BalancedByRestart self.old.caller self.new.caller }
    {
        let mut boot = self.node.boot.lock(rt);
        restart(rt, &self.node.shared, &mut self.caller, &mut boot)
    }
}
