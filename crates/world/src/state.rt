//! The state of a world, and its events by subject.
ghost use Rattle.std.specs.Prelude.{◌≡◌, ℕ, true, IfSome, IfNone, IfOk, OnErr};
ghost use Rattle.lease.specs.declared.link_record.LinkRecord.{LinkRecord};
ghost use Rattle.world.specs.World.{IsSession};
ghost use Rattle.world.specs.declared.session.Hand.TheVariants as hand;
ghost use Rattle.world.specs.Held.{IsHeld};
ghost use Rattle.world.specs.Admissible.{Admissible, HasInHand, HasPermit, NeedsRoom};
ghost use Rattle.world.specs.Facts.{AreWhole, Facts};
ghost use Rattle.world.specs.WorldRun.{IsNew, WorldStep};

mod arrivals;
mod clients;
mod forwarding;
mod interrupting;
mod links;
mod replies;
mod requests;
mod starting;

use crate::backends::Backends;
use crate::event::{Bytes, Event};
use crate::forwards::Forwards;
use crate::memory::Memory;
use crate::nodes::Nodes;
use crate::numbers::Label;
use crate::reply::Took;
use crate::request::{Arrival, Connection, Interrupt, Issue, Taken};
use crate::session::{InHand, Session};
use crate::starts::Starts;
use crate::table::{Found, Table};
use ini_config::Group;
use node_core::PermitRecord;
use starting::{in_range, starts_of};
use std::alloc::Global;
use std::marker::Model;

/// The group's settings, its nodes, and what is true of its clients, servers and cancel requests.
#[derive(Drop)]
pub(crate) struct State {
    alloc: Global,
    group: Group,
    nodes: Nodes,
    starts: Starts,
    issues: Table<Issue>,
    sessions: Table<Session>,
    backends: Backends,
    flights: Vec<Bytes>,
    arrivals: Vec<Arrival>,
    connections: Table<Connection>,
    forwards: Forwards,
    interrupts: Vec<Interrupt>,
    taken: Vec<Taken>,
}

impl Model for State {
    ghost use Rattle.world.specs.World.{World};

    ghost Value = { World };

    ghost view = { λ s. record {
      group = s.group;
      nodes = s.nodes;
      starts = s.starts.rows;
      issues = s.issues.rows;
      sessions = s.sessions.rows;
      backends = s.backends.rows;
      flights = s.flights.items;
      arrivals = s.arrivals.items;
      connections = s.connections.rows;
      forwards = s.forwards.rows;
      interrupts = s.interrupts.items;
      taken = s.taken.items;
    } };
}

/// A client that is there, with nothing in hand.
#[derive(Clone, Copy, Debug)]
struct Idle {
    place: usize,
    session: Session,
}

/// A client that has the permit to open a link.
#[derive(Clone, Copy, Debug)]
struct Opening {
    place: usize,
    session: Session,
    permit: PermitRecord,
}

/// A client that has a lease.
#[derive(Clone, Copy, Debug)]
struct Held {
    place: usize,
    session: Session,
    hand: InHand,
}

impl State {
    /// The state of a group in which nothing has happened.
    pub fn new(alloc: Global, group: Group) -> Result<State, Memory>
        ensures new { IfOk result (λ state. IsNew group state) }
        ensures facts { IfOk result (λ state. Facts state) }
    {
        in_range(group.nodes());
        let nodes = Nodes::new(alloc, &group)?;
        let starts = starts_of(alloc, &group)?;
        Ok(State {
            alloc,
            group,
            nodes,
            starts,
            issues: Table::new(alloc),
            sessions: Table::new(alloc),
            backends: Backends::new(alloc),
            flights: Vec::new(alloc),
            arrivals: Vec::new(alloc),
            connections: Table::new(alloc),
            forwards: Forwards::new(alloc),
            interrupts: Vec::new(alloc),
            taken: Vec::new(alloc),
        })
    }

    /// Does nothing when it runs: says what is true of every node, which a caller of other methods
    /// doesn't see.
    pub fn known(&self)
        ensures { AreWhole self.now.nodes }
    {
        self.nodes.len();
    }

    /// The interruptions, in their order.
    pub fn interrupts(&self) -> &[Interrupt]
        ensures { result.now ≡ self.now.interrupts }
    {
        self.interrupts.as_slice()
    }

    /// An event, which takes place exactly where it is admissible.
    #[tactic(auto, using(crate::proofs::Unnamed::skips_login, crate::proofs::Unnamed::skips_deliver, crate::proofs::Unnamed::skips_accept, crate::proofs::Unnamed::skips_restart))]
    pub fn apply(&mut self, event: &Event) -> Result<Took, Memory>
        requires { Facts self.old }
        ensures step { IfOk result (λ took. WorldStep event.now took self.old self.new) }
        ensures err { OnErr result (self.new ≡ self.old) }
        ensures may { OnErr result (NeedsRoom event.now × Admissible self.old event.now) }
    {
        match event {
            Event::Login(node, label, database, secret, kind) => match node.peer() {
                Some(node) => self.login(node, *label, *database, *secret, *kind),
                None => Ok(Took::Skipped),
            },
            Event::Acquire(label) => Ok(self.acquire(*label)),
            Event::Up(label, key) => self.up(*label, *key),
            Event::UpFailed(label) => Ok(self.up_failed(*label)),
            Event::Send(label) => self.send(*label),
            Event::Take(backend) => Ok(self.take(*backend)),
            Event::Finish(backend) => self.finish(*backend),
            Event::Ready(label) => Ok(self.ready(*label)),
            Event::Release(label) => Ok(self.release(*label)),
            Event::Close(label) => Ok(self.close(*label)),
            Event::Leave(label) => Ok(self.leave(*label)),
            Event::Put(bytes) => self.put(bytes),
            Event::Deliver(flight, node) => match node.peer() {
                Some(node) => self.deliver(*flight, node),
                None => Ok(Took::Skipped),
            },
            Event::Accept(flight, node) => match node.peer() {
                Some(node) => self.accept(*flight, node),
                None => Ok(Took::Skipped),
            },
            Event::ForwardEnded(flight) => Ok(self.end_forward(*flight)),
            Event::ForwardTold(flight) => Ok(self.tell_forward(*flight)),
            Event::ForwardBroken(flight) => Ok(self.break_forward(*flight)),
            Event::Act(connection) => self.act(*connection),
            Event::End(connection) => Ok(self.end(*connection)),
            Event::Told(connection) => Ok(self.told(*connection)),
            Event::Broken(connection) => Ok(self.broken(*connection)),
            Event::Restart(node, boot) => match node.peer() {
                Some(node) => self.restart(node, *boot),
                None => Ok(Took::Skipped),
            },
        }
    }

    // The client with this label, if it is there and has nothing in hand.
    fn idle(&self, label: Label) -> Option<Idle>
        ensures found { IfSome result
            (λ idle. IsSession self.now.sessions label idle.place idle.session) }
        ensures stays { IfSome result (λ idle. idle.session.stays ≡ true) }
        ensures hand { IfSome result (λ idle. idle.session.hand ≡ hand.Empty) }
        ensures none { IfNone result (HasInHand self.now label hand.Empty → ⊥) }
    {
        let Found {
            place,
            row: session,
        } = self.sessions.find(label)?;
        if !session.stays || !session.hand.is_empty() {
            return None;
        }
        Some(Idle { place, session })
    }

    // The client with this label, if it is there and has a permit.
    fn opening(&self, label: Label) -> Option<Opening>
        ensures found { IfSome result
            (λ opening. IsSession self.now.sessions label opening.place opening.session) }
        ensures stays { IfSome result (λ opening. opening.session.stays ≡ true) }
        ensures hand { IfSome result
            (λ opening. opening.session.hand ≡ hand.Permit opening.permit) }
        ensures none { IfNone result (HasPermit self.now label → ⊥) }
    {
        let Found {
            place,
            row: session,
        } = self.sessions.find(label)?;
        if !session.stays {
            return None;
        }
        let permit = session.hand.permit()?;
        Some(Opening {
            place,
            session,
            permit,
        })
    }

    // The client with this label, if it is there and has a lease.
    fn held(&self, label: Label) -> Option<Held>
        ensures found { IfSome result
            (λ held. IsSession self.now.sessions label held.place held.session) }
        ensures stays { IfSome result (λ held. held.session.stays ≡ true) }
        ensures hand { IfSome result
            (λ held. held.session.hand
            ≡ hand.Lease held.hand.lease held.hand.at held.hand.outstanding) }
        // It has no other.
        ensures only { (lease : LinkRecord) (at outstanding : ℕ)
            → HasInHand self.now label (hand.Lease lease at outstanding)
            → IsHeld at outstanding result }
    {
        let Found {
            place,
            row: session,
        } = self.sessions.find(label)?;
        if !session.stays {
            return None;
        }
        let hand = session.hand.lease()?;
        Some(Held {
            place,
            session,
            hand,
        })
    }
}
