//! The links that clients ask for, open, and give back.
ghost use Rattle.std.specs.Prelude.{◌≡◌, Some, IfOk, OnErr, slice_get};
ghost use Rattle.world.specs.declared.event.Event.TheVariants as event;
ghost use Rattle.world.specs.Admissible.{Admissible};
ghost use Rattle.world.specs.Facts.{Facts};
ghost use Rattle.link_pool.specs.declared.place.{Place.Place as PlaceValue, Link.Link as LinkValue};
ghost use Rattle.world.specs.World.{Backend};
ghost use Rattle.world.specs.Changes.{with_session, holding};
ghost use Rattle.world.specs.Leased.{HasProcess};
ghost use Rattle.world.specs.LinkEvents.{IsLeased};
ghost use Rattle.world.specs.WorldRun.{WorldStep};

use super::replies::{closing, failing, releasing};
use super::{Opening, State};
use crate::memory::Memory;
use crate::numbers::{BackendNo, Label};
use crate::reply::{Reply, Took};
use crate::servers::server_of;
use crate::session::{Hand, Session};
use link_pool::Place;
use node_core::{AcquireReply, LinkRecord, UpReply};
use pg_ids::ServerKey;

impl State {
    /// A client asks for a link of its database.
    pub fn acquire(&mut self, label: Label) -> Took
        requires { Facts self.old }
        ensures { WorldStep (event.Acquire label) result self.old self.new }
    {
        let Some(idle) = self.idle(label) else {
            return Took::Skipped;
        };
        let session = &idle.session;
        match self.nodes.acquire(session.node, session.pass) {
            AcquireReply::Got(lease) => {
                let at = self.process_of(&lease);
                self.backends.hold(at, label);
                self.put_in_hand(idle.place, session, Hand::Lease(lease, at, 0));
                Took::Done(Reply::Got(at))
            }
            AcquireReply::Open(permit) => {
                self.put_in_hand(idle.place, session, Hand::Permit(permit));
                Took::Done(Reply::Open)
            }
            AcquireReply::Waiting => Took::Done(Reply::Waiting),
            AcquireReply::Cancelled => Took::Done(Reply::Cancelled),
            AcquireReply::Exhausted => Took::Done(Reply::Exhausted),
            AcquireReply::Stale => Took::Done(Reply::Stale),
            AcquireReply::Holding => unreachable!(),
        }
    }

    // The server process of a link that a node has.
    fn process_of(&self, lease: &LinkRecord) -> BackendNo
        requires { HasProcess self.now lease.now }
        ensures { (backend : Backend) × IsLeased self.now.backends lease.now result backend }
    {
        let Some(core) = self.nodes.get(lease.peer) else {
            unreachable!()
        };
        let Some(key) = server_key(&core.links().place(lease.at)) else {
            unreachable!()
        };
        let Some(server) = server_of(&self.group, lease.peer, lease.at.database) else {
            unreachable!()
        };
        let Some(at) = self.backends.find(server, key) else {
            unreachable!()
        };
        at
    }

    // The client of a session has something else in hand.
    pub(super) fn put_in_hand(&mut self, place: usize, session: &Session, hand: Hand)
        requires { slice_get self.old.sessions place ≡ Some session.now }
        ensures { self.new ≡ with_session place (holding hand session.now) self.old }
    {
        self.sessions.set(place, session.holding(hand));
    }

    /// The link that a client may open is open, and its server cancels by this key.
    pub fn up(&mut self, label: Label, key: ServerKey) -> Result<Took, Memory>
        requires { Facts self.old }
        ensures step { IfOk result (λ took. WorldStep (event.Up label key) took self.old self.new) }
        ensures err { OnErr result (self.new ≡ self.old) }
        ensures may { OnErr result (Admissible self.old (event.Up label key)) }
    {
        let Some(opening) = self.opening(label) else {
            return Ok(Took::Skipped);
        };
        let Opening {
            place,
            session,
            permit,
        } = opening;
        let Some(server) = server_of(&self.group, session.node, session.database) else {
            return Ok(Took::Skipped);
        };
        let None = self.backends.find(server, key) else {
            return Ok(Took::Skipped);
        };
        self.backends.reserve()?;
        let at = BackendNo(self.backends.len() as u64);
        match self.nodes.up(session.node, permit, key) {
            UpReply::Up(lease) => {
                let lease = &lease;
                self.backends.push(server, key, Some(*lease), Some(label));
                self.put_in_hand(place, &session, Hand::Lease(*lease, at, 0));
                Ok(Took::Done(Reply::Lease(at)))
            }
            UpReply::Exhausted(_, ()) => {
                self.backends.push(server, key, None, None);
                Ok(Took::Done(Reply::Exhausted))
            }
            UpReply::Stale(()) => {
                self.backends.push(server, key, None, None);
                self.put_in_hand(place, &session, Hand::Empty);
                Ok(Took::Done(Reply::Stale))
            }
            UpReply::AtEnd(()) => unreachable!(),
        }
    }

    /// The link that a client may open can't be opened.
    pub fn up_failed(&mut self, label: Label) -> Took
        requires { Facts self.old }
        ensures { WorldStep (event.UpFailed label) result self.old self.new }
    {
        let Some(opening) = self.opening(label) else {
            return Took::Skipped;
        };
        let session = &opening.session;
        let reply = self.nodes.up_failed(session.node, opening.permit);
        self.put_in_hand(opening.place, session, Hand::Empty);
        Took::Done(failing(reply))
    }

    /// A client gives its link back.
    pub fn release(&mut self, label: Label) -> Took
        requires { Facts self.old }
        ensures { WorldStep (event.Release label) result self.old self.new }
    {
        let Some(held) = self.held(label) else {
            return Took::Skipped;
        };
        if held.hand.outstanding > 0 {
            return Took::Skipped;
        }
        let session = &held.session;
        let reply = self.nodes.release(session.node, held.hand.lease);
        self.put_in_hand(held.place, session, Hand::Empty);
        Took::Done(releasing(reply))
    }

    /// A client closes its link.
    pub fn close(&mut self, label: Label) -> Took
        requires { Facts self.old }
        ensures { WorldStep (event.Close label) result self.old self.new }
    {
        let Some(held) = self.held(label) else {
            return Took::Skipped;
        };
        let session = &held.session;
        let reply = self.nodes.close(session.node, held.hand.lease);
        self.put_in_hand(held.place, session, Hand::Empty);
        Took::Done(closing(reply))
    }
}

// The server key of the link at a place, if there is one.
fn server_key(place: &Option<Place>) -> Option<ServerKey>
    ensures { (link : LinkValue) → place.now ≡ Some (PlaceValue.Link link)
        → result ≡ Some link.key }
{
    match place {
        Some(Place::Link(link)) => Some(link.key),
        _ => None,
    }
}
