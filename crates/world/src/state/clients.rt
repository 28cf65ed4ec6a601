//! Clients that log in and leave, and new starts of nodes.
ghost use Rattle.std.specs.Prelude.{◌≡◌, ◌↔◌, ◌<◌, ◌^◌, IfOk, OnErr, IsTrue};
ghost use Rattle.key_table.specs.Slots.{first_key};
ghost use Rattle.world.specs.declared.event.Event.TheVariants as event;
ghost use Rattle.world.specs.Admissible.{Admissible, IsNewSecret, MayLogIn};
ghost use Rattle.world.specs.Facts.{AreWhole, Facts};
ghost use Rattle.world.specs.WorldRun.{WorldStep};

use super::State;
use crate::memory::Memory;
use crate::numbers::Label;
use crate::ranges::{key_in_range, secret_in_range};
use crate::reply::{Reply, Took};
use crate::request::{Issue, Start};
use crate::session::{Hand, Session};
use node_core::{DatabaseNo, LeaveReply, RestartReply};
use pg_ids::{AnyKey, Boot, ClientKey, Hops, Kind, PeerNo, Secret, SlotNo};

impl State {
    /// A new client logs in.
    pub fn login(
        &mut self,
        node: PeerNo,
        label: Label,
        database: DatabaseNo,
        secret: Secret,
        kind: Kind,
    ) -> Result<Took, Memory>
        requires { Facts self.old }
        ensures step { IfOk result (λ took.
            WorldStep (event.Login node label database secret kind) took self.old self.new) }
        ensures err { OnErr result (self.new ≡ self.old) }
        ensures may { OnErr result (Admissible self.old (event.Login node label database secret kind)) }
    {
        if !self.may_log_in(node, label, database, secret, kind) {
            return Ok(Took::Skipped);
        }
        self.sessions.reserve()?;
        self.issues.reserve()?;
        match self.nodes.join(node, database, secret, kind) {
            Ok(pass) => {
                self.issues.push(Issue {
                    node,
                    incarnation: pass.incarnation,
                    identity: pass.key.identity(),
                    label,
                });
                self.sessions.push(Session {
                    label,
                    node,
                    database,
                    pass,
                    stays: true,
                    hand: Hand::Empty,
                });
                Ok(Took::Done(Reply::Key(pass.key)))
            }
            Err(refusal) => Ok(Took::Done(Reply::JoinRefused(refusal))),
        }
    }

    // Whether no session ever had the label, the node has the database, and it gives no key twice.
    fn may_log_in(
        &self,
        node: PeerNo,
        label: Label,
        database: DatabaseNo,
        secret: Secret,
        kind: Kind,
    ) -> bool
        requires { Facts self.now }
        ensures may { IsTrue result ↔ MayLogIn self.now node label database secret kind }
        // What is true of every node.
        ensures whole { IsTrue result → AreWhole self.now.nodes }
        ensures range { secret < 2 ^ 32 }
    {
        secret_in_range(secret);
        let Some(core) = self.nodes.get(node) else {
            return false;
        };
        self.sessions.find(label).is_none()
            && (database.get() as usize) < core.pool_sizes().len()
            && self.is_new_secret(node, core.next_slot(), secret, kind)
    }

    // Whether the short key that a client with this secret would get in the next slot is new.
    fn is_new_secret(&self, node: PeerNo, next: Option<SlotNo>, secret: Secret, kind: Kind) -> bool
        requires { Facts self.now }
        ensures { IsTrue result ↔ IsNewSecret self.now.issues node kind secret next }
    {
        match (kind, next) {
            (Kind::Short, Some(slot)) => {
                key_in_range(node, slot, secret);
                let key = first_key(node, slot, secret);
                match self.issues.find(AnyKey::Short(key).identity()) {
                    Some(_) => false,
                    None => true,
                }
            }
            _ => true,
        }
    }

    /// A client leaves.
    pub fn leave(&mut self, label: Label) -> Took
        requires { Facts self.old }
        ensures { WorldStep (event.Leave label) result self.old self.new }
    {
        let Some(idle) = self.idle(label) else {
            return Took::Skipped;
        };
        let session = &idle.session;
        let reply = match self.nodes.leave(session.node, session.pass) {
            LeaveReply::Left => Reply::Left,
            LeaveReply::Stale => Reply::Stale,
            LeaveReply::Holding(_) | LeaveReply::Exhausted => unreachable!(),
        };
        self.sessions.set(idle.place, session.gone());
        Took::Done(reply)
    }

    /// A node starts anew.
    pub fn restart(&mut self, node: PeerNo, asked: Option<Boot>) -> Result<Took, Memory>
        ensures step { IfOk result
            (λ took. WorldStep (event.Restart node asked) took self.old self.new) }
        ensures err { OnErr result (self.new ≡ self.old) }
        ensures may { OnErr result (Admissible self.old (event.Restart node asked)) }
    {
        let Some(_) = self.nodes.get(node) else {
            return Ok(Took::Skipped);
        };
        let Some(boot) = self.starts.next(node, asked) else {
            return Ok(Took::Skipped);
        };
        self.starts.reserve()?;
        match self.nodes.restart(node, boot) {
            RestartReply::Restarted => {
                self.starts.push(Start { node, boot });
                Ok(Took::Done(Reply::Done))
            }
            RestartReply::Exhausted => Ok(Took::Done(Reply::Exhausted)),
        }
    }
}

// The short key of a client with this secret in this slot.
fn first_key(node: PeerNo, slot: SlotNo, secret: Secret) -> ClientKey
    ensures { result ≡ first_key node slot secret }
{
    ClientKey::new(node, slot, secret, Hops::MAX)
}
