//! Clients that log in, and leave.
ghost use Rattle.std.specs.Prelude.{◌≡◌, ◌<◌, ◌≤◌, ◌^◌, IfSome, IfNone, IfOk, IfErr, length};
ghost use Rattle.pg_ids.specs.declared.any_key.Kind.TheVariants.{Long};
ghost use Rattle.node_core.specs.declared.exchange.Exchange.TheVariants as call;
ghost use Rattle.node_core.specs.declared.refusal.JoinRefusal.TheVariants as join;
ghost use Rattle.node_core.specs.NodeStep.{IsStep, IsPass, StalePass, HasSerial, part_of, serial_after};

use super::NodeCore;
use crate::client::Client;
use crate::exchange::LeaveReply;
use crate::refusal::JoinRefusal;
use lease::{Pass, PassRecord};
use link_pool::NextNumber;
use pg_ids::{DatabaseNo, Kind, LongPart, Secret, Serial};

impl<S: Drop> NodeCore<S> {
    // The client of a pass that is its slot's.
    pub(super) fn client_of(&self, pass: &PassRecord) -> Option<Client>
        ensures found { IfSome result (λ client. IsPass self.now.view pass.now client) }
        ensures stale { IfNone result (StalePass self.now.view pass.now) }
    {
        let client = self.client(pass.key.slot())?;
        let is_own = pass.key.peer() == self.me && pass.incarnation == self.links.incarnation();
        if is_own && client.pass == pass.number {
            Some(client)
        } else {
            None
        }
    }

    // What the next key of this kind has behind its first eight bytes.
    fn next_part(&self, kind: Kind) -> Result<Option<LongPart>, JoinRefusal>
        ensures part { IfOk result (λ part. part ≡ part_of kind self.now.view) }
        ensures left { IfOk result (λ _. HasSerial kind self.now.view.next_serial) }
        ensures none { IfErr result (λ refusal. (refusal ≡ join.Exhausted) × (kind ≡ Long)
            × (self.now.view.next_serial ≡ 2 ^ 64)) }
    {
        match kind {
            Kind::Short => Ok(None),
            Kind::Long => match self.next_serial.peek() {
                Some(serial) => Ok(Some(LongPart::new(self.boot, Serial(serial)))),
                None => Err(JoinRefusal::Exhausted),
            },
        }
    }

    /// A client of this database logs in: the next slot becomes live with this secret, and the key
    /// is of this kind.
    pub fn join(
        &mut self,
        database: DatabaseNo,
        secret: Secret,
        kind: Kind,
    ) -> Result<Pass, JoinRefusal>
        requires { database < length self.old.view.pools }
        ensures step { IsStep (call.Join database secret kind result) self.old self.new }
        ensures streams { self.new.stored ≡ self.old.stored }
    {
        let Some(slot) = self.keys.next_slot() else {
            return Err(JoinRefusal::Full);
        };
        let part = self.next_part(kind)?;
        let Some(number) = self.next_pass.give() else {
            return Err(JoinRefusal::Exhausted);
        };
        advance(&mut self.next_serial, kind);
        let Ok(key) = self.keys.issue(secret, part) else {
            return Err(JoinRefusal::Full);
        };
        let client = Client {
            database,
            pass: number,
        };
        self.clients[slot.get() as usize] = Some(client);
        Ok(Pass::new(PassRecord {
            key,
            incarnation: self.links.incarnation(),
            number,
        }))
    }

    /// The client of a pass leaves, if it has no link and no permit: its slot is free again. A link
    /// that it gave back and that is still quarantined stays so until its last cancel request ends.
    pub fn leave(&mut self, pass: Pass) -> LeaveReply<Pass>
        ensures step { IsStep (call.Leave pass result) self.old self.new }
        ensures streams { self.new.stored ≡ self.old.stored }
    {
        let details = pass.details();
        let Some(_client) = self.client_of(&details) else {
            pass.spend();
            return LeaveReply::Stale;
        };
        let slot = details.key.slot();
        match self.links.leave(slot) {
            link_pool::LeaveReply::Holding => LeaveReply::Holding(pass),
            link_pool::LeaveReply::Left => {
                pass.spend();
                self.keys.retire(slot);
                self.clients[slot.get() as usize] = None;
                LeaveReply::Left
            }
        }
    }
}

// A key of this kind was issued: a long one has the next serial.
fn advance(serials: &mut NextNumber, kind: Kind)
    requires { HasSerial kind serials.old }
    ensures next { serials.new ≡ serial_after kind serials.old }
    ensures within { serials.old ≤ 2 ^ 64 → serials.new ≤ 2 ^ 64 }
{
    match kind {
        Kind::Short => {}
        Kind::Long => {
            let _serial = serials.give();
        }
    }
}
