//! The calls of a client: it logs in, leaves, and asks for a link.
ghost use Rattle.std.specs.Prelude.{◌≡◌, ◌<◌, [], length, Err};
ghost use Rattle.link_pool.specs.Said.{acquire_said};
ghost use Rattle.link_pool.specs.Streams.{AcquireStreams};
ghost use Rattle.link_pool.specs.declared.replies.AcquireReply.TheVariants as acquire;
ghost use Rattle.locked_node.specs.Journal.{Puts};
ghost use Rattle.locked_node.specs.Without.{without_said};
ghost use Rattle.locked_node.specs.Totals.{IsCountOf};
ghost use Rattle.locked_node.specs.Waking.{database_at, database_of, woken_by};
ghost use Rattle.lease.specs.LinkValue.{LinkValue};
ghost use Rattle.lease.specs.declared.permit.PermitRecord.{PermitRecord as PermitRecordOf};
ghost use Rattle.link_pool.specs.declared.replies.AcquireReply.{AcquireReply as AcquireReplyOf};
ghost use Rattle.node_core.specs.declared.exchange.Exchange.TheVariants as call;
ghost use Rattle.node_core.specs.declared.exchange.LeaveReply.TheVariants as leave;
ghost use Rattle.node_core.specs.declared.refusal.JoinRefusal.TheVariants as join;

use crate::call::Call;
use crate::call_answer::CallAnswer;
use crate::call_note::CallNote;
use crate::log::Log;
use crate::numbers::{push_any_key, push_link, push_pass, push_permit};
use node_core::{
    AcquireReply, DatabaseNo, Exchange, JoinRefusal, Lease, LeaveReply, NodeCore, Pass, PassRecord,
    Permit,
};
use pg_ids::{Kind, Secret};

// The database of the client of a pass, whether that is stale or not.
#[inline(always)]
fn client_database<S: Drop>(core: &NodeCore<S>, pass: &Pass) -> Option<DatabaseNo>
    ensures { result ≡ database_at core.now.view pass.now }
{
    match core.client(pass.details().key.slot()) {
        Some(client) => Some(client.database),
        None => None,
    }
}

/// A client of this database logs in, with this secret, and asks for a key of this kind.
#[derive(Drop)]
pub struct Join(pub DatabaseNo, pub Secret, pub Kind);

impl<S: Drop> Call<S> for Join {
    type Reply = Result<Pass, JoinRefusal>;

    type Details = (DatabaseNo, Secret, Kind);

    ghost handed = { λ made. (made.0, made.1, made.2) };

    ghost exchange = { λ made reply. call.Join made.0 made.1 made.2 reply };

    ghost can_make = { λ pools made. made.0 < length pools };

    ghost at_end = { λ _. Err join.Exhausted };

    #[inline(always)]
    fn details(&self) -> Self::Details {
        (self.0, self.1, self.2)
    }

    #[inline(always)]
    fn make(self, core: &mut NodeCore<S>) -> Self::Reply {
        core.join(self.0, self.1, self.2)
    }

    #[inline(always)]
    fn database(&self, _core: &NodeCore<S>) -> Option<DatabaseNo> {
        None
    }

    #[inline(always)]
    fn record(details: &Self::Details, reply: &Self::Reply, log: &mut Log, note: &mut CallNote) {
        let (database, secret, kind) = details;
        match reply {
            Ok(pass) => {
                let pass = pass.details();
                log.put(&Exchange::Join(*database, *secret, *kind, Ok(pass)));
                note.begin(CallAnswer::Joined, *kind);
                push_pass(&mut note.numbers, &pass);
                note.numbers.push(u64::from(database.get()));
                note.numbers.push(u64::from(secret.get()));
                push_any_key(&mut note.numbers, &pass.key);
            }
            Err(refusal) => {
                let answer = match refusal {
                    JoinRefusal::Full => CallAnswer::JoinFull,
                    JoinRefusal::Exhausted => CallAnswer::JoinExhausted,
                };
                log.put(&Exchange::Join(*database, *secret, *kind, Err(*refusal)));
                note.begin(answer, *kind);
                note.numbers.push(u64::from(database.get()));
                note.numbers.push(u64::from(secret.get()));
            }
        }
    }

    fn forfeit(self) -> Self::Reply {
        Err(JoinRefusal::Exhausted)
    }
}

/// The client of a pass leaves.
pub struct Leave(pub Pass);

impl<S: Drop> Call<S> for Leave {
    type Reply = LeaveReply<Pass>;

    type Details = PassRecord;

    ghost handed = { λ made. made.0 };

    ghost exchange = { λ made reply. call.Leave made reply };

    ghost at_end = { λ _. leave.Exhausted };

    #[inline(always)]
    fn details(&self) -> Self::Details {
        self.0.details()
    }

    #[inline(always)]
    fn make(self, core: &mut NodeCore<S>) -> Self::Reply {
        let Leave(pass) = self;
        core.leave(pass)
    }

    #[inline(always)]
    fn database(&self, core: &NodeCore<S>) -> Option<DatabaseNo> {
        client_database(core, &self.0)
    }

    #[inline(always)]
    fn record(details: &Self::Details, reply: &Self::Reply, log: &mut Log, note: &mut CallNote) {
        let (answer, said) = match reply {
            LeaveReply::Left => (CallAnswer::Left, LeaveReply::Left),
            LeaveReply::Holding(again) => (
                CallAnswer::LeaveHolding,
                LeaveReply::Holding(again.details()),
            ),
            LeaveReply::Stale => (CallAnswer::LeaveStale, LeaveReply::Stale),
            LeaveReply::Exhausted => (CallAnswer::LeaveExhausted, LeaveReply::Exhausted),
        };
        log.put(&Exchange::Leave(*details, said));
        note.begin(answer, details.key.kind());
        push_pass(&mut note.numbers, details);
        if let LeaveReply::Holding(again) = reply {
            push_pass(&mut note.numbers, &again.details());
        }
        push_any_key(&mut note.numbers, &details.key);
        if let LeaveReply::Holding(again) = reply {
            push_any_key(&mut note.numbers, &again.details().key);
        }
    }

    fn forfeit(self) -> Self::Reply {
        let Leave(pass) = self;
        pass.forfeit();
        LeaveReply::Exhausted
    }
}

/// The client of a pass asks for a link.
#[derive(Drop)]
pub struct Acquire<'a>(pub &'a Pass);

impl<S: Drop> Call<S> for Acquire<'_> {
    type Reply = AcquireReply<Lease<S>, Permit>;

    type Details = PassRecord;

    ghost handed = { λ made. made.0.now };

    ghost exchange = { λ made reply. call.Acquire made (acquire_said reply) };

    ghost streams = { λ _ reply. AcquireStreams reply };

    ghost at_end = { λ _. acquire.Exhausted };

    #[inline(always)]
    fn details(&self) -> Self::Details {
        self.0.details()
    }

    #[inline(always)]
    fn make(self, core: &mut NodeCore<S>) -> Self::Reply {
        core.acquire(self.0)
    }

    #[inline(always)]
    fn database(&self, core: &NodeCore<S>) -> Option<DatabaseNo>
        ensures { (reply : AcquireReplyOf (LinkValue S) PermitRecordOf) → result
            ≡ database_of core.now.view (call.Acquire self.now.0.now (acquire_said reply)) }
    {
        client_database(core, self.0)
    }

    #[inline(always)]
    fn record(details: &Self::Details, reply: &Self::Reply, log: &mut Log, note: &mut CallNote)
        ensures put { Puts log.old (call.Acquire details.now (acquire_said reply.now)) log.new }
        ensures count { IsCountOf (call.Acquire details.now (acquire_said reply.now)) note.new }
        ensures woken { note.new.turn.woken
            ≡ woken_by (call.Acquire details.now (acquire_said reply.now)) }
    {
        let kind = details.key.kind();
        match reply {
            AcquireReply::Got(lease) => {
                let lease = lease.details();
                log.put_got(details, &lease);
                note.begin(CallAnswer::AcquireGot, kind);
                push_pass(&mut note.numbers, details);
                push_link(&mut note.numbers, &lease);
                push_any_key(&mut note.numbers, &details.key);
            }
            AcquireReply::Open(permit) => {
                let permit = permit.details();
                log.put_open(details, &permit);
                note.begin(CallAnswer::AcquireOpen, kind);
                push_pass(&mut note.numbers, details);
                push_permit(&mut note.numbers, &permit);
                push_any_key(&mut note.numbers, &details.key);
            }
            AcquireReply::Waiting => record_without(details, Without::Waiting, log, note),
            AcquireReply::Cancelled => record_without(details, Without::Cancelled, log, note),
            AcquireReply::Holding => record_without(details, Without::Holding, log, note),
            AcquireReply::Stale => record_without(details, Without::Stale, log, note),
            AcquireReply::Exhausted => record_without(details, Without::Exhausted, log, note),
        }
    }

    fn forfeit(self) -> Self::Reply {
        AcquireReply::Exhausted
    }
}

// A reply to a client that gets neither a link nor a permit.
#[derive(Clone, Copy, Debug, PartialEq, Eq)]
enum Without {
    Waiting,
    Cancelled,
    Holding,
    Stale,
    Exhausted,
}

// Records such a reply.
#[inline(never)]
fn record_without(details: &PassRecord, reply: Without, log: &mut Log, note: &mut CallNote)
    ensures put { Puts log.old (call.Acquire details.now (without_said reply)) log.new }
    ensures count { IsCountOf (call.Acquire details.now (without_said reply)) note.new }
    ensures woken { note.new.turn.woken
        ≡ woken_by (call.Acquire details.now (without_said reply)) }
{
    let (answer, said) = match reply {
        Without::Waiting => (CallAnswer::AcquireWaiting, AcquireReply::Waiting),
        Without::Cancelled => (CallAnswer::AcquireCancelled, AcquireReply::Cancelled),
        Without::Holding => (CallAnswer::AcquireHolding, AcquireReply::Holding),
        Without::Stale => (CallAnswer::AcquireStale, AcquireReply::Stale),
        Without::Exhausted => (CallAnswer::AcquireExhausted, AcquireReply::Exhausted),
    };
    log.put(&Exchange::Acquire(*details, said));
    note.begin(answer, details.key.kind());
    push_pass(&mut note.numbers, details);
    push_any_key(&mut note.numbers, &details.key);
}
