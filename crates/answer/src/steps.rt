//! The steps of a node behind its lock, each with the reply that is expected, or the one that came
//! in its place.
ghost use Rattle.std.specs.Prelude.{◌≡◌, ◌<◌, ℕ, Ok, Some, List, MatchResult, length};
ghost use Rattle.pg_ids.specs.declared.any_key.Kind.{Kind};
ghost use Rattle.pg_ids.specs.declared.any_key.Kind.TheVariants as kind;
ghost use Rattle.lease.specs.declared.pass.PassRecord.{PassRecord};
ghost use Rattle.lease.specs.declared.permit.PermitRecord.{PermitRecord};
ghost use Rattle.lease.specs.declared.link_record.LinkRecord.{LinkRecord};
ghost use Rattle.lease.specs.declared.ticket.TicketRecord.{TicketRecord};
ghost use Rattle.link_pool.specs.Said.{acquire_said, close_said, failed_said, up_said};
ghost use Rattle.link_pool.specs.declared.replies.AcquireReply.TheVariants as acquire;
ghost use Rattle.link_pool.specs.declared.replies.UpReply.TheVariants as up;
ghost use Rattle.link_pool.specs.declared.replies.CloseReply.TheVariants as closing;
ghost use Rattle.link_pool.specs.declared.replies.FailedReply.TheVariants as failing;
ghost use Rattle.node_core.specs.declared.exchange.Exchange.TheVariants as call;
ghost use Rattle.locked_node.specs.Lock.{CallerStep};
ghost use Rattle.answer.specs.Decision.{leave_reply, reply_of, Trips};

use crate::fault::Reply;
use crate::held::NoStream;
use lease::{Lease, Pass, Permit, Ticket};
use link_pool::{AcquireReply, CloseReply, FailedReply, UpReply};
use locked_node::{Caller, Shared};
use node_core::{DatabaseNo, JoinRefusal, LeaveReply, StepRefusal};
use pg_ids::{Kind, Secret, ServerKey};
use std::sync::Wait;

// The database of each client.
const DATABASE: DatabaseNo = DatabaseNo(0);

/// A client joins with this secret, and gets a short key.
pub fn join<R: Wait>(
    rt: &R,
    shared: &Shared<NoStream>,
    caller: &mut Caller<NoStream>,
    secret: Secret,
) -> Result<Pass, Reply>
    requires own { caller.old.lock ≡ shared.now }
    requires database { 0 < length caller.old.start.view.pools }
    requires allowance { 0 < caller.old.allowance }
    ensures { MatchResult result
        (λ pass. CallerStep caller.old (call.Join 0 secret kind.Short (Ok pass)) caller.new)
        (λ given. Trips caller.old (λ said. call.Join 0 secret kind.Short said) given caller.new) }
{
    pass_in(shared.join(rt, caller, DATABASE, secret, Kind::Short))
}

fn pass_in(reply: Result<Pass, JoinRefusal>) -> Result<Pass, Reply>
    ensures { (database secret : ℕ) (asked : Kind) → MatchResult result
        (λ pass. reply ≡ Ok pass)
        (λ given. reply_of (call.Join database secret asked reply) ≡ Some given) }
{
    match reply {
        Ok(pass) => Ok(pass),
        Err(refusal) => Err(Reply::Number(refusal.number())),
    }
}

/// The client of a pass asks for a link, and may open one.
pub fn acquire<R: Wait>(
    rt: &R,
    shared: &Shared<NoStream>,
    caller: &mut Caller<NoStream>,
    pass: &Pass,
) -> Result<Permit, Reply>
    requires own { caller.old.lock ≡ shared.now }
    requires allowance { 0 < caller.old.allowance }
    ensures { MatchResult result
        (λ permit. CallerStep caller.old (call.Acquire pass.now (acquire.Open permit)) caller.new)
        (λ given. Trips caller.old (λ said. call.Acquire pass.now said) given caller.new) }
{
    permit_in(shared.acquire(rt, caller, pass))
}

fn permit_in(reply: AcquireReply<Lease<NoStream>, Permit>) -> Result<Permit, Reply>
    ensures { (pass : PassRecord) → MatchResult result
        (λ permit. acquire_said reply ≡ acquire.Open permit)
        (λ given. reply_of (call.Acquire pass (acquire_said reply)) ≡ Some given) }
{
    match reply {
        AcquireReply::Open(permit) => Ok(permit),
        AcquireReply::Got(lease) => {
            lease.forfeit();
            Err(Reply::Got)
        }
        AcquireReply::Waiting => Err(Reply::Waiting),
        AcquireReply::Cancelled => Err(Reply::Cancelled),
        AcquireReply::Holding => Err(Reply::Number(StepRefusal::Holding.number())),
        AcquireReply::Exhausted => Err(Reply::Number(StepRefusal::Exhausted.number())),
        AcquireReply::Stale => Err(Reply::Number(StepRefusal::Stale.number())),
    }
}

/// A link is open, whose server cancels by this key.
pub fn up<R: Wait>(
    rt: &R,
    shared: &Shared<NoStream>,
    caller: &mut Caller<NoStream>,
    permit: Permit,
    key: ServerKey,
) -> Result<Lease<NoStream>, Reply>
    requires own { caller.old.lock ≡ shared.now }
    requires allowance { 0 < caller.old.allowance }
    ensures { MatchResult result
        (λ lease. CallerStep caller.old (call.Up permit key (up.Up lease.details)) caller.new)
        (λ given. Trips caller.old (λ said. call.Up permit key said) given caller.new) }
{
    lease_in(shared.up(rt, caller, permit, NoStream, key))
}

fn lease_in(reply: UpReply<Lease<NoStream>, Permit, NoStream>) -> Result<Lease<NoStream>, Reply>
    ensures { (permit : PermitRecord) (key : List ℕ) → MatchResult result
        (λ lease. up_said reply ≡ up.Up lease.details)
        (λ given. reply_of (call.Up permit key (up_said reply)) ≡ Some given) }
{
    match reply {
        UpReply::Up(lease) => Ok(lease),
        UpReply::Exhausted(permit, _) => {
            permit.forfeit();
            Err(Reply::Number(StepRefusal::Exhausted.number()))
        }
        UpReply::Stale(_) => Err(Reply::Number(StepRefusal::Stale.number())),
        UpReply::AtEnd(_) => Err(Reply::Number(StepRefusal::Exhausted.number())),
    }
}

/// The request of a ticket failed. Its link's client holds that still, so the link is condemned.
pub fn report_failed<R: Wait>(
    rt: &R,
    shared: &Shared<NoStream>,
    caller: &mut Caller<NoStream>,
    ticket: Ticket,
) -> Result<(), Reply>
    requires own { caller.old.lock ≡ shared.now }
    requires allowance { 0 < caller.old.allowance }
    ensures { MatchResult result
        (λ _. CallerStep caller.old (call.Failed ticket failing.Condemned) caller.new)
        (λ given. Trips caller.old (λ said. call.Failed ticket said) given caller.new) }
{
    condemned_in(shared.failed(rt, caller, ticket))
}

fn condemned_in(reply: FailedReply<NoStream>) -> Result<(), Reply>
    ensures { (ticket : TicketRecord) → MatchResult result
        (λ _. failed_said reply ≡ failing.Condemned)
        (λ given. reply_of (call.Failed ticket (failed_said reply)) ≡ Some given) }
{
    match reply {
        FailedReply::Condemned => Ok(()),
        FailedReply::Closed(_) => Err(Reply::Closed),
        FailedReply::Stale => Err(Reply::Number(StepRefusal::Stale.number())),
        FailedReply::Exhausted => Err(Reply::Number(StepRefusal::Exhausted.number())),
    }
}

/// A link is closed.
pub fn close<R: Wait>(
    rt: &R,
    shared: &Shared<NoStream>,
    caller: &mut Caller<NoStream>,
    lease: Lease<NoStream>,
) -> Result<(), Reply>
    requires own { caller.old.lock ≡ shared.now }
    requires allowance { 0 < caller.old.allowance }
    ensures { MatchResult result
        (λ _. CallerStep caller.old (call.Close lease.details (closing.Closed tt)) caller.new)
        (λ given. Trips caller.old (λ said. call.Close lease.details said) given caller.new) }
{
    closed_in(shared.close(rt, caller, lease))
}

fn closed_in(reply: CloseReply<NoStream>) -> Result<(), Reply>
    ensures { (lease : LinkRecord) → MatchResult result
        (λ _. close_said reply ≡ closing.Closed tt)
        (λ given. reply_of (call.Close lease (close_said reply)) ≡ Some given) }
{
    match reply {
        CloseReply::Closed(_) => Ok(()),
        CloseReply::Stale(_) => Err(Reply::Number(StepRefusal::Stale.number())),
        CloseReply::Exhausted(_) => Err(Reply::Number(StepRefusal::Exhausted.number())),
    }
}

/// A client leaves. One that holds something gets its pass back.
pub fn leave<R: Wait>(
    rt: &R,
    shared: &Shared<NoStream>,
    caller: &mut Caller<NoStream>,
    pass: Pass,
) -> Result<Option<Pass>, Reply>
    requires own { caller.old.lock ≡ shared.now }
    requires allowance { 0 < caller.old.allowance }
    ensures { MatchResult result
        (λ again. CallerStep caller.old (call.Leave pass (leave_reply again)) caller.new)
        (λ given. Trips caller.old (λ said. call.Leave pass said) given caller.new) }
{
    left_in(shared.leave(rt, caller, pass))
}

fn left_in(reply: LeaveReply<Pass>) -> Result<Option<Pass>, Reply>
    ensures { (pass : PassRecord) → MatchResult result
        (λ again. reply ≡ leave_reply again)
        (λ given. reply_of (call.Leave pass reply) ≡ Some given) }
{
    match reply {
        LeaveReply::Left => Ok(None),
        LeaveReply::Holding(again) => Ok(Some(again)),
        LeaveReply::Stale => Err(Reply::Number(StepRefusal::Stale.number())),
        LeaveReply::Exhausted => Err(Reply::Number(StepRefusal::Exhausted.number())),
    }
}
