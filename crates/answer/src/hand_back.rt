//! What clients hold, and the ticket of an order, handed back to their node.
ghost use Rattle.std.specs.Prelude.{◌≡◌, ◌+◌, ◌*◌, ◌≤◌, [], MatchResult, OnOk, vec_len};
ghost use Rattle.answer.specs.Attended.{Asked, Rests};
ghost use Rattle.answer.specs.Decision.{Calls, Cannot, Closes, Goes, IsLast, Leaves, Reports, SomeRest, WasAsked, leases_of};

use crate::fault::Reply;
use crate::held::{Held, NoStream};
use crate::steps::{close, leave, report_failed};
use lease::{Lease, Pass, Ticket};
use locked_node::{Caller, Shared};
use node_core::StepRefusal;
use std::sync::Wait;

/// The request of a ticket is reported as failed, since nothing was carried. Then each link is
/// closed, and then each client leaves. Each value is spent by a step of the node. The first reply
/// that isn't expected ends it, but no node to which these clients came gives one.
pub fn hand_back<R: Wait>(
    rt: &R,
    shared: &Shared<NoStream>,
    caller: &mut Caller<NoStream>,
    ticket: Option<Ticket>,
    held: &mut Held,
) -> Result<(), Reply>
    requires own { caller.old.lock ≡ shared.now }
    requires allowance { 1 + vec_len held.old.leases + 2 * vec_len held.old.passes
        ≤ caller.old.allowance }
    ensures handed { MatchResult result
        (λ _. Calls caller.old caller.new)
        (λ _. Cannot (Asked held.old.passes.items (leases_of held.old.leases.items) ticket)
        caller.old caller.new) }
    ensures all { OnOk result ((vec_len held.new.leases ≡ 0) × (vec_len held.new.passes ≡ 0)) }
{
    report(rt, shared, caller, ticket)?;
    close_all(rt, shared, caller, &mut held.leases)?;
    leave_all(rt, shared, caller, &mut held.passes)
}

// The request of a ticket, if there is one, failed.
fn report<R: Wait>(
    rt: &R,
    shared: &Shared<NoStream>,
    caller: &mut Caller<NoStream>,
    ticket: Option<Ticket>,
) -> Result<(), Reply>
    requires own { caller.old.lock ≡ shared.now }
    requires allowance { 1 ≤ caller.old.allowance }
    ensures reported { MatchResult result
        (λ _. Reports caller.old ticket caller.new)
        (λ _. Cannot (WasAsked ticket) caller.old caller.new) }
    ensures allowance { OnOk result (caller.old.allowance ≤ caller.new.allowance + 1) }
{
    match ticket {
        Some(ticket) => report_failed(rt, shared, caller, ticket),
        None => Ok(()),
    }
}

// Each link is closed.
fn close_all<R: Wait>(
    rt: &R,
    shared: &Shared<NoStream>,
    caller: &mut Caller<NoStream>,
    leases: &mut Vec<Lease<NoStream>>,
) -> Result<(), Reply>
    requires own { caller.old.lock ≡ shared.now }
    requires allowance { vec_len leases.old ≤ caller.old.allowance }
    ensures closed { MatchResult result
        (λ _. Closes caller.old (leases_of leases.old.items) [] caller.new)
        (λ _. Cannot (SomeRest (leases_of leases.old.items)) caller.old caller.new) }
    ensures allowance { OnOk result
        (caller.old.allowance ≤ caller.new.allowance + vec_len leases.old) }
    ensures all { OnOk result (vec_len leases.new ≡ 0) }
{
    while let Some(lease) = leases.pop() {
        close(rt, shared, caller, lease)?;
    }
    Ok(())
}

// Each client leaves.
fn leave_all<R: Wait>(
    rt: &R,
    shared: &Shared<NoStream>,
    caller: &mut Caller<NoStream>,
    passes: &mut Vec<Pass>,
) -> Result<(), Reply>
    requires own { caller.old.lock ≡ shared.now }
    requires allowance { 2 * vec_len passes.old ≤ caller.old.allowance }
    ensures left { MatchResult result
        (λ _. Leaves caller.old passes.old.items [] caller.new)
        (λ _. Cannot (Rests passes.old.items []) caller.old caller.new) }
    ensures all { OnOk result (vec_len passes.new ≡ 0) }
{
    while let Some(pass) = passes.pop() {
        leave_twice(rt, shared, caller, pass)?;
    }
    Ok(())
}

// A client leaves. Where it holds something it is asked once more; nobody else has this lock, so no
// answer after that can be another.
fn leave_twice<R: Wait>(
    rt: &R,
    shared: &Shared<NoStream>,
    caller: &mut Caller<NoStream>,
    pass: Pass,
) -> Result<(), Reply>
    requires own { caller.old.lock ≡ shared.now }
    requires allowance { 2 ≤ caller.old.allowance }
    ensures left { MatchResult result
        (λ _. Goes caller.old pass caller.new)
        (λ _. Cannot (IsLast pass) caller.old caller.new) }
    ensures allowance { OnOk result (caller.old.allowance ≤ caller.new.allowance + 2) }
{
    let Some(pass) = leave(rt, shared, caller, pass)? else {
        return Ok(());
    };
    let Some(pass) = leave(rt, shared, caller, pass)? else {
        return Ok(());
    };
    pass.forfeit();
    Err(Reply::Number(StepRefusal::Holding.number()))
}
