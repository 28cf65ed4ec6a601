//! Clients come to a node behind its lock.
ghost use Rattle.std.specs.Prelude.{◌≡◌, ◌+◌, ◌*◌, ◌<◌, ◌≤◌, [], ◌∷◌, MatchResult, OnOk, length, vec_len, vec_capacity};
ghost use Rattle.answer.specs.Decision.{Cannot, Comes, HasRoom, MayOpen, Opens, has, leases_of};

use crate::fault::Reply;
use crate::held::{Held, NoStream};
use crate::steps::{acquire, join, up};
use command_line::LiveClient;
use lease::{Lease, Pass};
use locked_node::{Caller, Shared};
use pg_ids::ServerKey;
use std::sync::Wait;

/// Each client comes, in order: it joins with its secret, and then opens its link, if it has a
/// server's key. The first that gets a reply that isn't expected is the last, but where there is
/// room for all no node gives one.
pub fn all_come<R: Wait>(
    rt: &R,
    shared: &Shared<NoStream>,
    caller: &mut Caller<NoStream>,
    clients: &[LiveClient],
    held: &mut Held,
) -> Result<(), Reply>
    requires own { caller.old.lock ≡ shared.now }
    requires database { 0 < length caller.old.start.view.pools }
    requires allowance { 3 * length clients.now ≤ caller.old.allowance }
    requires passes { vec_len held.old.passes + length clients.now ≤ vec_capacity held.old.passes }
    requires leases { vec_len held.old.leases + length clients.now ≤ vec_capacity held.old.leases }
    ensures came { MatchResult result
        (λ _. Comes caller.old clients.now (has held.old) (has held.new) caller.new)
        (λ _. Cannot (HasRoom (has held.old) (length clients.now)) caller.old caller.new) }
    ensures allowance { OnOk result
        (caller.old.allowance ≤ caller.new.allowance + 3 * length clients.now) }
    ensures passes { OnOk result
        (vec_len held.new.passes ≤ vec_len held.old.passes + length clients.now) }
    ensures leases { OnOk result
        (vec_len held.new.leases ≤ vec_len held.old.leases + length clients.now) }
{
    for client in clients {
        come(rt, shared, caller, client, held)?;
    }
    Ok(())
}

// A client joins, and opens its link, if it has a server's key.
fn come<R: Wait>(
    rt: &R,
    shared: &Shared<NoStream>,
    caller: &mut Caller<NoStream>,
    client: &LiveClient,
    held: &mut Held,
) -> Result<(), Reply>
    requires own { caller.old.lock ≡ shared.now }
    requires database { 0 < length caller.old.start.view.pools }
    requires allowance { 3 ≤ caller.old.allowance }
    requires passes { vec_len held.old.passes < vec_capacity held.old.passes }
    requires leases { vec_len held.old.leases < vec_capacity held.old.leases }
    ensures came { MatchResult result
        (λ _. Comes caller.old (client.now ∷ []) (has held.old) (has held.new) caller.new)
        (λ _. Cannot (HasRoom (has held.old) 1) caller.old caller.new) }
    ensures allowance { OnOk result (caller.old.allowance ≤ caller.new.allowance + 3) }
    ensures passes { OnOk result ((vec_capacity held.new.passes ≡ vec_capacity held.old.passes)
        × (vec_len held.new.passes ≤ vec_len held.old.passes + 1)) }
    ensures leases { OnOk result ((vec_capacity held.new.leases ≡ vec_capacity held.old.leases)
        × (vec_len held.new.leases ≤ vec_len held.old.leases + 1)) }
{
    let pass = join(rt, shared, caller, client.secret)?;
    let opened = match client.server_key {
        Some(key) => open_link(rt, shared, caller, &pass, key, &mut held.leases),
        None => Ok(()),
    };
    held.passes.push_reserved(pass);
    opened
}

// The client of a pass opens a link, whose server cancels by this key.
fn open_link<R: Wait>(
    rt: &R,
    shared: &Shared<NoStream>,
    caller: &mut Caller<NoStream>,
    pass: &Pass,
    key: ServerKey,
    leases: &mut Vec<Lease<NoStream>>,
) -> Result<(), Reply>
    requires own { caller.old.lock ≡ shared.now }
    requires allowance { 2 ≤ caller.old.allowance }
    requires room { vec_len leases.old < vec_capacity leases.old }
    ensures opened { MatchResult result
        (λ _. Opens caller.old pass.now key (leases_of leases.old.items)
        (leases_of leases.new.items) caller.new)
        (λ _. Cannot (MayOpen pass.now (leases_of leases.old.items)) caller.old caller.new) }
    ensures allowance { OnOk result (caller.old.allowance ≤ caller.new.allowance + 2) }
    ensures room { OnOk result ((vec_capacity leases.new ≡ vec_capacity leases.old)
        × (vec_len leases.new ≤ vec_len leases.old + 1)) }
{
    let permit = acquire(rt, shared, caller, pass)?;
    let lease = up(rt, shared, caller, permit, key)?;
    leases.push_reserved(lease);
    Ok(())
}
