//! What a node decides on a cancel request, once its clients have come.
ghost use Rattle.std.specs.Prelude.{◌≡◌, ◌≢◌, ◌+◌, ◌*◌, ◌<◌, ◌≤◌, All, AllPairs, IfErr, IfOk, MatchResult, length, vec_len, vec_capacity, max};
ghost use Rattle.ini_config.specs.Plain.{plain_settings};
ghost use Rattle.node_core.specs.View.{IsFresh};
ghost use Rattle.locked_node.specs.Totals.{all_calls};
ghost use Rattle.answer.specs.Attended.{ticket_of};
ghost use Rattle.answer.specs.Decision.{Cannot, HasRoom, IsDecided, MayOrder, Orders, has};

use crate::coming::all_come;
use crate::fault::{Fault, Reply};
use crate::hand_back::hand_back;
use crate::held::{Held, NoStream};
use command_line::LiveClient;
use ini_config::Settings;
use lease::{Ticket, TicketRecord};
use locked_node::{Caller, Journal, Shared};
use node_core::{NodeCore, Order};
use pg_ids::{AnyKey, Boot, PeerNo};
use std::alloc::Global;
use std::sync::Wait;

// The run of the node, which has no other.
const BOOT: Boot = Boot(0);

/// The order that a node gives, once these clients have come: each joins with its secret, and then
/// opens its link, if it has a server's key. There is a slot and a place for a link for each. The
/// node's steps go through its lock.
pub fn decided<R: Wait>(
    rt: &R,
    alloc: Global,
    me: PeerNo,
    peers: Vec<PeerNo>,
    clients: &[LiveClient],
    key: AnyKey,
) -> Result<Order<TicketRecord>, Fault>
    requires clients { length clients.now ≤ 65535 }
    requires peers { length peers.items ≤ 64 }
    requires numbered { All (λ number. 0 < number) peers.items }
    requires distinct { AllPairs (λ a b. a ≢ b) peers.items }
    ensures { MatchResult result
        (λ order. IsDecided (plain_settings me peers.items
        (max (length clients.now) 1) (max (length clients.now) 1)) clients.now key order)
        (λ fault. fault ≡ Fault.Memory) }
{
    let journal = fresh_journal(alloc, me, peers, clients.len().max(1))?;
    let mut held = Held::with_room(alloc, clients.len())?;
    let order = ordered(rt, alloc, journal, clients, key, &mut held);
    held.forfeit();
    order
}

// The journal of a new node, with this many slots and places for links.
fn fresh_journal(
    alloc: Global,
    me: PeerNo,
    peers: Vec<PeerNo>,
    places: usize,
) -> Result<Journal<NoStream>, Fault>
    requires places { (0 < places) × (places ≤ 65535) }
    requires peers { length peers.items ≤ 64 }
    requires numbered { All (λ number. 0 < number) peers.items }
    requires distinct { AllPairs (λ a b. a ≢ b) peers.items }
    ensures fresh { IfOk result (λ journal. IsFresh (plain_settings me peers.items places places)
        0 journal.view) }
    ensures database { IfOk result (λ journal. 0 < length journal.view.pools) }
    ensures calls { IfOk result (λ journal. all_calls journal.log.totals ≡ 0) }
    ensures memory { IfErr result (λ fault. fault ≡ Fault.Memory) }
{
    let settings = Settings::plain(alloc, me, peers, places as u16, places as u32)?;
    Ok(Journal::new(alloc, NodeCore::new(alloc, &settings, BOOT)?)?)
}

// The order that the node of this journal gives.
fn ordered<R: Wait>(
    rt: &R,
    alloc: Global,
    journal: Journal<NoStream>,
    clients: &[LiveClient],
    key: AnyKey,
    held: &mut Held,
) -> Result<Order<TicketRecord>, Fault>
    requires few { length clients.now ≤ 65535 }
    requires room { HasRoom (has held.old) (length clients.now) journal.view }
    requires database { 0 < length journal.view.pools }
    requires calls { all_calls journal.log.totals ≡ 0 }
    requires none { (vec_len held.old.passes ≡ 0) × (vec_len held.old.leases ≡ 0) }
    requires passes { length clients.now ≤ vec_capacity held.old.passes }
    requires leases { length clients.now ≤ vec_capacity held.old.leases }
    ensures { MatchResult result
        (λ order. MayOrder journal.view clients.now key order)
        (λ fault. fault ≡ Fault.Memory) }
{
    let (shared, mut caller) = Shared::new(alloc, journal)?;
    let order = order_behind(rt, &shared, &mut caller, clients, key, held);
    // The calls of this caller led to the journal's state: that is what says which replies the node
    // may give, and that it gave none that isn't expected.
    shared.into_journal(caller);
    match order {
        Ok(order) => Ok(order),
        Err(reply) => Err(Fault::Unexpected(reply)),
    }
}

// The clients come, then the request, and then all is handed back.
fn order_behind<R: Wait>(
    rt: &R,
    shared: &Shared<NoStream>,
    caller: &mut Caller<NoStream>,
    clients: &[LiveClient],
    key: AnyKey,
    held: &mut Held,
) -> Result<Order<TicketRecord>, Reply>
    requires own { caller.old.lock ≡ shared.now }
    requires database { 0 < length caller.old.start.view.pools }
    requires allowance { 6 * length clients.now + 2 ≤ caller.old.allowance }
    requires none { (vec_len held.old.passes ≡ 0) × (vec_len held.old.leases ≡ 0) }
    requires passes { length clients.now ≤ vec_capacity held.old.passes }
    requires leases { length clients.now ≤ vec_capacity held.old.leases }
    ensures { MatchResult result
        (λ order. Orders caller.old clients.now key order caller.new)
        (λ _. Cannot (HasRoom (has held.old) (length clients.now)) caller.old caller.new) }
{
    all_come(rt, shared, caller, clients, held)?;
    let (order, ticket) = apart(shared.cancel(rt, caller, key));
    hand_back(rt, shared, caller, ticket, held)?;
    Ok(order)
}

// What an order says, and its ticket.
fn apart(order: Order<Ticket>) -> (Order<TicketRecord>, Option<Ticket>)
    ensures order { result.0 ≡ order }
    ensures ticket { result.1 ≡ ticket_of order }
{
    match order {
        Order::Serve(ticket, database, key) => (
            Order::Serve(ticket.details(), database, key),
            Some(ticket),
        ),
        Order::Forward(peer, packet) => (Order::Forward(peer, packet), None),
        Order::Unwait(slot) => (Order::Unwait(slot), None),
        Order::Refused(refusal) => (Order::Refused(refusal), None),
    }
}
