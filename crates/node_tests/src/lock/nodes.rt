//! Nodes for the tests, and replies without their values.
ghost use Rattle.std.specs.Prelude.{◌≡◌, ◌<◌, ◌≤◌, length, IfOk};

use ini_config::Settings;
use locked_node::{Caller as LockCaller, Journal as NodeJournal, Shared as NodeLock};
use node_core::{LeaveReply, NodeCore, Order, Pass, PassRecord, Ticket, TicketRecord};
use pg_ids::{AnyKey, Boot, PeerNo};
use startup::Packet;
use std::alloc::Global;
use std::test::Fail;

// The stream of a link, by a number.
#[derive(Debug, Drop, PartialEq, Eq)]
pub(crate) struct Stream(pub(crate) u8);

pub(crate) type Journal = NodeJournal<Stream>;

pub(crate) type Shared = NodeLock<Stream>;

pub(crate) type Caller = LockCaller<Stream>;

// The boot of each node.
pub(crate) const BOOT: Boot = Boot(9);

// The CancelRequest of peer 2, slot 0, secret 1, with two hops.
pub(crate) const LOWERED: Packet = Packet::Short([
    0, 0, 0, 16, 4, 0xd2, 0x16, 0x2e, 0, 8, 0, 0, 0, 0, 0, 6,
]);

// The key of the same, with three hops.
pub(crate) fn key() -> AnyKey {
    AnyKey::from_short_bytes([0, 8, 0, 0, 0, 0, 0, 7])
}

// A key of peer 3, which is in no list.
pub(crate) fn stray() -> AnyKey {
    AnyKey::from_short_bytes([0, 12, 0, 0, 0, 0, 0, 7])
}

// Node 1 with peer 2 and this many slots, where nobody is logged in.
pub(crate) fn node(alloc: Global, clients: u32) -> Result<Journal, Fail>
    requires some { 1 ≤ clients }
    requires within { clients ≤ 65536 }
    ensures { IfOk result (λ journal. 0 < length journal.view.pools) }
{
    let me = PeerNo::new(1).ok_or("no such peer")?;
    let peer = PeerNo::new(2).ok_or("no such peer")?;
    let settings = Settings::plain(alloc, me, vec![in alloc; peer]?, 1, clients)?;
    let core = NodeCore::new(alloc, &settings, BOOT)?;
    Ok(Journal::new(alloc, core)?)
}

// A node with this number, no peer, this many links at most, and this many slots.
pub(crate) fn alone(alloc: Global, me: u16, links: u16, clients: u32) -> Result<Journal, Fail>
    requires links { 1 ≤ links }
    requires some { 1 ≤ clients }
    requires within { clients ≤ 65536 }
    ensures { IfOk result (λ journal. 0 < length journal.view.pools) }
{
    let me = PeerNo::new(me).ok_or("no such peer")?;
    let peers = Vec::<PeerNo>::new(alloc);
    let settings = Settings::plain(alloc, me, peers, links, clients)?;
    let core = NodeCore::new(alloc, &settings, BOOT)?;
    Ok(Journal::new(alloc, core)?)
}

// The reply to a client that leaves. A pass that it hands back is spent.
pub(crate) fn left(reply: LeaveReply<Pass>) -> LeaveReply<PassRecord> {
    match reply {
        LeaveReply::Left => LeaveReply::Left,
        LeaveReply::Holding(pass) => LeaveReply::Holding(pass.forfeit()),
        LeaveReply::Stale => LeaveReply::Stale,
        LeaveReply::Exhausted => LeaveReply::Exhausted,
    }
}

// An order, with its ticket spent.
pub(crate) fn ordered(order: Order<Ticket>) -> Order<TicketRecord> {
    match order {
        Order::Serve(ticket, database, key) => Order::Serve(ticket.forfeit(), database, key),
        Order::Forward(peer, packet) => Order::Forward(peer, packet),
        Order::Unwait(slot) => Order::Unwait(slot),
        Order::Refused(refusal) => Order::Refused(refusal),
    }
}
