//! The client at slot 0, which has a link while another is held, and how a client opens a link.
ghost use Rattle.std.specs.Prelude.{◌≡◌, ◌<◌, length};

use crate::messages::{LOGIN, STARTUP};
use crate::scene_node::{Caller, Node, PLAIN};
use crate::talk::Turn;
use crate::tracked::{Talk, Tracker};
use lease::{Lease, Pass, Permit};
use link_pool::{AcquireReply, UpReply};
use locked_node::{Caller as LockCaller, Shared};
use node_core::LeaveReply;
use node_threads::{Entrance, Link};
use pg_frames::MessageLimit;
use pg_ids::{Kind, Secret, ServerKey, SlotNo};
use session_io::{NoListener, log_in};
use std::alloc::Global;
use std::sync::{Arc, Wait};

// The key of its link's backend.
const SERVER: ServerKey = ServerKey([0x11, 0x12, 0x13, 0x14, 0x15, 0x16, 0x17, 0x18]);

// Its own key: peer 2, slot 0, secret 1, three hops.
pub(crate) const KEY: [u8; 8] = [0, 8, 0, 0, 0, 0, 0, 7];

pub(crate) struct Owner<'a> {
    pass: Pass,
    lease: Lease<Link<Talk>>,
    entrance: Entrance<'a>,
}

impl<'a> Owner<'a> {
    // The client logs in and opens a link, to which nothing may be written. It comes first.
    pub(crate) fn new<R: Wait>(
        rt: &R,
        alloc: Global,
        node: &'a Node,
        caller: &mut Caller,
        servers: &Arc<Tracker, Global>,
    ) -> Option<Owner<'a>>
        requires own { caller.old.lock ≡ node.now.lock }
        requires database { 0 < length caller.old.start.view.pools }
        ensures { (caller.new.lock ≡ caller.old.lock) × (caller.new.start ≡ caller.old.start) }
    {
        let lock = &node.lock;
        let link = link(rt, alloc, servers)?;
        let Ok(pass) = lock.join(rt, caller, PLAIN, Secret(1), Kind::Short) else {
            return None;
        };
        let Some(entrance) = enter(rt, alloc, node, pass.key().slot()) else {
            pass.forfeit();
            return None;
        };
        let Some(lease) = open(rt, lock, caller, &pass, link) else {
            pass.forfeit();
            return None;
        };
        Some(Owner {
            pass,
            lease,
            entrance,
        })
    }

    // It gives its link and its permit back and leaves.
    pub(crate) fn leave<R: Wait>(self, rt: &R, node: &Node, caller: &mut Caller)
        requires own { caller.old.lock ≡ node.now.lock }
        ensures { (caller.new.lock ≡ caller.old.lock) × (caller.new.start ≡ caller.old.start) }
    {
        let Owner {
            pass,
            lease,
            entrance,
        } = self;
        let _reply = node.lock.release(rt, caller, lease);
        entrance.leave(rt);
        node.admission.forget(rt, pass.key().slot());
        if let LeaveReply::Holding(pass) = node.lock.leave(rt, caller, pass) {
            pass.forfeit();
        }
    }
}

// The client of a slot gets a permit, if one is free.
fn enter<'a, R: Wait>(rt: &R, alloc: Global, node: &'a Node, slot: SlotNo) -> Option<Entrance<'a>> {
    let entrance = Entrance::new(rt, alloc, &node.admission, slot, PLAIN).ok()?;
    if entrance.try_enter() {
        Some(entrance)
    } else {
        None
    }
}

// A link whose server does nothing after the login.
fn link<R: Wait>(rt: &R, alloc: Global, servers: &Arc<Tracker, Global>) -> Option<Link<Talk>> {
    let turns = &[Turn::Takes(STARTUP), Turn::Gives(LOGIN)];
    let stream = Talk::new(servers, turns).ok()?;
    match log_in(
        rt,
        alloc,
        &NoListener,
        MessageLimit::DEFAULT,
        stream,
        "plain",
        "plain",
    ) {
        Ok(logged) => Some(logged.link),
        Err(_) => None,
    }
}

// The client of a pass opens a link with this stream.
pub(crate) fn open<R: Wait, S: Drop>(
    rt: &R,
    lock: &Shared<S>,
    caller: &mut LockCaller<S>,
    pass: &Pass,
    stream: S,
) -> Option<Lease<S>>
    requires own { caller.old.lock ≡ lock.now }
    ensures { (caller.new.lock ≡ caller.old.lock) × (caller.new.start ≡ caller.old.start) }
{
    let permit = opened(lock.acquire(rt, caller, pass))?;
    went_up(lock.up(rt, caller, permit, stream, SERVER))
}

fn opened<S: Drop>(reply: AcquireReply<Lease<S>, Permit>) -> Option<Permit> {
    match reply {
        AcquireReply::Open(permit) => Some(permit),
        AcquireReply::Got(lease) => {
            let _stream = lease.forfeit();
            None
        }
        AcquireReply::Waiting
        | AcquireReply::Cancelled
        | AcquireReply::Holding
        | AcquireReply::Exhausted
        | AcquireReply::Stale => None,
    }
}

fn went_up<S: Drop>(reply: UpReply<Lease<S>, Permit, S>) -> Option<Lease<S>> {
    match reply {
        UpReply::Up(lease) => Some(lease),
        UpReply::Exhausted(permit, _stream) => {
            let _details = permit.forfeit();
            None
        }
        UpReply::Stale(_stream) | UpReply::AtEnd(_stream) => None,
    }
}
