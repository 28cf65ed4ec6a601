//! A node behind its lock, with one link for two clients, and its board.
ghost use Rattle.std.specs.Prelude.{◌≡◌, ◌<◌, length};

use crate::owner::open;
use ini_config::Settings;
use locked_node::{Caller, Journal, Shared};
use node_core::{
    AcquireReply, DatabaseNo, Lease, LeaveReply, NodeCore, Pass, Permit, ReleaseReply,
};
use node_threads::{Context, Counting, Gate, Opener, SingleUse, serve_cancel};
use peer_forward::{Requester, WriteCalls};
use pg_ids::{AnyKey, Boot, Kind, PeerNo, Secret};
use std::alloc::{AllocError, Global};
use std::sync::Wait;
use std::test::Fail;

// The stream of a link, by a number.
#[derive(Debug, Drop, PartialEq, Eq)]
pub(crate) struct Stream(pub(crate) u8);

const SHOP: DatabaseNo = DatabaseNo(0);

// Another answer than the one that is waited for.
#[derive(Clone, Copy, Debug, PartialEq, Eq)]
pub(crate) struct Other;

// Whether a client gets a link, a permit, or neither, which are spent.
#[derive(Clone, Copy, Debug, PartialEq, Eq)]
pub(crate) enum Asked {
    Given,
    Waiting,
    Cancelled,
    Other,
}

#[derive(Drop)]
pub(crate) struct Node {
    shared: Shared<Stream>,
    caller: Caller<Stream>,
    counting: Counting,
    ghost own: { caller.lock ≡ shared },
    ghost some: { 0 < length caller.start.view.pools },
}

impl Node {
    // Node 2 with the peer 3, one link and two slots.
    pub(crate) fn new(alloc: Global) -> Result<Node, Fail> {
        let me = PeerNo::new(2).ok_or("no such peer")?;
        let peer = PeerNo::new(3).ok_or("no such peer")?;
        let settings = Settings::plain(alloc, me, vec![in alloc; peer]?, 1, 2)?;
        let core = NodeCore::new(alloc, &settings, Boot(9))?;
        let (shared, caller) = Shared::new(alloc, Journal::new(alloc, core)?)?;
        let counting = Counting::new(alloc)?;
        Ok(Node {
            shared,
            caller,
            counting,
        })
    }

    // The seat has no allowance: half of it is left, 64 times.
    pub(crate) fn impoverish(&mut self) -> Result<(), AllocError> {
        for _i in 0..64u32 {
            self.counting = self.counting.split()?;
        }
        Ok(())
    }

    // A client logs in.
    pub(crate) fn login<R: Wait>(&mut self, rt: &R, secret: u32) -> Result<Pass, Other> {
        let joined = self
            .shared
            .join(rt, &mut self.caller, SHOP, Secret(secret), Kind::Short);
        match joined {
            Ok(pass) => Ok(pass),
            Err(_) => Err(Other),
        }
    }

    // The client of a pass opens a link.
    pub(crate) fn open<R: Wait>(
        &mut self,
        rt: &R,
        pass: &Pass,
        stream: u8,
    ) -> Result<Lease<Stream>, Other> {
        match open(rt, &self.shared, &mut self.caller, pass, Stream(stream)) {
            Some(lease) => Ok(lease),
            None => Err(Other),
        }
    }

    // The client of a pass asks for a link.
    pub(crate) fn ask<R: Wait>(&mut self, rt: &R, pass: &Pass) -> Asked {
        answer_of(self.shared.acquire(rt, &mut self.caller, pass))
    }

    // A client gives its link back.
    pub(crate) fn release<R: Wait>(
        &mut self,
        rt: &R,
        lease: Lease<Stream>,
    ) -> ReleaseReply<Stream> {
        self.shared.release(rt, &mut self.caller, lease)
    }

    // Whether the client of a pass leaves.
    pub(crate) fn leave<R: Wait>(&mut self, rt: &R, pass: Pass) -> bool {
        match self.shared.leave(rt, &mut self.caller, pass) {
            LeaveReply::Left => true,
            LeaveReply::Holding(pass) => {
                let _details = pass.forfeit();
                false
            }
            LeaveReply::Stale | LeaveReply::Exhausted => false,
        }
    }

    // A cancel connection is served.
    pub(crate) fn cancel<R: Wait, O: Opener, G: Gate, Q: WriteCalls + Requester>(
        &mut self,
        rt: &R,
        opener: &O,
        gate: &G,
        requester: &mut Q,
        key: AnyKey,
    ) {
        let context = Context { rt, gate };
        let observer = opener.observer();
        let opener = SingleUse { opener };
        let (caller, counting) = (&mut self.caller, &mut self.counting);
        serve_cancel(
            context,
            observer,
            &self.shared,
            caller,
            counting,
            opener,
            requester,
            key,
        );
    }

    // The words of the board.
    pub(crate) fn words(&mut self) -> [u64; 8] {
        self.counting.words()
    }
}

fn answer_of(reply: AcquireReply<Lease<Stream>, Permit>) -> Asked {
    match reply {
        AcquireReply::Got(lease) => {
            let _stream = lease.forfeit();
            Asked::Given
        }
        AcquireReply::Open(permit) => {
            let _details = permit.forfeit();
            Asked::Given
        }
        AcquireReply::Waiting => Asked::Waiting,
        AcquireReply::Cancelled => Asked::Cancelled,
        AcquireReply::Holding | AcquireReply::Exhausted | AcquireReply::Stale => Asked::Other,
    }
}
