//! A node behind its lock, and who calls it. What is handed in and out is what it says: a value is
//! made again for each call, so a stale one can be handed in as well.
ghost use Rattle.std.specs.Prelude.{◌≡◌, length};

use ini_config::Settings;
use locked_node::{Caller, Journal, Shared, Tally};
use node_core::{
    AcquireReply, CloseReply, DatabaseNo, EndedReply, FailedReply, JoinRefusal, Lease, LeaveReply,
    LinkRecord, NodeCore, Order, Pass, PassRecord, Permit, PermitRecord, ReleaseReply,
    RestartReply, Ticket, TicketRecord, UpFailedReply, UpReply, View,
};
use pg_ids::{AnyKey, Boot, Kind, Secret, ServerKey};
use std::alloc::{AllocError, Global};
use std::sync::Wait;

/// A node behind its lock. Streams are numbers.
#[derive(Drop)]
pub(crate) struct Post {
    shared: Shared<u32>,
    caller: Caller<u32>,
    databases: usize,
    ghost own: { caller.lock ≡ shared },
    ghost pools: { databases ≡ length caller.start.view.pools },
}

/// A link that was handed out, with its stream.
#[derive(Clone, Copy, Debug)]
pub(crate) struct Link {
    pub(crate) details: LinkRecord,
    pub(crate) stream: u32,
}

impl Link {
    fn of(lease: Lease<u32>) -> Link {
        Link {
            details: lease.details(),
            stream: lease.forfeit(),
        }
    }

    /// Its number.
    pub(crate) fn number(&self) -> u64 {
        self.details.link.0
    }

    fn lease(&self) -> Lease<u32> {
        let permit = Permit::new(PermitRecord {
            peer: self.details.peer,
            incarnation: self.details.incarnation,
            number: 0,
            at: self.details.at,
        });
        permit.up(self.details.link, self.stream)
    }
}

/// What a login returns.
#[derive(Clone, Copy, Debug)]
pub(crate) enum Joined {
    Pass(PassRecord),
    Refused(JoinRefusal),
    NoDatabase,
}

impl Post {
    /// A new node with these settings, and this boot.
    pub(crate) fn new(alloc: Global, settings: &Settings, boot: u64) -> Result<Post, AllocError> {
        let core = NodeCore::new(alloc, settings, Boot(boot))?;
        let databases = core.pool_sizes().len();
        let (shared, caller) = Shared::new(alloc, Journal::new(alloc, core)?)?;
        Ok(Post {
            shared,
            caller,
            databases,
        })
    }

    /// The calls so far.
    pub(crate) fn tally(&self) -> &Tally {
        self.caller.tally()
    }

    /// How many calls are left.
    pub(crate) fn calls_left(&self) -> u128 {
        self.caller.allowance()
    }

    /// A copy of the node.
    pub(crate) fn view<R: Wait>(&mut self, rt: &R, alloc: Global) -> Result<View<u32>, AllocError> {
        self.shared.copy_view(rt, alloc, &mut self.caller)
    }

    pub(crate) fn join<R: Wait>(
        &mut self,
        rt: &R,
        database: u8,
        secret: u32,
        kind: Kind,
    ) -> Joined {
        if usize::from(database) >= self.databases {
            return Joined::NoDatabase;
        }
        let (database, secret) = (DatabaseNo(database), Secret(secret));
        match self
            .shared
            .join(rt, &mut self.caller, database, secret, kind)
        {
            Ok(pass) => Joined::Pass(pass.forfeit()),
            Err(refusal) => Joined::Refused(refusal),
        }
    }

    pub(crate) fn leave<R: Wait>(&mut self, rt: &R, pass: PassRecord) -> LeaveReply<PassRecord> {
        match self.shared.leave(rt, &mut self.caller, Pass::new(pass)) {
            LeaveReply::Left => LeaveReply::Left,
            LeaveReply::Holding(pass) => LeaveReply::Holding(pass.forfeit()),
            LeaveReply::Stale => LeaveReply::Stale,
            LeaveReply::Exhausted => LeaveReply::Exhausted,
        }
    }

    pub(crate) fn acquire<R: Wait>(
        &mut self,
        rt: &R,
        pass: PassRecord,
    ) -> AcquireReply<Link, PermitRecord> {
        let pass = Pass::new(pass);
        let reply = self.shared.acquire(rt, &mut self.caller, &pass);
        let _details = pass.forfeit();
        match reply {
            AcquireReply::Got(lease) => AcquireReply::Got(Link::of(lease)),
            AcquireReply::Open(permit) => AcquireReply::Open(permit.forfeit()),
            AcquireReply::Waiting => AcquireReply::Waiting,
            AcquireReply::Cancelled => AcquireReply::Cancelled,
            AcquireReply::Holding => AcquireReply::Holding,
            AcquireReply::Exhausted => AcquireReply::Exhausted,
            AcquireReply::Stale => AcquireReply::Stale,
        }
    }

    pub(crate) fn up<R: Wait>(
        &mut self,
        rt: &R,
        permit: PermitRecord,
        stream: u32,
        key: [u8; 8],
    ) -> UpReply<Link, PermitRecord, u32> {
        let (permit, key) = (Permit::new(permit), ServerKey(key));
        match self.shared.up(rt, &mut self.caller, permit, stream, key) {
            UpReply::Up(lease) => UpReply::Up(Link::of(lease)),
            UpReply::Exhausted(permit, stream) => UpReply::Exhausted(permit.forfeit(), stream),
            UpReply::Stale(stream) => UpReply::Stale(stream),
            UpReply::AtEnd(stream) => UpReply::AtEnd(stream),
        }
    }

    pub(crate) fn up_failed<R: Wait>(&mut self, rt: &R, permit: PermitRecord) -> UpFailedReply {
        self.shared
            .up_failed(rt, &mut self.caller, Permit::new(permit))
    }

    pub(crate) fn release<R: Wait>(&mut self, rt: &R, link: &Link) -> ReleaseReply<u32> {
        self.shared.release(rt, &mut self.caller, link.lease())
    }

    pub(crate) fn close<R: Wait>(&mut self, rt: &R, link: &Link) -> CloseReply<u32> {
        self.shared.close(rt, &mut self.caller, link.lease())
    }

    pub(crate) fn cancel<R: Wait>(&mut self, rt: &R, key: AnyKey) -> Order<TicketRecord> {
        match self.shared.cancel(rt, &mut self.caller, key) {
            Order::Serve(ticket, database, key) => Order::Serve(ticket.forfeit(), database, key),
            Order::Forward(peer, packet) => Order::Forward(peer, packet),
            Order::Unwait(slot) => Order::Unwait(slot),
            Order::Refused(refusal) => Order::Refused(refusal),
        }
    }

    pub(crate) fn ended<R: Wait>(&mut self, rt: &R, ticket: TicketRecord) -> EndedReply {
        self.shared.ended(rt, &mut self.caller, Ticket::new(ticket))
    }

    pub(crate) fn failed<R: Wait>(&mut self, rt: &R, ticket: TicketRecord) -> FailedReply<u32> {
        self.shared
            .failed(rt, &mut self.caller, Ticket::new(ticket))
    }

    pub(crate) fn restart<R: Wait>(&mut self, rt: &R, boot: u64) -> RestartReply {
        self.shared.restart(rt, &mut self.caller, Boot(boot))
    }
}
