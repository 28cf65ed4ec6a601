//! A node, and what it handed out. Each value is kept as what it says, and made again to be handed
//! in: so a stale one can be handed in as well.
ghost use Rattle.std.specs.Prelude.{◌≤◌};

use ini_config::Settings;
use node_core::{
    AcquireReply, CloseReply, DatabaseNo, EndedReply, FailedReply, Lease, LeaveReply, LinkRecord,
    NodeCore, Order, Pass, PassRecord, Permit, PermitRecord, ReleaseReply, RestartReply,
    StepRefusal, Ticket, TicketRecord, UpFailedReply, UpReply,
};
use pg_ids::{AnyKey, Boot, Kind, PeerNo, Secret, ServerKey, SlotNo};
use startup::Packet;
use std::alloc::{AllocError, Global};
use std::test::Fail;

const SHOP: DatabaseNo = DatabaseNo(0);

// How many values of a kind are kept without further memory.
const KEPT: usize = 8;

/// What is done at a node. A value is named by how many of its kind were handed out before it.
#[derive(Clone, Copy, Debug, PartialEq, Eq)]
pub(crate) enum Act {
    /// With this secret, and a short key.
    Join(u32),
    /// With this secret, and a long key.
    JoinLong(u32),
    /// As `Join`, whichever slot it gets.
    Enter(u32),
    /// As `JoinLong`, whichever slot it gets.
    EnterLong(u32),
    Leave(usize),
    Acquire(usize),
    /// Over this stream, and with this key.
    Up(usize, u32, [u8; 8]),
    UpFailed(usize),
    Release(usize),
    Close(usize),
    /// With this short key.
    Cancel([u8; 8]),
    /// With the key of this pass.
    CancelOf(usize),
    Ended(usize),
    Failed(usize),
    /// With this boot.
    Restart(u64),
}

impl Act {
    /// The same after these were made.
    pub(crate) fn later(self, made: &Made) -> Act {
        match self {
            Act::Restart(boot) => Act::Restart(boot.saturating_add(made.boots)),
            act => act,
        }
    }
}

/// What a node returned: of a value its key, its number or its link.
#[derive(Clone, Copy, Debug, PartialEq, Eq)]
pub(crate) enum Said {
    Key([u8; 8]),
    /// The first eight bytes of a long key, its boot and its serial.
    LongKey([u8; 8], u64, u64),
    /// With a short key.
    Entered,
    /// With a long key of this boot and this serial.
    EnteredLong(u64, u64),
    Left,
    Open(u64),
    Link(u64),
    Waiting,
    Cancelled,
    /// The link wasn't opened in time, and its stream is handed back.
    Stale(u32),
    UpFailed(UpFailedReply),
    Release(ReleaseReply<u32>),
    Close(CloseReply<u32>),
    Serve(u64, [u8; 8]),
    Forward(u16, [u8; 16]),
    ForwardLong(u16, [u8; 32]),
    /// The client of this slot waits no longer.
    Unwait(u16),
    /// The client of the very pass whose key the request had waits no longer.
    Unwaited,
    Served(u32),
    Ended(EndedReply),
    Failed(FailedReply<u32>),
    Restart(RestartReply),
    Refused(u8),
}

impl Said {
    /// The same after these were made.
    pub(crate) fn later(self, made: &Made) -> Said {
        match self {
            Said::EnteredLong(boot, serial) => {
                // Serials begin anew with each boot.
                let serials = if boot == 0 { made.serials } else { 0 };
                Said::EnteredLong(
                    boot.saturating_add(made.boots),
                    serial.saturating_add(serials),
                )
            }
            Said::Open(number) => Said::Open(number.saturating_add(made.permits)),
            Said::Link(number) => Said::Link(number.saturating_add(made.links)),
            Said::Serve(number, key) => Said::Serve(number.saturating_add(made.tickets), key),
            said => said,
        }
    }

    // What a login returned, whichever slot it got.
    fn entered(self) -> Said {
        match self {
            Said::Key(_first) => Said::Entered,
            Said::LongKey(_first, boot, serial) => Said::EnteredLong(boot, serial),
            said => said,
        }
    }
}

/// What was made by some steps: how many new starts, long keys since the last of these, permits,
/// links and tickets.
#[derive(Clone, Copy, Debug)]
pub(crate) struct Made {
    pub(crate) boots: u64,
    pub(crate) serials: u64,
    pub(crate) permits: u64,
    pub(crate) links: u64,
    pub(crate) tickets: u64,
}

impl Made {
    /// What was made after these too.
    pub(crate) fn and(&self, next: &Made) -> Made {
        let serials = if next.boots == 0 { self.serials } else { 0 };
        Made {
            boots: self.boots.saturating_add(next.boots),
            serials: serials.saturating_add(next.serials),
            permits: self.permits.saturating_add(next.permits),
            links: self.links.saturating_add(next.links),
            tickets: self.tickets.saturating_add(next.tickets),
        }
    }
}

fn key_said(key: AnyKey) -> Said {
    let first = key.short().to_bytes();
    match key.long_part() {
        Some(part) => Said::LongKey(first, part.boot.get(), part.serial.get()),
        None => Said::Key(first),
    }
}

fn forwarded(peer: PeerNo, packet: Packet) -> Said {
    match packet {
        Packet::Short(bytes) => Said::Forward(peer.get(), bytes),
        Packet::Long(bytes) => Said::ForwardLong(peer.get(), bytes),
    }
}

fn refused(refusal: StepRefusal) -> Said {
    Said::Refused(refusal.number())
}

// What was handed out of a link.
#[derive(Clone, Copy, Debug)]
struct Link {
    details: LinkRecord,
    stream: u32,
}

impl Link {
    fn of(lease: Lease<u32>) -> Link {
        Link {
            details: lease.details(),
            stream: lease.forfeit(),
        }
    }

    fn lease(&self) -> Lease<u32> {
        let permit = Permit::new(PermitRecord {
            peer: self.details.peer,
            incarnation: self.details.incarnation,
            number: 0,
            at: self.details.at,
        });
        permit.up(self.details.link, self.stream)
    }
}

/// A node whose streams are numbers, and what it handed out.
#[derive(Drop)]
pub(crate) struct Desk {
    core: NodeCore<u32>,
    passes: Vec<PassRecord>,
    permits: Vec<PermitRecord>,
    links: Vec<Link>,
    tickets: Vec<TicketRecord>,
    // A hash of the keys that it gave (FNV-1a, without its offset).
    keys: u64,
}

impl Desk {
    /// A node with this number, no peers, one database, and the boot 0. Room for what it hands out
    /// is there before the node is made.
    pub(crate) fn new(alloc: Global, me: u16, pool: u16, clients: u32) -> Result<Desk, Fail>
        requires place { 1 ≤ pool }
        requires some { 1 ≤ clients }
        requires within { clients ≤ 65536 }
    {
        let me = PeerNo::new(me).ok_or("no such peer")?;
        let peers = Vec::<PeerNo>::new(alloc);
        let settings = Settings::plain(alloc, me, peers, pool, clients)?;
        let passes = Vec::with_capacity(alloc, KEPT)?;
        let permits = Vec::with_capacity(alloc, KEPT)?;
        let links = Vec::with_capacity(alloc, KEPT)?;
        let tickets = Vec::with_capacity(alloc, KEPT)?;
        Ok(Desk {
            core: NodeCore::new(alloc, &settings, Boot(0))?,
            passes,
            permits,
            links,
            tickets,
            keys: 0,
        })
    }

    /// What was handed out so far is forgotten.
    pub(crate) fn forget(&mut self) {
        self.passes.clear();
        self.permits.clear();
        self.links.clear();
        self.tickets.clear();
    }

    /// A hash of the short keys, and the first halves of the long ones, that it gave so far.
    pub(crate) fn keys(&self) -> u64 {
        self.keys
    }

    fn note(&mut self, key: AnyKey) {
        for byte in key.short().to_bytes() {
            self.keys = (self.keys ^ u64::from(byte)).wrapping_mul(0x0100_0000_01b3);
        }
    }

    /// The slot that the next client gets.
    pub(crate) fn next_slot(&self) -> Option<SlotNo> {
        self.core.next_slot()
    }

    /// Does this, and says what the node returned.
    pub(crate) fn act(&mut self, act: Act) -> Result<Said, Fail> {
        match act {
            Act::Join(secret) => self.join(secret, Kind::Short),
            Act::JoinLong(secret) => self.join(secret, Kind::Long),
            Act::Enter(secret) => Ok(self.join(secret, Kind::Short)?.entered()),
            Act::EnterLong(secret) => Ok(self.join(secret, Kind::Long)?.entered()),
            Act::Leave(pass) => self.leave(pass),
            Act::Acquire(pass) => self.acquire(pass),
            Act::Up(permit, stream, key) => self.up(permit, stream, key),
            Act::UpFailed(permit) => self.up_failed(permit),
            Act::Release(link) => self.release(link),
            Act::Close(link) => self.close(link),
            Act::Cancel(key) => Ok(self.cancel(AnyKey::from_short_bytes(key))?),
            Act::CancelOf(pass) => self.cancel_of(pass),
            Act::Ended(ticket) => self.ended(ticket),
            Act::Failed(ticket) => self.failed(ticket),
            Act::Restart(boot) => Ok(Said::Restart(self.core.restart(Boot(boot)))),
        }
    }

    fn pass(&self, number: usize) -> Result<Pass, Fail> {
        Ok(Pass::new(self.passes.get(number).copied().ok_or("no such pass")?))
    }

    fn permit(&self, number: usize) -> Result<Permit, Fail> {
        Ok(Permit::new(self.permits.get(number).copied().ok_or("no such permit")?))
    }

    fn lease(&self, number: usize) -> Result<Lease<u32>, Fail> {
        Ok(self.links.get(number).ok_or("no such link")?.lease())
    }

    fn ticket(&self, number: usize) -> Result<Ticket, Fail> {
        Ok(Ticket::new(self.tickets.get(number).copied().ok_or("no such ticket")?))
    }

    fn join(&mut self, secret: u32, kind: Kind) -> Result<Said, Fail> {
        if self.core.pool_sizes().is_empty() {
            return Err(Fail::from("no database"));
        }
        match self.core.join(SHOP, Secret(secret), kind) {
            Ok(pass) => {
                let said = key_said(pass.key());
                self.note(pass.key());
                self.passes.push(pass.forfeit())?;
                Ok(said)
            }
            Err(refusal) => Ok(Said::Refused(refusal.number())),
        }
    }

    fn leave(&mut self, pass: usize) -> Result<Said, Fail> {
        let pass = self.pass(pass)?;
        Ok(match self.core.leave(pass) {
            LeaveReply::Left => Said::Left,
            LeaveReply::Holding(pass) => {
                let _details = pass.forfeit();
                refused(StepRefusal::Holding)
            }
            LeaveReply::Stale => refused(StepRefusal::Stale),
            LeaveReply::Exhausted => refused(StepRefusal::Exhausted),
        })
    }

    fn acquire(&mut self, pass: usize) -> Result<Said, Fail> {
        let pass = self.pass(pass)?;
        let reply = self.core.acquire(&pass);
        let _details = pass.forfeit();
        match reply {
            AcquireReply::Got(lease) => Ok(self.lent(lease)?),
            AcquireReply::Open(permit) => {
                let said = Said::Open(permit.details().number);
                self.permits.push(permit.forfeit())?;
                Ok(said)
            }
            AcquireReply::Waiting => Ok(Said::Waiting),
            AcquireReply::Cancelled => Ok(Said::Cancelled),
            AcquireReply::Holding => Ok(refused(StepRefusal::Holding)),
            AcquireReply::Exhausted => Ok(refused(StepRefusal::Exhausted)),
            AcquireReply::Stale => Ok(refused(StepRefusal::Stale)),
        }
    }

    fn lent(&mut self, lease: Lease<u32>) -> Result<Said, AllocError> {
        let said = Said::Link(lease.details().link.0);
        self.links.push(Link::of(lease))?;
        Ok(said)
    }

    fn up(&mut self, permit: usize, stream: u32, key: [u8; 8]) -> Result<Said, Fail> {
        let permit = self.permit(permit)?;
        match self.core.up(permit, stream, ServerKey(key)) {
            UpReply::Up(lease) => Ok(self.lent(lease)?),
            UpReply::Exhausted(permit, _stream) => {
                let _details = permit.forfeit();
                Ok(refused(StepRefusal::Exhausted))
            }
            UpReply::Stale(stream) => Ok(Said::Stale(stream)),
            UpReply::AtEnd(_stream) => Ok(refused(StepRefusal::Exhausted)),
        }
    }

    fn up_failed(&mut self, permit: usize) -> Result<Said, Fail> {
        let permit = self.permit(permit)?;
        Ok(Said::UpFailed(self.core.up_failed(permit)))
    }

    fn release(&mut self, link: usize) -> Result<Said, Fail> {
        let lease = self.lease(link)?;
        Ok(Said::Release(self.core.release(lease)))
    }

    fn close(&mut self, link: usize) -> Result<Said, Fail> {
        let lease = self.lease(link)?;
        Ok(Said::Close(self.core.close(lease)))
    }

    fn cancel(&mut self, key: AnyKey) -> Result<Said, AllocError> {
        match self.core.cancel(key) {
            Order::Serve(ticket, _database, server_key) => {
                let said = Said::Serve(ticket.details().number, server_key.0);
                self.tickets.push(ticket.forfeit())?;
                Ok(said)
            }
            Order::Forward(peer, packet) => Ok(forwarded(peer, packet)),
            Order::Unwait(slot) => Ok(Said::Unwait(slot.get())),
            Order::Refused(refusal) => Ok(Said::Refused(refusal.number())),
        }
    }

    fn cancel_of(&mut self, pass: usize) -> Result<Said, Fail> {
        let pass = self.pass(pass)?.forfeit();
        let said = self.cancel(pass.key)?;
        if said == Said::Unwait(pass.key.slot().get()) {
            Ok(Said::Unwaited)
        } else {
            Ok(said)
        }
    }

    fn ended(&mut self, ticket: usize) -> Result<Said, Fail> {
        let ticket = self.ticket(ticket)?;
        Ok(Said::Ended(self.core.ended(ticket)))
    }

    fn failed(&mut self, ticket: usize) -> Result<Said, Fail> {
        let ticket = self.ticket(ticket)?;
        Ok(Said::Failed(self.core.failed(ticket)))
    }
}
