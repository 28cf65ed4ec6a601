//! The nodes of a world, and their steps.
ghost use Rattle.std.specs.Prelude.{◌≡◌, ◌==◌, ◌<◌, ℕ, List, IfSome, IfNone, IfOk, length, position, ⊤};
ghost use Rattle.link_pool.specs.Said.{acquire_said, up_said, release_said, close_said, failed_said};
ghost use Rattle.node_core.specs.declared.exchange.Exchange.{Exchange};
ghost use Rattle.node_core.specs.declared.exchange.Exchange.TheVariants as call;
ghost use Rattle.node_core.specs.View.{NodeView, IsView};
ghost use Rattle.node_core.specs.NodeStep.{IsStep};
ghost use Rattle.world.specs.World.{IsNode};
ghost use Rattle.world.specs.WorldRun.{AreFresh};
ghost use Rattle.world.specs.Changes.{Steps};
ghost use Rattle.world.specs.Facts.{AreApart, AreWhole};

use ini_config::Group;
use node_core::{
    AcquireReply, CloseReply, DatabaseNo, EndedReply, FailedReply, JoinRefusal, Lease, LeaveReply,
    LinkRecord, NodeCore, Order, Pass, PassRecord, Permit, PermitRecord, ReleaseReply,
    RestartReply, Ticket, TicketRecord, UpFailedReply, UpReply,
};
use pg_ids::{AnyKey, Boot, Kind, PeerNo, Secret, ServerKey};
use std::alloc::{AllocError, Global};
use std::marker::Model;

/// The stream of a link in a world, where nothing is sent over it.
#[derive(Clone, Copy, Debug, PartialEq, Eq)]
pub(crate) struct Token;

/// The nodes of a group, in its order.
#[derive(Drop)]
pub(crate) struct Nodes {
    cores: Vec<NodeCore<Token>>,
}

impl Model for Nodes {
    ghost use Rattle.std.specs.Prelude.{List, map};
    ghost use Rattle.node_core.specs.View.{NodeView};
    ghost use Rattle.world.specs.Facts.{AreKept};

    ghost Value = { List NodeView };

    ghost view = { λ n. map (λ core. core.view) n.cores.items };

    ghost invariant = { λ n. AreKept (map (λ core. core.view) n.cores.items) };
}

impl Nodes {
    /// The nodes of a group, just made, with boot 0.
    pub fn new(alloc: Global, group: &Group) -> Result<Nodes, AllocError>
        ensures { IfOk result (λ nodes. AreFresh group.now nodes) }
    {
        let mut cores = Vec::with_capacity(alloc, group.len())?;
        for settings in group.nodes() {
            let core = NodeCore::new(alloc, settings, Boot(0))?;
            known(&core);
            cores.push(core)?;
        }
        Ok(Nodes { cores })
    }

    /// How many nodes there are.
    pub fn len(&self) -> usize
        ensures count { result ≡ length self.now }
        // What is true of every node.
        ensures whole { AreWhole self.now }
    {
        self.cores.len()
    }

    // The place of a node.
    fn place(&self, node: PeerNo) -> Option<usize>
        ensures found { IfSome result (λ place. (view : NodeView)
            × IsNode self.now node place view) }
        ensures none { IfNone result ((place : ℕ) (view : NodeView)
            → IsNode self.now node place view → ⊥) }
    {
        place_of(&self.cores, node)
    }

    /// A node.
    pub fn get(&self, node: PeerNo) -> Option<&NodeCore<Token>>
        ensures found { IfSome result (λ core. (place : ℕ)
            × IsNode self.now node place core.now.view) }
        ensures none { IfNone result ((place : ℕ) (view : NodeView)
            → IsNode self.now node place view → ⊥) }
        // What is true of every node, and that no two have one number.
        ensures whole { AreWhole self.now }
        ensures apart { AreApart self.now }
    {
        self.cores.get(self.place(node)?)
    }

    // A step of a node that may make it, and of no other.
    fn step<C: Step>(&mut self, node: PeerNo, made: C) -> C::Reply
        requires { (place : ℕ) × (view : NodeView) × IsNode self.old node place view
            × C.can_make view.pools made }
        ensures step { Steps node (C.exchange made result) self.old self.new }
        // What was true of every node.
        ensures whole { AreWhole self.old }
    {
        let Some(place) = self.place(node) else {
            unreachable!()
        };
        let reply = made.make(&mut self.cores[place]);
        known(&self.cores[place]);
        reply
    }

    /// A client logs in.
    pub fn join(
        &mut self,
        node: PeerNo,
        database: DatabaseNo,
        secret: Secret,
        kind: Kind,
    ) -> Result<PassRecord, JoinRefusal>
        requires has { (place : ℕ) × (view : NodeView) × IsNode self.old node place view
            × (database < length view.pools) }
        ensures { Steps node (call.Join database secret kind result) self.old self.new }
    {
        self.step(node, Join(database, secret, kind))
    }

    /// The client of a pass leaves.
    pub fn leave(&mut self, node: PeerNo, pass: PassRecord) -> LeaveReply<PassRecord>
        requires has { (place : ℕ) × (view : NodeView) × IsNode self.old node place view }
        ensures { Steps node (call.Leave pass result) self.old self.new }
    {
        self.step(node, Leave(pass))
    }

    /// The client of a pass asks for a link.
    pub fn acquire(
        &mut self,
        node: PeerNo,
        pass: PassRecord,
    ) -> AcquireReply<LinkRecord, PermitRecord>
        requires has { (place : ℕ) × (view : NodeView) × IsNode self.old node place view }
        ensures step { Steps node (call.Acquire pass result) self.old self.new }
        // What was true of every node.
        ensures whole { AreWhole self.old }
    {
        self.step(node, Acquire(pass))
    }

    /// The link of a permit is open, and its server cancels by this key.
    pub fn up(
        &mut self,
        node: PeerNo,
        permit: PermitRecord,
        key: ServerKey,
    ) -> UpReply<LinkRecord, PermitRecord, ()>
        requires has { (place : ℕ) × (view : NodeView) × IsNode self.old node place view }
        ensures { Steps node (call.Up permit key result) self.old self.new }
    {
        self.step(node, Up(permit, key))
    }

    /// The link of a permit couldn't be opened.
    pub fn up_failed(&mut self, node: PeerNo, permit: PermitRecord) -> UpFailedReply
        requires has { (place : ℕ) × (view : NodeView) × IsNode self.old node place view }
        ensures { Steps node (call.UpFailed permit result) self.old self.new }
    {
        self.step(node, UpFailed(permit))
    }

    /// A client gives its link back.
    pub fn release(&mut self, node: PeerNo, lease: LinkRecord) -> ReleaseReply<()>
        requires has { (place : ℕ) × (view : NodeView) × IsNode self.old node place view }
        ensures { Steps node (call.Release lease result) self.old self.new }
    {
        self.step(node, Release(lease))
    }

    /// A client closes its link.
    pub fn close(&mut self, node: PeerNo, lease: LinkRecord) -> CloseReply<()>
        requires has { (place : ℕ) × (view : NodeView) × IsNode self.old node place view }
        ensures { Steps node (call.Close lease result) self.old self.new }
    {
        self.step(node, Close(lease))
    }

    /// A cancel request comes.
    pub fn cancel(&mut self, node: PeerNo, key: AnyKey) -> Order<TicketRecord>
        requires has { (place : ℕ) × (view : NodeView) × IsNode self.old node place view }
        ensures { Steps node (call.Cancel key result) self.old self.new }
    {
        self.step(node, Cancel(key))
    }

    /// The cancel request of a ticket ended cleanly.
    pub fn ended(&mut self, node: PeerNo, ticket: TicketRecord) -> EndedReply
        requires has { (place : ℕ) × (view : NodeView) × IsNode self.old node place view }
        ensures { Steps node (call.Ended ticket result) self.old self.new }
    {
        self.step(node, Ended(ticket))
    }

    /// The cancel request of a ticket didn't end cleanly.
    pub fn failed(&mut self, node: PeerNo, ticket: TicketRecord) -> FailedReply<()>
        requires has { (place : ℕ) × (view : NodeView) × IsNode self.old node place view }
        ensures { Steps node (call.Failed ticket result) self.old self.new }
    {
        self.step(node, Failed(ticket))
    }

    /// A node is started anew.
    pub fn restart(&mut self, node: PeerNo, boot: Boot) -> RestartReply
        requires has { (place : ℕ) × (view : NodeView) × IsNode self.old node place view }
        ensures { Steps node (call.Restart boot result) self.old self.new }
    {
        self.step(node, Restart(boot))
    }
}

// Does nothing when it runs: says what is true of every node. The checker doesn't know the invariant
// of another type's value, only what a method of that type states.
fn known(core: &NodeCore<Token>)
    ensures { IsView core.now.view }
{
    core.incarnation();
}

// The first place of a node with this number.
fn place_of(cores: &[NodeCore<Token>], node: PeerNo) -> Option<usize>
    ensures { result ≡ position (λ core. core.view.me == node) cores.now }
{
    cores.iter().position(|core| core.me() == node)
}

// What a step of a node hands in.
trait Step: Copy {
    // What the node replies.
    type Reply;

    // The call with its reply.
    ghost exchange: { Self → Self.Reply → Exchange };

    // Holds of a step that may be made at a node whose databases have these pools.
    ghost can_make: { List ℕ → Self → Type 0 } = { λ _ _. ⊤ };

    // Makes the step.
    fn make(self, core: &mut NodeCore<Token>) -> Self::Reply
        requires { can_make core.old.view.pools self }
        ensures { IsStep (exchange self result) core.old core.new };
}

#[derive(Clone, Copy)]
struct Join(DatabaseNo, Secret, Kind);

impl Step for Join {
    type Reply = Result<PassRecord, JoinRefusal>;

    ghost exchange = { λ made reply. call.Join made.0 made.1 made.2 reply };

    ghost can_make = { λ pools made. made.0 < length pools };

    fn make(self, core: &mut NodeCore<Token>) -> Self::Reply {
        match core.join(self.0, self.1, self.2) {
            Ok(pass) => Ok(pass.spend()),
            Err(refusal) => Err(refusal),
        }
    }
}

#[derive(Clone, Copy)]
struct Leave(PassRecord);

impl Step for Leave {
    type Reply = LeaveReply<PassRecord>;

    ghost exchange = { λ made reply. call.Leave made.0 reply };

    fn make(self, core: &mut NodeCore<Token>) -> Self::Reply {
        match core.leave(Pass::new(self.0)) {
            LeaveReply::Left => LeaveReply::Left,
            LeaveReply::Holding(again) => LeaveReply::Holding(again.spend()),
            LeaveReply::Stale => LeaveReply::Stale,
            LeaveReply::Exhausted => LeaveReply::Exhausted,
        }
    }
}

#[derive(Clone, Copy)]
struct Acquire(PassRecord);

impl Step for Acquire {
    type Reply = AcquireReply<LinkRecord, PermitRecord>;

    ghost exchange = { λ made reply. call.Acquire made.0 reply };

    fn make(self, core: &mut NodeCore<Token>) -> Self::Reply {
        let PassRecord {
            key,
            incarnation,
            number,
        } = self.0;
        let pass = pass_of(key, incarnation, number);
        let reply = core.acquire(&pass);
        pass.spend();
        match reply {
            AcquireReply::Got(lease) => AcquireReply::Got(spent(lease)),
            AcquireReply::Open(permit) => AcquireReply::Open(permit.spend()),
            AcquireReply::Waiting => AcquireReply::Waiting,
            AcquireReply::Cancelled => AcquireReply::Cancelled,
            AcquireReply::Holding => AcquireReply::Holding,
            AcquireReply::Exhausted => AcquireReply::Exhausted,
            AcquireReply::Stale => AcquireReply::Stale,
        }
    }
}

#[derive(Clone, Copy)]
struct Up(PermitRecord, ServerKey);

impl Step for Up {
    type Reply = UpReply<LinkRecord, PermitRecord, ()>;

    ghost exchange = { λ made reply. call.Up made.0 made.1 reply };

    fn make(self, core: &mut NodeCore<Token>) -> Self::Reply {
        match core.up(Permit::new(self.0), Token, self.1) {
            UpReply::Up(lease) => UpReply::Up(spent(lease)),
            UpReply::Exhausted(permit, Token) => UpReply::Exhausted(permit.spend(), ()),
            UpReply::Stale(Token) => UpReply::Stale(()),
            UpReply::AtEnd(Token) => UpReply::AtEnd(()),
        }
    }
}

#[derive(Clone, Copy)]
struct UpFailed(PermitRecord);

impl Step for UpFailed {
    type Reply = UpFailedReply;

    ghost exchange = { λ made reply. call.UpFailed made.0 reply };

    fn make(self, core: &mut NodeCore<Token>) -> Self::Reply {
        core.up_failed(Permit::new(self.0))
    }
}

#[derive(Clone, Copy)]
struct Release(LinkRecord);

impl Step for Release {
    type Reply = ReleaseReply<()>;

    ghost exchange = { λ made reply. call.Release made.0 reply };

    fn make(self, core: &mut NodeCore<Token>) -> Self::Reply {
        match core.release(lease_of(self.0)) {
            ReleaseReply::Idle => ReleaseReply::Idle,
            ReleaseReply::Quarantined => ReleaseReply::Quarantined,
            ReleaseReply::Closed(Token) => ReleaseReply::Closed(()),
            ReleaseReply::Stale(Token) => ReleaseReply::Stale(()),
            ReleaseReply::Exhausted(Token) => ReleaseReply::Exhausted(()),
        }
    }
}

#[derive(Clone, Copy)]
struct Close(LinkRecord);

impl Step for Close {
    type Reply = CloseReply<()>;

    ghost exchange = { λ made reply. call.Close made.0 reply };

    fn make(self, core: &mut NodeCore<Token>) -> Self::Reply {
        match core.close(lease_of(self.0)) {
            CloseReply::Closed(Token) => CloseReply::Closed(()),
            CloseReply::Stale(Token) => CloseReply::Stale(()),
            CloseReply::Exhausted(Token) => CloseReply::Exhausted(()),
        }
    }
}

#[derive(Clone, Copy)]
struct Cancel(AnyKey);

impl Step for Cancel {
    type Reply = Order<TicketRecord>;

    ghost exchange = { λ made reply. call.Cancel made.0 reply };

    fn make(self, core: &mut NodeCore<Token>) -> Self::Reply {
        match core.cancel(self.0) {
            Order::Serve(ticket, database, key) => Order::Serve(ticket.spend(), database, key),
            Order::Forward(peer, packet) => Order::Forward(peer, packet),
            Order::Unwait(slot) => Order::Unwait(slot),
            Order::Refused(refusal) => Order::Refused(refusal),
        }
    }
}

#[derive(Clone, Copy)]
struct Ended(TicketRecord);

impl Step for Ended {
    type Reply = EndedReply;

    ghost exchange = { λ made reply. call.Ended made.0 reply };

    fn make(self, core: &mut NodeCore<Token>) -> Self::Reply {
        core.ended(Ticket::new(self.0))
    }
}

#[derive(Clone, Copy)]
struct Failed(TicketRecord);

impl Step for Failed {
    type Reply = FailedReply<()>;

    ghost exchange = { λ made reply. call.Failed made.0 reply };

    fn make(self, core: &mut NodeCore<Token>) -> Self::Reply {
        match core.failed(Ticket::new(self.0)) {
            FailedReply::Condemned => FailedReply::Condemned,
            FailedReply::Closed(Token) => FailedReply::Closed(()),
            FailedReply::Stale => FailedReply::Stale,
            FailedReply::Exhausted => FailedReply::Exhausted,
        }
    }
}

#[derive(Clone, Copy)]
struct Restart(Boot);

impl Step for Restart {
    type Reply = RestartReply;

    ghost exchange = { λ made reply. call.Restart made.0 reply };

    fn make(self, core: &mut NodeCore<Token>) -> Self::Reply {
        core.restart(self.0)
    }
}

// The pass of this key.
fn pass_of(key: AnyKey, incarnation: u64, number: u64) -> Pass
    ensures { result ≡ record { key = key; incarnation = incarnation; number = number } }
{
    Pass::new(PassRecord {
        key,
        incarnation,
        number,
    })
}

// A lease with this record. A world keeps what each value says, and makes it anew for the step that
// takes it, so that a client may hand in stale ones, and a world may be dropped at any time.
fn lease_of(details: LinkRecord) -> Lease<Token>
    ensures { result.details ≡ details }
{
    let LinkRecord {
        peer,
        incarnation,
        link,
        at,
    } = details;
    let permit = Permit::new(PermitRecord {
        peer,
        incarnation,
        number: 0,
        at,
    });
    permit.up(link, Token)
}

// What a lease says, which is spent.
fn spent(lease: Lease<Token>) -> LinkRecord
    ensures { result ≡ lease.details }
{
    let details = lease.details();
    let Token = lease.forfeit();
    details
}
