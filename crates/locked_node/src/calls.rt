//! The steps of a node behind its lock: each takes the lock, makes the step's call of the journal,
//! and gives the lock back. A caller without allowance makes no call: what was handed in is spent,
//! and nothing changes.
ghost use Rattle.std.specs.Prelude.{◌≡◌, ◌<◌, length, Err};
ghost use Rattle.link_pool.specs.Said.{acquire_said, up_said, release_said, close_said, failed_said};
ghost use Rattle.link_pool.specs.Streams.{UpStreams, ReleaseStreams, CloseStreams};
ghost use Rattle.link_pool.specs.declared.replies.AcquireReply.TheVariants as acquire;
ghost use Rattle.link_pool.specs.declared.replies.UpReply.TheVariants as up;
ghost use Rattle.link_pool.specs.declared.replies.UpFailedReply.TheVariants as failing;
ghost use Rattle.link_pool.specs.declared.replies.ReleaseReply.TheVariants as release;
ghost use Rattle.link_pool.specs.declared.replies.CloseReply.TheVariants as close;
ghost use Rattle.link_pool.specs.declared.replies.EndedReply.TheVariants as ended;
ghost use Rattle.link_pool.specs.declared.replies.FailedReply.TheVariants as failed;
ghost use Rattle.link_pool.specs.declared.replies.RestartReply.TheVariants as restart;
ghost use Rattle.node_core.specs.declared.exchange.Exchange.TheVariants as call;
ghost use Rattle.node_core.specs.declared.exchange.LeaveReply.TheVariants as leave;
ghost use Rattle.node_core.specs.declared.exchange.Order.TheVariants as order;
ghost use Rattle.node_core.specs.declared.refusal.JoinRefusal.TheVariants as join;
ghost use Rattle.node_core.specs.declared.refusal.CancelRefusal.TheVariants as cancel;

use crate::call::Call;
use crate::caller::Caller;
use crate::shared::Shared;
use crate::steps::{
    Acquire, Cancel, Close, Ended, Failed, Join, Leave, Release, Restart, Up, UpFailed,
};
use node_core::{
    AcquireReply, CloseReply, DatabaseNo, EndedReply, FailedReply, JoinRefusal, Lease, LeaveReply,
    Order, Pass, Permit, ReleaseReply, RestartReply, Ticket, UpFailedReply, UpReply,
};
use pg_ids::{AnyKey, Boot, Kind, Secret, ServerKey};
use std::sync::Wait;

impl<S: Drop> Shared<S> {
    ghost use Rattle.locked_node.specs.Lock.{Counted, Somewhere};

    // Makes a call of any step, and wakes whoever's turn it is as soon as the lock is given back.
    #[inline(always)]
    fn call<R: Wait, C: Call<S>>(&self, rt: &R, caller: &mut Caller<S>, call: C) -> C::Reply
        requires own { caller.old.lock ≡ self.now }
        requires can { C.can_make caller.old.start.view.pools call }
        ensures counted { Counted (C.exchange (C.handed call) result) result (C.at_end call)
            caller.old caller.new }
        ensures streams { Somewhere (C.streams call result) }
    {
        if caller.allowance == 0 {
            return call.forfeit();
        }
        self.take(rt, &mut caller.seat);
        let reply = self.make(&mut caller.seat, call, &mut caller.note);
        self.pass_on(rt, &mut caller.seat, &caller.note.turn);
        caller.allowance -= 1;
        caller.tally.add(&caller.note);
        reply
    }

    /// Gives a client of this database a slot, with this secret, and a key of this kind. Fails with
    /// `Exhausted` without allowance.
    #[inline(never)]
    pub fn join<R: Wait>(
        &self,
        rt: &R,
        caller: &mut Caller<S>,
        database: DatabaseNo,
        secret: Secret,
        kind: Kind,
    ) -> Result<Pass, JoinRefusal>
        requires own { caller.old.lock ≡ self.now }
        requires database { database < length caller.old.start.view.pools }
        ensures counted { Counted (call.Join database secret kind result) result
            (Err join.Exhausted) caller.old caller.new }
    {
        self.call(rt, caller, Join(database, secret, kind))
    }

    /// Frees the slot of a pass. Without allowance the pass is spent.
    #[inline(never)]
    pub fn leave<R: Wait>(&self, rt: &R, caller: &mut Caller<S>, pass: Pass) -> LeaveReply<Pass>
        requires own { caller.old.lock ≡ self.now }
        ensures counted { Counted (call.Leave pass result) result leave.Exhausted
            caller.old caller.new }
    {
        self.call(rt, caller, Leave(pass))
    }

    /// Asks for a link for the client of a pass. Returns `Exhausted` without allowance.
    pub fn acquire<R: Wait>(
        &self,
        rt: &R,
        caller: &mut Caller<S>,
        pass: &Pass,
    ) -> AcquireReply<Lease<S>, Permit>
        requires own { caller.old.lock ≡ self.now }
        ensures counted { Counted (call.Acquire pass.now (acquire_said result))
            result acquire.Exhausted caller.old caller.new }
    {
        self.call(rt, caller, Acquire(pass))
    }

    /// Reports that the link of a permit is open over this stream, and which key its server cancels
    /// by. Without allowance the permit is spent, and the stream comes back.
    pub fn up<R: Wait>(
        &self,
        rt: &R,
        caller: &mut Caller<S>,
        permit: Permit,
        stream: S,
        key: ServerKey,
    ) -> UpReply<Lease<S>, Permit, S>
        requires own { caller.old.lock ≡ self.now }
        ensures counted { Counted (call.Up permit key (up_said result)) result (up.AtEnd stream)
            caller.old caller.new }
        ensures streams { Somewhere (UpStreams stream result) }
    {
        self.call(rt, caller, Up(permit, stream, key))
    }

    /// Reports that the link of a permit couldn't be opened. Without allowance the permit is spent.
    pub fn up_failed<R: Wait>(
        &self,
        rt: &R,
        caller: &mut Caller<S>,
        permit: Permit,
    ) -> UpFailedReply
        requires own { caller.old.lock ≡ self.now }
        ensures counted { Counted (call.UpFailed permit result) result failing.Exhausted
            caller.old caller.new }
    {
        self.call(rt, caller, UpFailed(permit))
    }

    /// Gives a link back to its pool. Without allowance the lease is spent, and its stream comes
    /// back.
    pub fn release<R: Wait>(
        &self,
        rt: &R,
        caller: &mut Caller<S>,
        lease: Lease<S>,
    ) -> ReleaseReply<S>
        requires own { caller.old.lock ≡ self.now }
        ensures counted { Counted (call.Release lease.details (release_said result))
            result (release.Exhausted lease.stream) caller.old caller.new }
        ensures streams { Somewhere (ReleaseStreams lease result) }
    {
        self.call(rt, caller, Release(lease))
    }

    /// Takes a link out of its pool. Without allowance the lease is spent, and its stream comes
    /// back.
    pub fn close<R: Wait>(&self, rt: &R, caller: &mut Caller<S>, lease: Lease<S>) -> CloseReply<S>
        requires own { caller.old.lock ≡ self.now }
        ensures counted { Counted (call.Close lease.details (close_said result))
            result (close.Exhausted lease.stream) caller.old caller.new }
        ensures streams { Somewhere (CloseStreams lease result) }
    {
        self.call(rt, caller, Close(lease))
    }

    /// Decides on a cancel request with this key. Without allowance it is refused.
    pub fn cancel<R: Wait>(&self, rt: &R, caller: &mut Caller<S>, key: AnyKey) -> Order<Ticket>
        requires own { caller.old.lock ≡ self.now }
        ensures counted { Counted (call.Cancel key result)
            result (order.Refused cancel.Exhausted) caller.old caller.new }
    {
        self.call(rt, caller, Cancel(key))
    }

    /// Reports that the cancel request of a ticket has ended cleanly. Without allowance the ticket
    /// is spent.
    pub fn ended<R: Wait>(&self, rt: &R, caller: &mut Caller<S>, ticket: Ticket) -> EndedReply
        requires own { caller.old.lock ≡ self.now }
        ensures counted { Counted (call.Ended ticket result) result ended.Exhausted
            caller.old caller.new }
    {
        self.call(rt, caller, Ended(ticket))
    }

    /// Reports that the cancel request of a ticket hasn't ended cleanly. Without allowance the
    /// ticket is spent.
    pub fn failed<R: Wait>(&self, rt: &R, caller: &mut Caller<S>, ticket: Ticket) -> FailedReply<S>
        requires own { caller.old.lock ≡ self.now }
        ensures counted { Counted (call.Failed ticket (failed_said result)) result failed.Exhausted
            caller.old caller.new }
    {
        self.call(rt, caller, Failed(ticket))
    }

    /// Starts the node anew, with this boot. It is the one step whose work under the lock grows
    /// with the node: each slot is freed, and the streams of links that nobody holds are dropped.
    /// Whoever waits for a turn is woken. Returns `Exhausted` without allowance.
    pub fn restart<R: Wait>(&self, rt: &R, caller: &mut Caller<S>, boot: Boot) -> RestartReply
        requires own { caller.old.lock ≡ self.now }
        ensures counted { Counted (call.Restart boot result) result restart.Exhausted
            caller.old caller.new }
    {
        self.call(rt, caller, Restart(boot))
    }
}
