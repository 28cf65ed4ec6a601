//! A desk that lists its calls.
ghost use Rattle.std.specs.Prelude.{◌≡◌, IfOk, []};

use crate::{Desk, DeskCall};
use lease::{Lease, Ticket};
use std::alloc::{AllocError, Global};
use std::marker::Model;
use std::sync::Wait;

/// A desk that lists its calls, and keeps the streams of the leases that are handed in. It makes no
/// step of a node: tickets and leases are spent without one.
#[derive(Drop)]
pub struct ListDesk<S> {
    calls: Vec<DeskCall>,
    streams: Vec<S>,
}

impl<S> Model for ListDesk<S> {
    ghost use Rattle.std.specs.Prelude.{◌-◌, ◌≤◌, vec_len, vec_capacity};
    ghost use Rattle.node_threads.specs.Desks.{ListView};

    ghost Value = { ListView S };

    ghost view = { λ d. record {
      calls = d.calls.items;
      streams = d.streams.items;
      room = vec_capacity d.calls - vec_len d.calls;
    } };

    ghost invariant = { λ d. (vec_len d.streams ≤ vec_len d.calls)
        × (vec_capacity d.calls ≤ vec_capacity d.streams) };
}

impl<S> ListDesk<S> {
    /// A desk without calls so far, and with room for this many.
    pub fn new(alloc: Global, room: usize) -> Result<ListDesk<S>, AllocError>
        ensures calls { IfOk result (λ desk. desk.calls ≡ []) }
        ensures streams { IfOk result (λ desk. desk.streams ≡ []) }
        ensures room { IfOk result (λ desk. desk.room ≡ room) }
    {
        let calls = Vec::with_capacity(alloc, room)?;
        let streams = Vec::with_capacity(alloc, room)?;
        Ok(ListDesk { calls, streams })
    }

    /// Its calls so far, in order.
    pub fn calls(&self) -> &[DeskCall]
        ensures { result.now ≡ self.now.calls }
    {
        self.calls.as_slice()
    }

    /// The streams of the leases that were handed in, in order.
    pub fn streams(&self) -> &[S]
        ensures { result.now ≡ self.now.streams }
    {
        self.streams.as_slice()
    }
}

impl<S> Desk<S> for ListDesk<S> {
    ghost use Rattle.std.specs.Prelude.{◌≡◌, ◌<◌, ◌++◌, ◌∷◌, []};
    ghost use Rattle.node_threads.specs.Desks.{Lists};
    ghost use Rattle.node_threads.specs.declared.desk.call.DeskCall.TheVariants as call;

    ghost ready = { λ desk. 0 < desk.room };

    ghost told = { Lists };

    ghost took = { λ old stream new. new.streams ≡ old.streams ++ stream ∷ [] };

    fn ended<R: Wait>(&mut self, _rt: &R, ticket: Ticket) {
        self.calls.push_reserved(DeskCall::Ended(ticket.forfeit()));
    }

    fn failed<R: Wait>(&mut self, _rt: &R, ticket: Ticket) {
        self.calls.push_reserved(DeskCall::Failed(ticket.forfeit()));
    }

    fn release<R: Wait>(&mut self, _rt: &R, lease: Lease<S>)
        requires ready { 0 < self.old.room }
        ensures told { Lists self.old (call.Release lease.details) self.new }
        ensures took { self.new.streams ≡ self.old.streams ++ lease.stream ∷ [] }
    {
        self.calls.push_reserved(DeskCall::Release(lease.details()));
        self.streams.push_reserved(lease.forfeit());
    }

    fn close<R: Wait>(&mut self, _rt: &R, lease: Lease<S>)
        requires ready { 0 < self.old.room }
        ensures told { Lists self.old (call.Close lease.details) self.new }
        ensures took { self.new.streams ≡ self.old.streams ++ lease.stream ∷ [] }
    {
        self.calls.push_reserved(DeskCall::Close(lease.details()));
        self.streams.push_reserved(lease.forfeit());
    }
}
