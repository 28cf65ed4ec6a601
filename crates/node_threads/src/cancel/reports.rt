//! A cancel request is carried on, and its end is reported to whoever has to know of it.
ghost use Rattle.std.specs.Prelude.{◌≡◌};
ghost use Rattle.startup.specs.CancelPacket.{packet_bytes};
ghost use Rattle.peer_forward.specs.Carrying.{Carried};
ghost use Rattle.peer_forward.specs.Finishing.{Finishes};
ghost use Rattle.peer_forward.specs.declared.outcome.Outcome.TheVariants as outcome;
ghost use Rattle.peer_forward.specs.declared.verdict.Verdict.TheVariants as verdict;
ghost use Rattle.node_threads.specs.Desks.{reported};

use crate::{Context, Gate, Observer, Point, RequestDesk};
use lease::Ticket;
use peer_forward::{Outcome, ReadCalls, Requester, Verdict, WriteCalls, carry, finish};
use startup::Packet;
use std::sync::Wait;

/// Carries the request of a ticket to the link's server, reports to the desk how that ended, and
/// finishes the connection that the request came on, of which the observer is notified. The gate is
/// passed at `Carried` before the desk is called.
pub fn report<R, S, D, G, T, V>(
    context: Context<'_, R, G>,
    observer: &V,
    desk: &mut D,
    server: &mut T,
    ticket: Ticket,
    packet: Packet,
) -> Outcome
where
    R: Wait,
    D: RequestDesk<S>,
    G: Gate,
    T: WriteCalls + ReadCalls,
    V: Observer<T>,
    requires ready { D.ready desk.old }
    ensures carried { Carried T.wrote T.gave server.old (packet_bytes packet) result server.new }
    // One call, with the request's own ticket: it has ended exactly where the carrying has. After
    // that the requester's connection is finished.
    ensures told { (told : _) × D.told desk.old (reported result ticket) told
        × D.finished told (verdict.Carried result) desk.new }
{
    let Context { rt, gate } = context;
    let outcome = carry(server, packet);
    gate.pass(rt, Point::Carried);
    match outcome {
        Outcome::Ended => desk.ended(rt, ticket),
        Outcome::Failed => desk.failed(rt, ticket),
    }
    desk.finish(Verdict::Carried(outcome));
    observer.cancel_ended(Verdict::Carried(outcome));
    outcome
}

/// Reports to the desk that the request of a ticket couldn't be carried, since nobody could be
/// connected to, and finishes the connection that it came on.
pub(crate) fn report_unconnected<R, S, D, G>(
    context: Context<'_, R, G>,
    desk: &mut D,
    ticket: Ticket,
) -> Outcome
where
    R: Wait,
    D: RequestDesk<S>,
    G: Gate,
    requires ready { D.ready desk.old }
    ensures failed { result ≡ outcome.Failed }
    // As failed, and after that the requester's connection is finished.
    ensures told { (told : _) × D.told desk.old (reported result ticket) told
        × D.finished told verdict.NoConnect desk.new }
{
    let Context { rt, gate } = context;
    gate.pass(rt, Point::Carried);
    desk.failed(rt, ticket);
    desk.finish(Verdict::NoConnect);
    Outcome::Failed
}

/// Carries a request to another pooler, and finishes the connection that it came on, of which the
/// observer is notified.
pub fn relay<Q, T, V>(observer: &V, requester: &mut Q, peer: &mut T, packet: Packet) -> Outcome
where
    Q: WriteCalls + Requester,
    T: WriteCalls + ReadCalls,
    V: Observer<T>,
    ensures carried { Carried T.wrote T.gave peer.old (packet_bytes packet) result peer.new }
    ensures finished { Finishes Q.wrote Q.takes requester.old (verdict.Carried result) requester.new }
{
    let outcome = carry(peer, packet);
    finish(requester, Verdict::Carried(outcome));
    observer.cancel_ended(Verdict::Carried(outcome));
    outcome
}
