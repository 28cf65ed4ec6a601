//! A cancel connection, from its key to its end.
ghost use Rattle.std.specs.Prelude.{◌≡◌};
ghost use Rattle.pg_ids.specs.declared.any_key.KeyBytes.TheVariants as bytes;
ghost use Rattle.startup.specs.CancelPacket.{packet_of, packet_bytes};
ghost use Rattle.peer_forward.specs.Carrying.{Carried};
ghost use Rattle.peer_forward.specs.Finishing.{Finishes};
ghost use Rattle.peer_forward.specs.declared.outcome.Outcome.TheVariants as outcome;
ghost use Rattle.peer_forward.specs.declared.verdict.Verdict.TheVariants as verdict;
ghost use Rattle.stat_board.specs.Places.{place_of};
ghost use Rattle.node_threads.specs.Desks.{Tells, reported};
ghost use Rattle.node_threads.specs.Cancelling.{Tries, CountsAll, words_of_refusal, word_of_outcome, IsCarried, FinishesCarried, ServesCancel};
ghost use Rattle.node_threads.specs.Balance.{Balanced, CancelsAtMostOnce};

use crate::cancel::report_unconnected;
use crate::observer::process_of;
use crate::{
    CancelOpener, CancelOrder, Context, Counting, Gate, LockDesk, Observer, Point, Requested,
    relay, report,
};
use cancel_router::RouteRefusal;
use lease::Ticket;
use locked_node::{Caller, Shared};
use node_core::{CancelRefusal, Order};
use peer_forward::{Outcome, ReadCalls, Requester, Verdict, WriteCalls, finish};
use pg_ids::{AnyKey, DatabaseNo, PeerNo, ServerKey};
use startup::{Packet, write_cancel};
use stat_board::Counter;
use std::sync::Wait;

/// Serves a cancel connection, once its key was read, to its end: the node gives its order, which
/// is carried out over a connection of its own and reported, and the connection that the request
/// came on is finished. What has a word on the board is counted; a seat without allowance counts
/// nothing. No second connection can be opened: connecting consumes the opener. The observer is
/// notified of the order, and of the verdict once the requester's connection is finished.
pub fn serve_cancel<R, S, O, G, Q, V>(
    context: Context<'_, R, G>,
    observer: &V,
    shared: &Shared<S>,
    caller: &mut Caller<S>,
    counting: &mut Counting,
    opener: O,
    requester: &mut Q,
    key: AnyKey,
)
where
    R: Wait,
    S: Drop,
    O: CancelOpener,
    G: Gate,
    Q: WriteCalls + Requester,
    V: Observer<O::Stream>,
    requires own { caller.old.lock ≡ shared.now }
    // One order for this key, which is carried out over a connection that was opened for it,
    // reported if it has a ticket, and counted. The requester's connection is finished by its
    // verdict.
    ensures served { ServesCancel
        (IsCarried ⟦<O::Stream as WriteCalls>⟧.wrote ⟦<O::Stream as ReadCalls>⟧.gave
        (O.cancels opener))
        (IsCarried ⟦<O::Stream as WriteCalls>⟧.wrote ⟦<O::Stream as ReadCalls>⟧.gave
        (O.reaches opener))
        key caller.old caller.new counting.old.seat counting.new.seat
        (λ verdict. Finishes Q.wrote Q.takes requester.old verdict requester.new) }
    // Each ticket that was made was spent, and nothing else was made or spent.
    ensures balanced { Balanced caller.old caller.new }
    ensures once { CancelsAtMostOnce caller.old caller.new }
    ensures board { counting.new.seat.board ≡ counting.old.seat.board }
{
    match shared.cancel(context.rt, caller, key) {
        Order::Serve(ticket, database, server) => {
            observer.cancel_ordered(CancelOrder::Server(database, process_of(server)));
            counting.count(Counter::Sent);
            let packet = server_request(server);
            let request = Request {
                ticket,
                database,
                packet,
            };
            let outcome = serve(
                context, observer, shared, caller, opener, requester, request,
            );
            count_outcome(counting, outcome);
        }
        Order::Forward(peer, packet) => {
            observer.cancel_ordered(CancelOrder::Peer(peer));
            counting.count(Counter::Forwarded);
            let _outcome = forward(context, observer, opener, requester, peer, packet);
        }
        Order::Unwait(_) => {
            observer.cancel_ordered(CancelOrder::Unwait);
            finish(requester, Verdict::Unwaited);
            observer.cancel_ended(Verdict::Unwaited);
        }
        Order::Refused(refusal) => {
            observer.cancel_ordered(CancelOrder::Refused(refusal));
            count_refusal(counting, refusal);
            finish(requester, Verdict::Refused);
            observer.cancel_ended(Verdict::Refused);
        }
    }
}

// A request for a server: its ticket, the database at whose server its link is, and the packet.
struct Request {
    ticket: Ticket,
    database: DatabaseNo,
    packet: Packet,
}

// Carries a request to the server of its database, and reports to the node how that ended: as
// failed if the server can't be connected to.
fn serve<R, S, O, G, Q, V>(
    context: Context<'_, R, G>,
    observer: &V,
    shared: &Shared<S>,
    caller: &mut Caller<S>,
    opener: O,
    requester: &mut Q,
    request: Request,
) -> Outcome
where
    R: Wait,
    S: Drop,
    O: CancelOpener,
    G: Gate,
    Q: WriteCalls + Requester,
    V: Observer<O::Stream>,
    requires own { caller.old.lock ≡ shared.now }
    ensures told { Tells (reported result request.ticket) caller.old caller.new }
    ensures finished { FinishesCarried
        (IsCarried ⟦<O::Stream as WriteCalls>⟧.wrote ⟦<O::Stream as ReadCalls>⟧.gave
        (O.cancels opener) request.database (packet_bytes request.packet))
        (λ verdict. Finishes Q.wrote Q.takes requester.old verdict requester.new) result }
{
    let Request {
        ticket,
        database,
        packet,
    } = request;
    context.gate.pass(context.rt, Point::Ordered);
    let Ok(mut server) = opener.cancel(context.rt, database) else {
        let outcome = fail_at_lock(context, shared, caller, requester, ticket);
        observer.cancel_ended(Verdict::NoConnect);
        return outcome;
    };
    report_at_lock(
        context,
        observer,
        shared,
        caller,
        requester,
        &mut server,
        ticket,
        packet,
    )
}

// Reports to the node that the request of a ticket couldn't be carried.
fn fail_at_lock<R, S, G, Q>(
    context: Context<'_, R, G>,
    shared: &Shared<S>,
    caller: &mut Caller<S>,
    requester: &mut Q,
    ticket: Ticket,
) -> Outcome
where
    R: Wait,
    S: Drop,
    G: Gate,
    Q: WriteCalls + Requester,
    requires own { caller.old.lock ≡ shared.now }
    ensures failed { result ≡ outcome.Failed }
    ensures told { Tells (reported result ticket) caller.old caller.new }
    ensures finished { Finishes Q.wrote Q.takes requester.old verdict.NoConnect requester.new }
{
    let desk = LockDesk { shared, caller };
    let mut desk = Requested { desk, requester };
    report_unconnected(context, &mut desk, ticket)
}

// Carries the request of a ticket to its server, and reports to the node how that ended.
fn report_at_lock<R, S, G, Q, T, V>(
    context: Context<'_, R, G>,
    observer: &V,
    shared: &Shared<S>,
    caller: &mut Caller<S>,
    requester: &mut Q,
    server: &mut T,
    ticket: Ticket,
    request: Packet,
) -> Outcome
where
    R: Wait,
    S: Drop,
    G: Gate,
    Q: WriteCalls + Requester,
    T: WriteCalls + ReadCalls,
    V: Observer<T>,
    requires own { caller.old.lock ≡ shared.now }
    ensures carried { Carried T.wrote T.gave server.old (packet_bytes request) result server.new }
    ensures told { Tells (reported result ticket) caller.old caller.new }
    ensures finished { Finishes Q.wrote Q.takes requester.old (verdict.Carried result) requester.new }
{
    let desk = LockDesk { shared, caller };
    let mut desk = Requested { desk, requester };
    report(context, observer, &mut desk, server, ticket, request)
}

// Carries a request to a peer.
fn forward<R, O, G, Q, V>(
    context: Context<'_, R, G>,
    observer: &V,
    opener: O,
    requester: &mut Q,
    peer: PeerNo,
    packet: Packet,
) -> Outcome
where
    R: Wait,
    O: CancelOpener,
    G: Gate,
    Q: WriteCalls + Requester,
    V: Observer<O::Stream>,
    ensures finished { FinishesCarried
        (IsCarried ⟦<O::Stream as WriteCalls>⟧.wrote ⟦<O::Stream as ReadCalls>⟧.gave
        (O.reaches opener) peer (packet_bytes packet))
        (λ verdict. Finishes Q.wrote Q.takes requester.old verdict requester.new) result }
{
    context.gate.pass(context.rt, Point::Ordered);
    let Ok(mut stream) = opener.peer(context.rt, peer) else {
        finish(requester, Verdict::NoConnect);
        observer.cancel_ended(Verdict::NoConnect);
        return Outcome::Failed;
    };
    relay(observer, requester, &mut stream, packet)
}

// The CancelRequest that a server takes for a backend with this key.
fn server_request(key: ServerKey) -> Packet
    ensures { result ≡ packet_of (bytes.Short key) }
{
    write_cancel(AnyKey::from_short_bytes(key.to_bytes()))
}

// Counts how a request to a server has ended.
fn count_outcome(counting: &mut Counting, outcome: Outcome)
    ensures counted { Tries counting.old.seat (place_of (word_of_outcome outcome))
        counting.new.seat }
    ensures board { counting.new.seat.board ≡ counting.old.seat.board }
{
    let counter = match outcome {
        Outcome::Ended => Counter::Ended,
        Outcome::Failed => Counter::Failed,
    };
    counting.count(counter);
}

// Counts a refusal, if it has a word.
fn count_refusal(counting: &mut Counting, refusal: CancelRefusal)
    ensures counted { CountsAll (words_of_refusal refusal) counting.old.seat counting.new.seat }
    ensures board { counting.new.seat.board ≡ counting.old.seat.board }
{
    let CancelRefusal::Route(reason) = refusal else {
        return;
    };
    let counter = match reason {
        RouteRefusal::Spent => Counter::Spent,
        RouteRefusal::Unknown => Counter::Unknown,
        RouteRefusal::NoPeer => Counter::NoPeer,
        RouteRefusal::NoLink => Counter::NoLink,
    };
    counting.count(counter);
}
