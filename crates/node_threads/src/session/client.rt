//! A client's session, from its login to its end.
ghost use Rattle.std.specs.Prelude.{◌≡◌, ◌<◌, None, length};
ghost use Rattle.startup.specs.declared.error_code.ErrorCode.TheVariants.{OutOfMemory};
ghost use Rattle.client_state.specs.Acts.{start};
ghost use Rattle.pg_frames.specs.Passage.{start as passage_start};
ghost use Rattle.session_io.specs.Progress.{asking};
ghost use Rattle.session_io.specs.Asking.{IsError};
ghost use Rattle.session_io.specs.StreamCalls.{SomeCalls};
ghost use Rattle.node_threads.specs.Balance.{Moves, Balanced, nothing, a_pass, a_lease};
ghost use Rattle.node_threads.specs.Turn.{GoesOnWithout};
ghost use Rattle.node_threads.specs.Meaning.{meaning_of, moment};
ghost use Rattle.node_threads.specs.Leasing.{hand_of};
ghost use Rattle.node_threads.specs.Serving.{Greets, TellsCancelled, CarriesRequest, ComesOf, Serves, Stays, ServesClient};
ghost use Rattle.node_threads.specs.declared.session.leases.Acquired.{Acquired as AcquiredOf};

use crate::desk::SessionDesk;
use crate::session::above::tell_of_client;
use crate::session::leases::{Acquired, acquire};
use crate::{
    Entrance, Gate, Link, LockDesk, Observer, Opener, Point, Service, SessionEnd, Stayed, turn,
};
use client_state::{Client, Refusal, Reply, Request};
use lease::{Lease, Pass};
use locked_node::{Caller, Shared};
use node_core::LeaveReply;
use peer_forward::{ReadCalls, WriteCalls, write_whole};
use pg_frames::Cutter;
use pg_ids::{DatabaseNo, Kind, Secret};
use session_io::{lost, next_request, refuse};
use startup::{ErrorCode, Reports, Severity, write_login};
use std::alloc::Global;
use std::sync::Wait;

/// Serves a client's session on a database from its login to its end: its requests are carried over
/// links of the node's pool, each lease for one transaction. Once nothing is held, the opener's
/// observer is notified of the end, and what the client gets then is written.
pub fn serve_client<R, O, G, C>(
    service: Service<'_, R, Link<O::Stream>, O, G>,
    caller: &mut Caller<Link<O::Stream>>,
    client: &mut C,
    cutter: &mut Cutter,
    database: DatabaseNo,
    secret: Secret,
    kind: Kind,
)
where
    R: Wait,
    O: Opener,
    G: Gate,
    C: WriteCalls + ReadCalls,
    requires own { caller.old.lock ≡ service.shared.now }
    requires database { database < length caller.old.start.view.pools }
    requires cutter { cutter.old.limit ≡ service.limit.now }
    // Each pass, permit and lease that was made was spent.
    ensures balanced { Balanced caller.old caller.new }
    // The client was served from its login to its end, and told why it ended; or it was refused.
    ensures served { SomeCalls C.wrote C.gave client.old client.new (λ calls. ServesClient
        (meaning_of O.Opener O.Stream.WriteCalls O.Stream.ReadCalls service.entry)
        (record { database = database; secret = secret; kind = kind })
        (moment cutter.old.bytes caller.old) calls (moment cutter.new.bytes caller.new)) }
{
    let shared = service.shared;
    let Ok(pass) = shared.join(service.rt, caller, database, secret, kind) else {
        refuse(service.alloc, client, ErrorCode::TooManyConnections);
        let observer = service.opener.observer();
        observer.login_refused(ErrorCode::TooManyConnections);
        return;
    };
    let mut ending = Ending {
        is_logged_in: false,
        refusal: None,
    };
    let end = serve_pass(
        service,
        caller,
        client,
        cutter,
        database,
        &pass,
        &mut ending,
    );
    service.admission.forget(service.rt, pass.key().slot());
    leave(service.rt, shared, caller, pass);
    tell_end(service.opener, ending, &end);
    let _ = write_whole(client, end.as_slice());
}

// How a session ended, beside what is written to its client then.
#[derive(Clone, Copy)]
struct Ending {
    // Whether its client got its whole login.
    is_logged_in: bool,
    refusal: Option<Refusal>,
}

// Notifies the observer of the end of a session, whose client is written this next.
#[inline(never)]
fn tell_end<O: Opener>(opener: &O, ending: Ending, end: &Reply) {
    let code = end.error_code();
    let observer = opener.observer();
    if ending.is_logged_in {
        let refusal = ending.refusal;
        observer.session_ended(SessionEnd { code, refusal });
    } else if let Some(code) = code {
        observer.login_refused(code);
    }
}

// Greets the client of a pass and serves its requests. Returns what is to be written to it at the
// end, and notes how it ended.
fn serve_pass<R, O, G, C>(
    service: Service<'_, R, Link<O::Stream>, O, G>,
    caller: &mut Caller<Link<O::Stream>>,
    client: &mut C,
    cutter: &mut Cutter,
    database: DatabaseNo,
    pass: &Pass,
    ending: &mut Ending,
) -> Reply
where
    R: Wait,
    O: Opener,
    G: Gate,
    C: WriteCalls + ReadCalls,
    requires own { caller.old.lock ≡ service.shared.now }
    requires cutter { cutter.old.limit ≡ service.limit.now }
    ensures balanced { Balanced caller.old caller.new }
    ensures stays { SomeCalls C.wrote C.gave client.old client.new (λ calls. Stays
        (meaning_of O.Opener O.Stream.WriteCalls O.Stream.ReadCalls service.entry)
        (record { pass = pass.now; database = database }) result
        (moment cutter.old.bytes caller.old) calls (moment cutter.new.bytes caller.new)) }
{
    let alloc = service.alloc;
    let slot = pass.key().slot();
    let Ok(entrance) = Entrance::new(service.rt, alloc, service.admission, slot, database) else {
        return error(alloc, ErrorCode::OutOfMemory);
    };
    if let Some(end) = greet(alloc, service.reports, client, pass) {
        return end;
    }
    ending.is_logged_in = true;
    service.opener.observer().logged_in(database, slot);
    let mut session = Client::with_limit(alloc, *service.limit, database);
    for _ in service.rt.forever() {
        let ended = serve_request(
            service,
            caller,
            &entrance,
            pass,
            client,
            cutter,
            &mut session,
        );
        if let Some(end) = ended {
            ending.refusal = session.refusal();
            tell_of_client(service.opener, &session, cutter);
            return end;
        }
    }
    unreachable!()
}

// Writes the messages of a login. Returns what is to be written to the client if this ends the
// session.
fn greet<C: WriteCalls + ReadCalls>(
    alloc: Global,
    reports: &Reports,
    client: &mut C,
    pass: &Pass,
) -> Option<Reply>
    ensures { SomeCalls C.wrote C.gave client.old client.new
        (Greets reports.now pass.now.key result) }
{
    let mut login = Vec::new(alloc);
    if write_login(Some(pass.key()), reports, &mut login).is_err() {
        return Some(error(alloc, ErrorCode::OutOfMemory));
    }
    if write_whole(client, login.as_slice()) {
        None
    } else {
        Some(Reply::nothing())
    }
}

// Reads a client's next request and serves its transaction. Returns what is to be written to the
// client where the session ends.
#[inline(always)]
fn serve_request<R, O, G, C>(
    service: Service<'_, R, Link<O::Stream>, O, G>,
    caller: &mut Caller<Link<O::Stream>>,
    entrance: &Entrance<'_>,
    pass: &Pass,
    client: &mut C,
    cutter: &mut Cutter,
    session: &mut Client,
) -> Option<Reply>
where
    R: Wait,
    O: Opener,
    G: Gate,
    C: WriteCalls + ReadCalls,
    requires own { caller.old.lock ≡ service.shared.now }
    requires session { session.old ≡ start session.old.limit session.old.database }
    requires limit { session.old.limit ≡ service.limit.now }
    requires cutter { cutter.old.limit ≡ session.old.limit }
    ensures balanced { Balanced caller.old caller.new }
    ensures session { result ≡ None
        → session.new ≡ start session.old.limit session.old.database }
    ensures limit { cutter.new.limit ≡ cutter.old.limit }
    ensures serves { SomeCalls C.wrote C.gave client.old client.new (λ calls. Serves
        (meaning_of O.Opener O.Stream.WriteCalls O.Stream.ReadCalls service.entry)
        (record { pass = pass.now; database = session.old.database }) result
        (moment cutter.old.bytes caller.old) calls (moment cutter.new.bytes caller.new)) }
{
    let request = match next_request(service.rt, session, client, cutter) {
        Ok(request) => request,
        Err(end) => return Some(end),
    };
    let database = session.database();
    let acquired = acquire(service, caller, entrance, pass, database);
    let end = serve_acquired(service, caller, client, cutter, session, acquired, request);
    if !entrance.try_leave() {
        entrance.leave(service.rt);
    }
    end
}

// Serves a request with what came of asking for a link. Returns what is to be written to the client
// where the session ends.
#[inline(always)]
fn serve_acquired<R, O, G, C>(
    service: Service<'_, R, Link<O::Stream>, O, G>,
    caller: &mut Caller<Link<O::Stream>>,
    client: &mut C,
    cutter: &mut Cutter,
    session: &mut Client,
    acquired: Acquired<Lease<Link<O::Stream>>>,
    request: Request,
) -> Option<Reply>
where
    R: Wait,
    O: Opener,
    G: Gate,
    C: WriteCalls + ReadCalls,
    requires own { caller.old.lock ≡ service.shared.now }
    requires session { session.old ≡ asking session.old.limit session.old.database }
    requires limit { session.old.limit ≡ service.limit.now }
    requires cutter { cutter.old.limit ≡ session.old.limit }
    ensures moves { Moves (hand_of acquired) caller.old nothing caller.new }
    ensures session { result ≡ None
        → session.new ≡ start session.old.limit session.old.database }
    ensures limit { cutter.new.limit ≡ cutter.old.limit }
    ensures comes { SomeCalls C.wrote C.gave client.old client.new (λ calls. ComesOf
        (meaning_of O.Opener O.Stream.WriteCalls O.Stream.ReadCalls service.entry)
        acquired request result (moment cutter.old.bytes caller.old) calls
        (moment cutter.new.bytes caller.new)) }
{
    match acquired {
        Acquired::Lease(lease) => ride(service, caller, client, cutter, session, lease, request),
        Acquired::Cancelled => {
            session.drop_request();
            tell_cancelled(service.alloc, client)
        }
        Acquired::Refused(code) => Some(error(service.alloc, code)),
        Acquired::Ended => Some(Reply::nothing()),
    }
}

// Serves a transaction on the link of a lease. Returns what is to be written to the client where
// the session ends.
fn ride<R, O, G, C>(
    service: Service<'_, R, Link<O::Stream>, O, G>,
    caller: &mut Caller<Link<O::Stream>>,
    client: &mut C,
    cutter: &mut Cutter,
    session: &mut Client,
    lease: Lease<Link<O::Stream>>,
    request: Request,
) -> Option<Reply>
where
    R: Wait,
    O: Opener,
    G: Gate,
    C: WriteCalls + ReadCalls,
    requires own { caller.old.lock ≡ service.shared.now }
    requires session { session.old ≡ asking session.old.limit session.old.database }
    requires limit { session.old.limit ≡ service.limit.now }
    requires cutter { cutter.old.limit ≡ session.old.limit }
    ensures moves { Moves a_lease caller.old nothing caller.new }
    ensures session { result ≡ None
        → session.new ≡ start session.old.limit session.old.database }
    ensures limit { cutter.new.limit ≡ cutter.old.limit }
    ensures comes { SomeCalls C.wrote C.gave client.old client.new (λ calls. ComesOf
        (meaning_of O.Opener O.Stream.WriteCalls O.Stream.ReadCalls service.entry)
        (AcquiredOf.Lease lease) request result (moment cutter.old.bytes caller.old) calls
        (moment cutter.new.bytes caller.new)) }
{
    service.gate.pass(service.rt, Point::Acquired);
    // A link is given back as it was at its start. No clause of the lock says so.
    if !lease.stream().is_at_start(session.limit()) {
        service.gate.pass(service.rt, Point::Ready);
        let _reply = service.shared.close(service.rt, caller, lease);
        return Some(lost(session));
    }
    let observer = service.opener.observer();
    observer.link_given(lease.stream().stream());
    let stayed = take_turn(service, caller, client, cutter, session, lease, request);
    observer.link_returned();
    match stayed {
        Stayed::Release | Stayed::Close => None,
        Stayed::End(end) => Some(end),
    }
}

// Takes a turn at a desk that is the node behind its lock.
fn take_turn<R, O, G, C>(
    service: Service<'_, R, Link<O::Stream>, O, G>,
    caller: &mut Caller<Link<O::Stream>>,
    client: &mut C,
    cutter: &mut Cutter,
    session: &mut Client,
    lease: Lease<Link<O::Stream>>,
    request: Request,
) -> Stayed
where
    R: Wait,
    O: Opener,
    G: Gate,
    C: WriteCalls + ReadCalls,
    requires own { caller.old.lock ≡ service.shared.now }
    requires session { session.old ≡ asking session.old.limit session.old.database }
    requires limit { session.old.limit ≡ service.limit.now }
    requires cutter { cutter.old.limit ≡ session.old.limit }
    requires at_start { lease.stream.flow ≡ passage_start session.old.limit }
    ensures carries { SomeCalls C.wrote C.gave client.old client.new (λ calls. CarriesRequest
        (meaning_of O.Opener O.Stream.WriteCalls O.Stream.ReadCalls service.entry)
        lease.details lease.stream.stream request result (moment cutter.old.bytes caller.old) calls
        (moment cutter.new.bytes caller.new)) }
    ensures session { GoesOnWithout result session.old session.new }
    ensures limit { cutter.new.limit ≡ cutter.old.limit }
{
    let shared = service.shared;
    let mut desk = SessionDesk {
        desk: LockDesk { shared, caller },
        opener: service.opener,
    };
    let context = service.context();
    turn(context, &mut desk, session, client, cutter, lease, request)
}

// Tells a client that its request was cancelled while it waited for a link; its session goes on.
fn tell_cancelled<C: WriteCalls + ReadCalls>(alloc: Global, client: &mut C) -> Option<Reply>
    ensures { SomeCalls C.wrote C.gave client.old client.new (TellsCancelled result) }
{
    let Ok(cancelled) = Reply::error(alloc, Severity::Error, ErrorCode::QueryCanceled) else {
        return Some(Reply::nothing());
    };
    let ready = Reply::ready(b'I');
    if !write_whole(client, cancelled.as_slice()) {
        return Some(Reply::nothing());
    }
    if write_whole(client, ready.as_slice()) {
        None
    } else {
        Some(Reply::nothing())
    }
}

// Gives a pass back. A client that still holds a link or a permit would stay; it doesn't, but the
// lock can't tell.
fn leave<R: Wait, S: Drop>(rt: &R, shared: &Shared<S>, caller: &mut Caller<S>, pass: Pass)
    requires own { caller.old.lock ≡ shared.now }
    ensures moves { Moves a_pass caller.old nothing caller.new }
{
    let mut pass = pass;
    for _ in rt.forever() {
        match shared.leave(rt, caller, pass) {
            LeaveReply::Holding(held) => pass = held,
            LeaveReply::Left | LeaveReply::Stale | LeaveReply::Exhausted => return,
        }
    }
    unreachable!()
}

// The error that ends a session, or nothing where memory for it was refused.
fn error(alloc: Global, code: ErrorCode) -> Reply
    ensures { IsError code result }
{
    match Reply::error(alloc, Severity::Fatal, code) {
        Ok(reply) => reply,
        Err(_) => Reply::nothing(),
    }
}
