//! A link for a client's request: an idle one, or a new one that is opened.
ghost use Rattle.std.specs.Prelude.{◌≡◌, ◌+◌, ◌≤◌, ℕ, List, length, IsTrue, IfOk, IfSome};
ghost use Rattle.startup.specs.StartupMessage.{HasNoZero};
ghost use Rattle.link_pool.specs.declared.replies.UpReply.TheVariants as up;
ghost use Rattle.node_core.specs.declared.exchange.Exchange.TheVariants as step;
ghost use Rattle.locked_node.specs.Lock.{CallerStep};
ghost use Rattle.node_threads.specs.Balance.{Moves, nothing, a_lease, a_permit};
ghost use Rattle.node_threads.specs.Meaning.{meaning_of, logins, IsLoggedIn, IsThisLogin};
ghost use Rattle.node_threads.specs.Leasing.{hand_of, hand_of_answer, OfLease, OfAnswer, IsAnswer, IsOpened, IsKept};
ghost use Rattle.node_threads.specs.declared.session.leases.Acquired.{Acquired};

use crate::observer::process_of;
use crate::opener::Listening;
use crate::{Entrance, Gate, Link, Observer, Opener, Point, Service};
use lease::{Lease, Pass, Permit};
use link_pool::{AcquireReply, UpReply};
use locked_node::Caller;
use peer_forward::{ReadCalls, WriteCalls};
use pg_ids::DatabaseNo;
use session_io::{LinkError, LoggedIn, log_in};
use startup::ErrorCode;
use std::io;
use std::io::ErrorKind;
use std::sync::Wait;

// How long the two names of a login may be together, in bytes.
const MAX_NAMES: usize = 8_000;

/// What came of a client's asking for a link. `L` is its lease.
pub enum Acquired<L> {
    /// The client has this link.
    Lease(L),
    /// Its wait was cancelled.
    Cancelled,
    /// It gets no link, and its session ends with this error.
    Refused(ErrorCode),
    /// It gets no link, and its session ends without a word: it is gone, or memory was refused.
    Ended,
}

/// Asks for a link for a client, opens one if the node says so, and waits for its turn otherwise.
#[inline(always)]
pub fn acquire<R: Wait, O: Opener, G: Gate>(
    service: Service<'_, R, Link<O::Stream>, O, G>,
    caller: &mut Caller<Link<O::Stream>>,
    entrance: &Entrance<'_>,
    pass: &Pass,
    database: DatabaseNo,
) -> Acquired<Lease<Link<O::Stream>>>
    requires own { caller.old.lock ≡ service.shared.now }
    // A lease was made where one is returned, and no permit is left.
    ensures moves { Moves nothing caller.old (hand_of result) caller.new }
    ensures database { OfLease (λ lease. lease.details.at.database ≡ database) result }
    // It is what the node answered last.
    ensures answer { IsAnswer
        (logins (meaning_of O.Opener O.Stream.WriteCalls O.Stream.ReadCalls service.entry))
        pass.now result caller.old caller.new }
{
    if !entrance.try_enter() {
        let observer = service.opener.observer();
        observer.wait_begun();
        if entrance.enter(service.rt) {
            observer.waited();
            if service.opener.is_gone() {
                return Acquired::Ended;
            }
        }
    }
    for _ in service.rt.forever() {
        if let Some(acquired) = ask(service, caller, entrance, pass, database) {
            return acquired;
        }
    }
    unreachable!()
}

// Asks once, and waits for the client's turn where there is no link. It returns nothing where the
// client is to ask again.
#[inline(always)]
fn ask<R: Wait, O: Opener, G: Gate>(
    service: Service<'_, R, Link<O::Stream>, O, G>,
    caller: &mut Caller<Link<O::Stream>>,
    entrance: &Entrance<'_>,
    pass: &Pass,
    database: DatabaseNo,
) -> Option<Acquired<Lease<Link<O::Stream>>>>
    requires own { caller.old.lock ≡ service.shared.now }
    ensures moves { Moves nothing caller.old (hand_of_answer result) caller.new }
    ensures database { OfAnswer (λ lease. lease.details.at.database ≡ database) result }
    ensures answer { IfSome result (λ acquired. IsAnswer
        (logins (meaning_of O.Opener O.Stream.WriteCalls O.Stream.ReadCalls service.entry))
        pass.now acquired caller.old caller.new) }
{
    let answer = service.shared.acquire(service.rt, caller, pass);
    if entrance.needs_asked() {
        entrance.asked(service.rt, matches!(&answer, AcquireReply::Waiting));
    }
    match answer {
        AcquireReply::Got(lease) => take(service, caller, database, lease),
        AcquireReply::Open(permit) => {
            let opened = open(service, caller, permit);
            Some(unless_gone(service, caller, database, opened))
        }
        AcquireReply::Waiting => {
            let observer = service.opener.observer();
            observer.wait_begun();
            entrance.queue(service.rt);
            service.shared.wait_turn(service.rt, caller, pass);
            observer.waited();
            if service.opener.is_gone() {
                Some(Acquired::Ended)
            } else {
                None
            }
        }
        AcquireReply::Cancelled => Some(Acquired::Cancelled),
        AcquireReply::Stale => Some(Acquired::Refused(ErrorCode::AdminShutdown)),
        AcquireReply::Holding | AcquireReply::Exhausted => {
            Some(Acquired::Refused(ErrorCode::TooManyConnections))
        }
    }
}

// Takes a link that nobody used. One that isn't as it was left is closed: its server ended it, or
// sent what nobody asked for. So is one of another database.
fn take<R: Wait, O: Opener, G: Gate>(
    service: Service<'_, R, Link<O::Stream>, O, G>,
    caller: &mut Caller<Link<O::Stream>>,
    database: DatabaseNo,
    lease: Lease<Link<O::Stream>>,
) -> Option<Acquired<Lease<Link<O::Stream>>>>
    requires own { caller.old.lock ≡ service.shared.now }
    ensures moves { Moves a_lease caller.old (hand_of_answer result) caller.new }
    ensures database { OfAnswer (λ lease. lease.details.at.database ≡ database) result }
    ensures kept { IfSome result
        (λ acquired. IsKept (Acquired.Lease lease) acquired caller.old caller.new) }
{
    if is_of(&lease, database) && service.opener.is_quiet(lease.stream().stream()) {
        return Some(Acquired::Lease(lease));
    }
    service.gate.pass(service.rt, Point::Ready);
    let _reply = service.shared.close(service.rt, caller, lease);
    None
}

// Whether the link of a lease is this database's. The node gives no other; no clause of the lock
// says so.
fn is_of<L>(lease: &Lease<L>, database: DatabaseNo) -> bool
    ensures { IsTrue result → lease.now.details.at.database ≡ database }
{
    lease.details().at.database.0 == database.0
}

// Opens the link of a permit, at the server of the permit's database. It isn't inlined, so that a
// session's stack has no room for what only this needs.
#[inline(never)]
fn open<R: Wait, O: Opener, G: Gate>(
    service: Service<'_, R, Link<O::Stream>, O, G>,
    caller: &mut Caller<Link<O::Stream>>,
    permit: Permit,
) -> Acquired<Lease<Link<O::Stream>>>
    requires own { caller.old.lock ≡ service.shared.now }
    ensures moves { Moves a_permit caller.old (hand_of result) caller.new }
    ensures logged_in { OfLease (λ lease. (key : List ℕ) × IsLoggedIn
        (meaning_of O.Opener O.Stream.WriteCalls O.Stream.ReadCalls service.entry)
        lease.details.at.database key lease.stream.stream
        × CallerStep caller.old (step.Up permit key (up.Up lease.details)) caller.new) result }
    ensures opened { IsOpened
        (logins (meaning_of O.Opener O.Stream.WriteCalls O.Stream.ReadCalls service.entry))
        permit result caller.old caller.new }
{
    match connect(service, permit.details().at.database) {
        Ok(opened) => put_up(service, caller, permit, opened),
        Err(error) => {
            let is_lost = had_memory(error);
            let _reply = service.shared.up_failed(service.rt, caller, permit);
            if is_lost {
                Acquired::Refused(ErrorCode::ConnectionFailure)
            } else {
                Acquired::Ended
            }
        }
    }
}

// The link of a client that left while it was opened is closed: its request isn't to run. So is one
// of another database.
fn unless_gone<R: Wait, O: Opener, G: Gate>(
    service: Service<'_, R, Link<O::Stream>, O, G>,
    caller: &mut Caller<Link<O::Stream>>,
    database: DatabaseNo,
    opened: Acquired<Lease<Link<O::Stream>>>,
) -> Acquired<Lease<Link<O::Stream>>>
    requires own { caller.old.lock ≡ service.shared.now }
    ensures moves { Moves (hand_of opened) caller.old (hand_of result) caller.new }
    ensures database { OfLease (λ lease. lease.details.at.database ≡ database) result }
    ensures kept { IsKept opened result caller.old caller.new }
{
    match opened {
        Acquired::Lease(lease) => {
            if is_of(&lease, database) && !service.opener.is_gone() {
                return Acquired::Lease(lease);
            }
            service.gate.pass(service.rt, Point::Ready);
            let _closed = service.shared.close(service.rt, caller, lease);
            Acquired::Ended
        }
        Acquired::Cancelled => Acquired::Cancelled,
        Acquired::Refused(code) => Acquired::Refused(code),
        Acquired::Ended => Acquired::Ended,
    }
}

// Reports that the link of a permit is open.
fn put_up<R: Wait, O: Opener, G: Gate>(
    service: Service<'_, R, Link<O::Stream>, O, G>,
    caller: &mut Caller<Link<O::Stream>>,
    permit: Permit,
    opened: LoggedIn<O::Stream>,
) -> Acquired<Lease<Link<O::Stream>>>
    requires own { caller.old.lock ≡ service.shared.now }
    ensures moves { Moves a_permit caller.old (hand_of result) caller.new }
    ensures at { OfLease (λ lease. lease.details.at ≡ permit.at) result }
    ensures link { OfLease (λ lease. lease.stream ≡ opened.link) result }
    // The node has the key that the server gave.
    ensures key { OfLease (λ lease. CallerStep caller.old
        (step.Up permit opened.key (up.Up lease.details)) caller.new) result }
    ensures opened { IsOpened (IsThisLogin permit.at.database opened.key) permit result caller.old
        caller.new }
{
    let shared = service.shared;
    match shared.up(service.rt, caller, permit, opened.link, opened.key) {
        UpReply::Up(lease) => Acquired::Lease(lease),
        UpReply::Exhausted(permit, _) => {
            let _reply = shared.up_failed(service.rt, caller, permit);
            Acquired::Refused(ErrorCode::TooManyConnections)
        }
        UpReply::Stale(_) => Acquired::Refused(ErrorCode::AdminShutdown),
        UpReply::AtEnd(_) => Acquired::Refused(ErrorCode::TooManyConnections),
    }
}

// Connects to the server of a database and logs in there, and tries that again for as long as the
// opener says so.
fn connect<R: Wait, O: Opener, G: Gate>(
    service: Service<'_, R, Link<O::Stream>, O, G>,
    database: DatabaseNo,
) -> Result<LoggedIn<O::Stream>, LinkError>
    ensures logged_in { IfOk result (λ logged. IsLoggedIn
        (meaning_of O.Opener O.Stream.WriteCalls O.Stream.ReadCalls service.entry)
        database logged.key logged.link.stream) }
{
    for _ in service.rt.forever() {
        match connect_once(service, database) {
            Ok(opened) => return Ok(opened),
            Err(error) => {
                if !service.opener.tries_again(service.rt, database) {
                    return Err(error);
                }
            }
        }
    }
    unreachable!()
}

// Connects to the server of a database and logs in there, as the user and to the database that its
// entry names.
fn connect_once<R: Wait, O: Opener, G: Gate>(
    service: Service<'_, R, Link<O::Stream>, O, G>,
    database: DatabaseNo,
) -> Result<LoggedIn<O::Stream>, LinkError>
    ensures logged_in { IfOk result (λ logged. IsLoggedIn
        (meaning_of O.Opener O.Stream.WriteCalls O.Stream.ReadCalls service.entry)
        database logged.key logged.link.stream) }
{
    let Some(entry) = service.settings.database(database) else {
        return Err(LinkError::Lost);
    };
    if !is_name(entry.user) || !is_name(entry.dbname) {
        return Err(LinkError::Lost);
    }
    if entry.user.len().saturating_add(entry.dbname.len()) > MAX_NAMES {
        return Err(LinkError::Lost);
    }
    match service.opener.server(service.rt, database) {
        Ok(stream) => {
            let listener = Listening {
                opener: service.opener,
            };
            let logged = log_in(
                service.rt,
                service.alloc,
                &listener,
                *service.limit,
                stream,
                entry.user,
                entry.dbname,
            );
            tell_login(service.opener, database, &logged);
            logged
        }
        Err(error) => Err(cause_of(&error)),
    }
}

// Tells the observer what came of a login at the server of a database.
fn tell_login<O: Opener>(
    opener: &O,
    database: DatabaseNo,
    logged: &Result<LoggedIn<O::Stream>, LinkError>,
) {
    let observer = opener.observer();
    match logged {
        Ok(opened) => observer.link_opened(opened.link.stream(), process_of(opened.key)),
        Err(LinkError::Refused(refusal)) => observer.link_refused(database, refusal),
        Err(LinkError::Lost | LinkError::Memory) => {}
    }
}

// Whether a link can't be opened for another reason than memory.
fn had_memory(error: LinkError) -> bool {
    match error {
        LinkError::Lost | LinkError::Refused(_) => true,
        LinkError::Memory => false,
    }
}

// Why a link can't be opened.
fn cause_of(error: &io::Error) -> LinkError {
    match error.kind() {
        ErrorKind::OutOfMemory => LinkError::Memory,
        _ => LinkError::Lost,
    }
}

// Whether a login can name this: it has no zero byte.
fn is_name(name: &str) -> bool
    ensures { IsTrue result → HasNoZero name.now }
{
    !name.as_bytes().contains(&0)
}
