//! A login at a server.
ghost use Rattle.std.specs.Prelude.{◌≡◌, ◌⊎◌, ◌+◌, ◌<◌, ◌≤◌, [], ◌∷◌, ◌++◌, ℕ, List, None, Some, true, false, length, IfOk, IfErr};
ghost use Rattle.peer_forward.specs.Calls.{Call, Makes};
ghost use Rattle.pg_frames.specs.Passage.{Passage, start, fed, after, HasNoNext};
ghost use Rattle.startup.specs.StartupMessage.{HasNoZero};
ghost use Rattle.link_state.specs.Login.{HasRead};
ghost use Rattle.session_io.specs.StreamCalls.{SomeCalls, Read};
ghost use Rattle.session_io.specs.LoggingIn.{LogsIn, ReadsLogin, HasCome, Takes, TakesPiece, TakesBody, IsDry};
ghost use Rattle.session_io.specs.LoginRefused.{IsRefused, OfRefusal, StopsAt, TellsStop, IsStop, Fits};
ghost use Rattle.session_io.specs.declared.login.place.LoginPlace.TheVariants.{Between, Reading};
ghost use Rattle.session_io.specs.declared.login.place.Stop.TheVariants.{Failed, Error};
ghost use Rattle.session_io.specs.declared.login.place.Mark.TheVariants.{Head, Part};

use crate::Link;
use crate::login::place::{LoginPlace, Mark, Stop, Taken};
use crate::login::refused::{LoginListener, LoginRefusal, error_text};
use crate::session::channel::{self, Channel};
use byteorder::{BigEndian, ByteOrder};
use link_state::{LinkAct, LinkLogin, LoginHead, ServerKey};
use peer_forward::{ReadCalls, WriteCalls, write_whole};
use pg_frames::{Flow, MessageLimit};
use std::alloc::Global;
use std::sync::Wait;

// How long the code of an authentication request is.
const CODE_LEN: usize = 4;

/// A link whose login at its server is done.
#[derive(Drop)]
pub struct LoggedIn<L> {
    /// The link. Nothing is kept of what was read of it.
    pub link: Link<L>,
    /// The key that the server gave for the link's backend.
    pub key: ServerKey,
}

/// Why a link to a server can't be opened.
#[derive(Debug, Drop)]
pub enum LinkError {
    /// The server can't be connected to, or the login fails without a word of the server.
    Lost,
    /// Memory was refused.
    Memory,
    /// The server refuses the login, with these words.
    Refused(LoginRefusal),
}

/// Logs in at a server over a new connection. It fails where memory is refused, a write or read
/// fails, the input ends, the server sends what is no part of a login here, or bytes stand
/// behind the ReadyForQuery with which the link is up.
pub fn log_in<R: Wait, L: WriteCalls + ReadCalls + Drop, H: LoginListener<L>>(
    rt: &R,
    alloc: Global,
    listener: &H,
    limit: MessageLimit,
    stream: L,
    user: &str,
    database: &str,
) -> Result<LoggedIn<L>, LinkError>
    requires user { HasNoZero user.now }
    requires database { HasNoZero database.now }
    requires short { length user.now + length database.now ≤ 8000 }
    ensures drained { IfOk result (λ logged. logged.link.flow ≡ start limit) }
    ensures logs_in { IfOk result (λ logged.
        SomeCalls L.wrote L.gave stream logged.link.stream
        (LogsIn limit user.now database.now logged.key)) }
    // A refusal is what the server answered to the StartupMessage.
    ensures refused { IfErr result (OfRefusal (λ refusal. (last : L)
        × SomeCalls L.wrote L.gave stream last
        (IsRefused limit user.now database.now refusal))) }
{
    let Ok(mut login) = LinkLogin::new(alloc, user, database) else {
        return Err(LinkError::Memory);
    };
    let Ok(flow) = Flow::with_limit(alloc, limit) else {
        return Err(LinkError::Memory);
    };
    let mut link = Channel { stream, flow };
    if !write_whole(&mut link.stream, login.first_bytes()) {
        return Err(LinkError::Lost);
    }
    match read_login(rt, &mut login, &mut link) {
        Ok(key) => {
            let link = Link { channel: link };
            Ok(LoggedIn { link, key })
        }
        Err(stop) => Err(cause_of(alloc, listener, &mut link, stop)),
    }
}

// Reads the server's messages until the link is up, and returns the key of its backend, or with
// what the login fails.
fn read_login<R: Wait, L: WriteCalls + ReadCalls>(
    rt: &R,
    login: &mut LinkLogin,
    link: &mut Channel<L>,
) -> Result<ServerKey, Stop>
    requires none { HasRead login.old [] }
    requires fresh { link.old.flow ≡ start link.old.flow.limit }
    ensures drained { IfOk result (λ key. link.new.flow ≡ start link.old.flow.limit) }
    ensures reads { IfOk result (λ key.
        SomeCalls L.wrote L.gave link.old.stream link.new.stream (ReadsLogin link.old.flow.limit key)) }
    ensures stops { IfErr result (λ stop.
        StopsAt L.wrote L.gave link.old.stream link.old.flow.limit stop link.new.stream link.new.flow) }
{
    let mut place = LoginPlace::Between;
    for _ in rt.forever() {
        match take_pieces(login, &mut link.flow, place) {
            Taken::More(now) => place = now,
            Taken::Done(key) => return key_at_end(&link.flow, key),
            Taken::Stopped(stop) => return Err(stop),
        }
        if !read_more(link) {
            return Err(Stop::Failed);
        }
    }
    unreachable!()
}

// Why the login failed, once it stopped so. Of an error the rest is read.
fn cause_of<L: WriteCalls + ReadCalls, H: LoginListener<L>>(
    alloc: Global,
    listener: &H,
    link: &mut Channel<L>,
    stop: Stop,
) -> LinkError
    requires short { Fits stop }
    ensures tells { OfRefusal (λ refusal. TellsStop L.wrote L.gave link.old.stream
        link.old.flow.bytes stop refusal link.new.stream) result }
{
    match stop {
        Stop::Failed => LinkError::Lost,
        Stop::Asks(code) => LinkError::Refused(LoginRefusal::Asks(code)),
        Stop::Error(size) => {
            listener.error_begins(&link.stream);
            match error_text(alloc, &mut link.stream, link.flow.pending(), size) {
                Ok(text) => LinkError::Refused(LoginRefusal::Error(text)),
                Err(_) => LinkError::Memory,
            }
        }
    }
}

// The key, if nothing stands behind the messages that were taken.
fn key_at_end(flow: &Flow, key: ServerKey) -> Result<ServerKey, Stop>
    ensures up { IfOk result (λ found. (found ≡ key) × (flow.now ≡ start flow.now.limit)) }
    ensures behind { IfErr result (λ stop. stop ≡ Failed) }
{
    if flow.is_at_start() {
        Ok(key)
    } else {
        Err(Stop::Failed)
    }
}

// Takes what is there of the server's messages.
fn take_pieces(login: &mut LinkLogin, flow: &mut Flow, place: LoginPlace) -> Taken
    ensures takes { (limit : ℕ) (stream : List ℕ)
        → HasCome limit stream place login.old flow.old
        → Takes limit stream result login.new flow.new }
    ensures limit { flow.new.limit ≡ flow.old.limit }
    ensures dry { IsDry result flow.new }
{
    let mut place = place;
    loop {
        let Some(piece) = flow.next() else {
            return Taken::More(place);
        };
        let mark = Mark::of(piece);
        match take_piece(login, flow, place, mark) {
            Taken::More(next) => place = next,
            Taken::Done(key) => return Taken::Done(key),
            Taken::Stopped(stop) => return Taken::Stopped(stop),
        }
    }
}

// Takes the piece that was just handed out.
fn take_piece(login: &mut LinkLogin, flow: &mut Flow, place: LoginPlace, mark: Mark) -> Taken
    ensures takes { TakesPiece place login.old mark flow.old result login.new flow.new }
    ensures left { flow.new.left ≡ flow.old.left }
    ensures limit { flow.new.limit ≡ flow.old.limit }
    ensures bytes { flow.new.bytes ≡ flow.old.bytes }
{
    match mark {
        Mark::Head { kind, length } => take_head(login, flow, kind, length),
        Mark::Part => take_part(login, flow, place),
        Mark::Tail => place.after_tail(),
    }
}

// Takes the head of a message.
fn take_head(login: &mut LinkLogin, flow: &mut Flow, kind: u8, length: usize) -> Taken
    ensures takes { (place : _) → TakesPiece place login.old (Head kind length) flow.old result
        login.new flow.new }
    ensures left { flow.new.left ≡ flow.old.left }
    ensures limit { flow.new.limit ≡ flow.old.limit }
    ensures bytes { flow.new.bytes ≡ flow.old.bytes }
{
    forget_all(flow);
    match login.on_head(kind, length) {
        Ok(LoginHead::Skip) => Taken::More(LoginPlace::Passing),
        Ok(LoginHead::Body(wanted)) => Taken::More(LoginPlace::Reading(wanted)),
        Err(_) => Taken::Stopped(stop_at(kind, length)),
    }
}

// With what a login fails by the head of a message.
fn stop_at(kind: u8, length: usize) -> Stop
    ensures { (result ≡ Failed) ⊎ ((kind ≡ 69) × (result ≡ Error length)) }
{
    if kind == b'E' {
        Stop::Error(length)
    } else {
        Stop::Failed
    }
}

// Takes a part of a message's body.
fn take_part(login: &mut LinkLogin, flow: &mut Flow, place: LoginPlace) -> Taken
    ensures takes { TakesPiece place login.old Part flow.old result login.new flow.new }
    ensures left { flow.new.left ≡ flow.old.left }
    ensures limit { flow.new.limit ≡ flow.old.limit }
    ensures bytes { flow.new.bytes ≡ flow.old.bytes }
{
    match place {
        LoginPlace::Reading(wanted) => take_wanted(login, flow, wanted),
        _ => {
            forget_all(flow);
            Taken::More(place)
        }
    }
}

// Takes a part of a body of which the login reads this many bytes.
fn take_wanted(login: &mut LinkLogin, flow: &mut Flow, wanted: usize) -> Taken
    ensures takes { TakesPiece (Reading wanted) login.old Part flow.old result login.new flow.new }
    ensures left { flow.new.left ≡ flow.old.left }
    ensures limit { flow.new.limit ≡ flow.old.limit }
    ensures bytes { flow.new.bytes ≡ flow.old.bytes }
{
    let passed = flow.passed();
    if passed.len() < wanted {
        return Taken::More(LoginPlace::Reading(wanted));
    }
    let taken = take_body(login, passed.split_at(wanted).0);
    forget_all(flow);
    taken
}

// Takes what a login reads of a message's body.
fn take_body(login: &mut LinkLogin, body: &[u8]) -> Taken
    ensures { TakesBody login.old body.now result login.new }
{
    let Ok(act) = login.on_body(body) else {
        return Taken::Stopped(stop_by(body));
    };
    match &act {
        LinkAct::More => Taken::More(LoginPlace::Passing),
        LinkAct::Up(key) => Taken::More(LoginPlace::Up(*key)),
    }
}

// With what a login fails by what it read of a message's body: of an authentication request, and of
// no other message, it reads four bytes.
fn stop_by(body: &[u8]) -> Stop
    ensures { IsStop body.now result }
{
    if body.len() != CODE_LEN {
        return Stop::Failed;
    }
    let code = BigEndian::read_u32(body);
    if code == 0 {
        Stop::Failed
    } else {
        Stop::Asks(code)
    }
}

// Forgets all that was handed out.
fn forget_all(flow: &mut Flow)
    ensures { flow.new ≡ record flow.old { passed = [] } }
{
    let count = flow.passed().len();
    flow.forget(count);
}

// Reads more of a link, and returns whether more came. It reads nothing behind a fault.
fn read_more<L: WriteCalls + ReadCalls>(link: &mut Channel<L>) -> bool
    requires dry { HasNoNext link.old.flow.limit link.old.flow.left link.old.flow.bytes }
    requires few { length link.old.flow.passed ≤ 8 }
    ensures { result ≡ true → SomeCalls L.wrote L.gave link.old.stream link.new.stream
        (λ reads. (bytes : List ℕ) × Read bytes reads × (link.new.flow ≡ fed link.old.flow bytes)) }
{
    if link.flow.fault().is_some() {
        return false;
    }
    channel::read_more(link)
}
