//! The next request of a client is read.
ghost use Rattle.std.specs.Prelude.{◌≡◌, [], ℕ, List, None, IfSome, OnOk};
ghost use Rattle.pg_frames.specs.FrameText.{BeginsNoFrame};
ghost use Rattle.pg_frames.specs.Pending.{with_piece};
ghost use Rattle.startup.specs.declared.error_code.ErrorCode.TheVariants.{ProtocolViolation};
ghost use Rattle.session_io.specs.StreamCalls.{SomeCalls, Read};
ghost use Rattle.session_io.specs.Asking.{IsError};
ghost use Rattle.session_io.specs.Progress.{asking};
ghost use Rattle.session_io.specs.Finding.{gathering, Finds, Quits, IsRefusal, AsksNext};

use client_state::{Act, Client, Reply, Request};
use peer_forward::{ReadCalls, WriteCalls};
use pg_frames::{Cutter, FrameError};
use std::sync::Wait;

// What was cut from what a client sent.
enum Found {
    // No whole request. More is to be read.
    More,
    // A request.
    Request(Request),
    // The end of the session, with this for the client.
    End(Reply),
}

/// Reads the client's next request, with a lease in an open transaction or without one, or returns
/// what is to be written to the client as the session ends.
#[inline(always)]
pub fn next_request<R: Wait, C: WriteCalls + ReadCalls>(
    rt: &R,
    session: &mut Client,
    client: &mut C,
    cutter: &mut Cutter,
) -> Result<Request, Reply>
    requires session { session.old
        ≡ gathering session.old.limit session.old.leased session.old.database [] }
    requires limit { cutter.old.limit ≡ session.old.limit }
    ensures asks { SomeCalls C.wrote C.gave client.old client.new
        (λ calls. AsksNext session.old.limit cutter.old.bytes calls result cutter.new.bytes) }
    ensures session { OnOk result (session.new ≡ asking session.old.limit session.old.database) }
    ensures limit { cutter.new.limit ≡ cutter.old.limit }
{
    for _ in rt.forever() {
        match cut_request(session, cutter) {
            Found::Request(request) => return Ok(request),
            Found::End(reply) => return Err(reply),
            Found::More => {}
        }
        if let Some(reply) = read_more(session, client, cutter) {
            return Err(reply);
        }
    }
    unreachable!()
}

// Cuts a request from what was read of the client. One that is all of it stays where it was read.
#[inline]
fn cut_request(session: &mut Client, cutter: &mut Cutter) -> Found
    requires session { session.old ≡ gathering session.old.limit session.old.leased
        session.old.database session.old.gathered }
    requires limit { cutter.old.limit ≡ session.old.limit }
    ensures finds { Finds session.old.limit session.old cutter.old.bytes result session.new
        cutter.new.bytes }
    ensures limit { cutter.new.limit ≡ cutter.old.limit }
{
    let len = cutter.pending().len();
    if len == 0 {
        return Found::More;
    }
    if session.is_request(cutter.pending()) {
        let memory = cutter.take_memory();
        return Found::Request(session.ask(memory, len));
    }
    loop {
        let Ok(found) = cutter.next() else {
            return Found::End(Reply::nothing());
        };
        let Some(frame) = found else {
            return Found::More;
        };
        let act = session.on_client(&frame);
        cutter.recycle(frame);
        match act {
            Act::ToLink(request) | Act::Need(request) => return Found::Request(request),
            Act::Close(reply) | Act::End(reply) => return Found::End(reply),
            Act::ToClient(_) => {}
            Act::Release(_) => unreachable!(),
        }
    }
}

// Reads more of the client. It returns what is to be written as the session ends, if it does.
#[inline]
fn read_more<C: WriteCalls + ReadCalls>(
    session: &mut Client,
    client: &mut C,
    cutter: &mut Cutter,
) -> Option<Reply>
    requires none { BeginsNoFrame cutter.old.limit cutter.old.bytes }
    ensures more { result ≡ None → SomeCalls C.wrote C.gave client.old client.new
        (λ calls. (bytes : List ℕ) × Read bytes calls × (cutter.new ≡ with_piece cutter.old bytes)) }
    ensures session { result ≡ None → session.new ≡ session.old }
    ensures ends { IfSome result (λ reply. SomeCalls C.wrote C.gave client.old client.new
        (λ calls. Quits cutter.old.limit cutter.old.bytes calls reply cutter.new.bytes)) }
    ensures limit { cutter.new.limit ≡ cutter.old.limit }
{
    if let Some(error) = cutter.fault() {
        return Some(refusal(session, error));
    }
    let Ok(count) = cutter.read_from(client) else {
        return Some(Reply::nothing());
    };
    if count == 0 {
        return Some(Reply::nothing());
    }
    None
}

// What is written to a client whose bytes can't be taken.
fn refusal(session: &mut Client, error: FrameError) -> Reply
    ensures { IsRefusal error result }
{
    match error {
        FrameError::BadLength | FrameError::TooLong | FrameError::BadType => violation(session),
        FrameError::Memory => Reply::nothing(),
    }
}

// The error of a client that violates the protocol.
fn violation(session: &mut Client) -> Reply
    ensures { IsError ProtocolViolation result }
{
    match session.on_client_fault() {
        Act::Close(error) | Act::End(error) => error,
        _ => Reply::nothing(),
    }
}
