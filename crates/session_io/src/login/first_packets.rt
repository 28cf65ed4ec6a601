//! The first packets of a connection are read and answered.
ghost use Rattle.std.specs.Prelude.{◌≡◌, ◌<◌, ◌≤◌, [], ◌∷◌, ◌++◌, ℕ, List, true, false, length, drop};
ghost use Rattle.peer_forward.specs.Calls.{taken};
ghost use Rattle.startup.specs.Wanted.{IsWithin, LacksLast};
ghost use Rattle.session_io.specs.StreamCalls.{SomeCalls, Wrote, Read};
ghost use Rattle.session_io.specs.Opening.{Opens, Looks, Ends, Refuses};

use crate::login::refuse;
use bytes::BytesMut;
use peer_forward::{Arrival, ReadCalls, Requester, WriteCalls, write_whole};
use pg_ids::{AnyKey, Kind};
use startup::{First, Opening, StartupError, Wanted, cancel_key};
use std::alloc::Global;
use std::sync::Wait;

// How many bytes are read at once.
const MAX_READ: usize = 256;

// How long a CancelRequest is at most, in bytes. Memory for it is taken before it is read.
const LONGEST_CANCEL: usize = 32;

// How many bytes a request for encryption takes.
const NEGOTIATION_LEN: usize = 8;

/// What a connection turned out to be, once its first packets were read.
#[derive(Drop)]
pub enum Opened {
    /// A session with a database, whose client gets a key of this kind.
    Session {
        /// The database's name.
        database: String,
        /// The kind of its key.
        kind: Kind,
    },
    /// A cancel request with this key, whose last byte was seen and isn't taken yet.
    Cancel(AnyKey),
    /// It is over: it was refused, or it was lost.
    Over,
}

/// Reads a connection's first packets, and answers each request for encryption with the byte N, up
/// to a StartupMessage or to the last byte of a CancelRequest, at which it looks. Nothing behind them
/// is read. A refusal is told to the connection, and written to the client unless the connection says
/// not to. A call that is interrupted has failed, and none is tried again.
#[inline(never)]
pub fn open<R, C>(rt: &R, alloc: Global, client: &mut C) -> Opened
where
    R: Wait,
    C: WriteCalls + ReadCalls + Requester + Arrival,
    ensures opens { Opens (record {
      wrote = C.wrote;
      gave = C.gave;
      saw = C.saw;
      refused = C.refused;
    }) client.old result client.new }
{
    let mut opening = Opening::new(alloc);
    let mut text = BytesMut::new(alloc);
    for _ in rt.forever() {
        let first = match opening.read(text.as_slice(), false) {
            Ok(first) => first,
            Err(error) => {
                refuse_first(alloc, client, error);
                return Opened::Over;
            }
        };
        match first {
            First::Startup { database, kind, .. } => return Opened::Session { database, kind },
            // Its last byte isn't read.
            First::Cancel { .. } => unreachable!(),
            First::Ssl | First::Gss => {
                if !decline(client, &mut text) {
                    return Opened::Over;
                }
            }
            First::More => match Wanted::after(text.as_slice()) {
                Wanted::Read(count) => {
                    if !read_more(alloc, client, &mut opening, &mut text, count) {
                        return Opened::Over;
                    }
                }
                Wanted::Look => return look(alloc, client, &mut opening, text.as_slice()),
            },
        }
    }
    unreachable!()
}

// Answers a request for encryption, which begins the text, with the byte N. It returns whether the
// client took that.
fn decline<C: WriteCalls + ReadCalls>(client: &mut C, text: &mut BytesMut) -> bool
    requires { 8 ≤ length text.old.items }
    ensures declined { result ≡ true → SomeCalls C.wrote C.gave client.old client.new
        (Wrote (78 ∷ [])) }
    ensures text { text.new.items ≡ drop 8 text.old.items }
    ensures lost { result ≡ false → SomeCalls C.wrote C.gave client.old client.new
        (λ calls. taken calls ≡ []) }
{
    text.advance(NEGOTIATION_LEN);
    write_whole(client, b"N")
}

// Reads more of the client, at most this many bytes. Where nothing comes, the connection is over, and
// it returns false. It isn't inlined, so that a session's stack has no room for its buffer.
#[inline(never)]
fn read_more<C>(
    alloc: Global,
    client: &mut C,
    opening: &mut Opening,
    text: &mut BytesMut,
    wanted: usize,
) -> bool
where
    C: WriteCalls + ReadCalls + Requester + Arrival,
    ensures more { result ≡ true → SomeCalls C.wrote C.gave client.old client.new
        (λ calls. (bytes : List ℕ) × Read bytes calls × (length bytes ≤ wanted)
        × (text.new.items ≡ text.old.items ++ bytes)) }
    ensures seen { result ≡ true → opening.new ≡ opening.old }
    ensures over { result ≡ false → Ends (record {
      wrote = C.wrote;
      gave = C.gave;
      saw = C.saw;
      refused = C.refused;
    }) opening.old text.old.items client.old client.new }
{
    if text.reserve(LONGEST_CANCEL).is_err() {
        refuse_first(alloc, client, StartupError::Memory);
        return false;
    }
    let mut buffer = [0; MAX_READ];
    let room = wanted.min(MAX_READ);
    let Ok(count) = client.read_once(&mut buffer[..room]) else {
        return false;
    };
    if count == 0 {
        end(alloc, client, opening, text.as_slice());
        return false;
    }
    match text.extend_from_slice(&buffer[..count]) {
        Ok(()) => true,
        Err(_) => {
            refuse_first(alloc, client, StartupError::Memory);
            false
        }
    }
}

// Looks at the last byte of a CancelRequest, of which these bytes were read.
#[inline(never)]
fn look<C>(alloc: Global, client: &mut C, opening: &mut Opening, text: &[u8]) -> Opened
where
    C: WriteCalls + ReadCalls + Requester + Arrival,
    requires lacks { LacksLast text.now }
    ensures looks { Looks (record {
      wrote = C.wrote;
      gave = C.gave;
      saw = C.saw;
      refused = C.refused;
    }) opening.old text.now client.old result client.new }
{
    let mut last = [0];
    match client.peek_once(&mut last) {
        Ok(0) => {
            end(alloc, client, opening, text);
            Opened::Over
        }
        Ok(_) => Opened::Cancel(cancel_key(text, last[0])),
        Err(_) => Opened::Over,
    }
}

// Ends a connection whose input ended after these bytes.
fn end<C>(alloc: Global, client: &mut C, opening: &mut Opening, text: &[u8])
where
    C: WriteCalls + ReadCalls + Requester + Arrival,
    ensures { Ends (record {
      wrote = C.wrote;
      gave = C.gave;
      saw = C.saw;
      refused = C.refused;
    }) opening.old text.now client.old client.new }
{
    if let Err(error) = opening.read(text, true) {
        refuse_first(alloc, client, error);
    }
}

// Refuses a connection: it is told the error, which is then written to the client if it has a code.
fn refuse_first<C>(alloc: Global, client: &mut C, error: StartupError)
where
    C: WriteCalls + ReadCalls + Requester + Arrival,
    ensures { Refuses (record {
      wrote = C.wrote;
      gave = C.gave;
      saw = C.saw;
      refused = C.refused;
    }) error client.old client.new }
{
    if !client.refuse(error) {
        return;
    }
    if let Some(code) = error.error_code() {
        refuse(alloc, client, code);
    }
}
