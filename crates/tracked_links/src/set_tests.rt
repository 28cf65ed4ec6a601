//! Queries of the pooler's own on links, at servers that answer them in many ways.
ghost use Rattle.std.specs.Prelude.{◌≡◌, IfSome};
ghost use Rattle.pg_frames.specs.Passage.{start};

use crate::{SetEnd, SetError, set_link};
use client_state::DatabaseNo;
use pg_frames::MessageLimit;
use session_io::{Link, NoListener, log_in};
use std::alloc::Global;
use std::io;
use std::io::{Read, Write};
use std::process::Abort;
use std::sync::Wait;
use std::test::Fail;

// A server that answers the first thing that it gets with a login, and the second with notices and a
// reply, at most a piece with each read.
#[derive(Drop)]
struct Server {
    // What comes next.
    answer: &'static [u8],
    is_logged_in: bool,
    is_asked: bool,
    reply: &'static [u8],
    // How many notices come before the reply.
    notices: usize,
    piece: usize,
    written: Vec<u8>,
}

impl Server {
    fn new(alloc: Global, reply: &'static [u8], piece: usize, notices: usize) -> Server {
        Server {
            answer: b"",
            is_logged_in: false,
            is_asked: false,
            reply,
            notices,
            piece,
            written: Vec::new(alloc),
        }
    }

    // What comes of the reply next.
    fn next(&mut self) -> &'static [u8] {
        if self.notices > 0 {
            self.notices -= 1;
            return NOTICE;
        }
        let reply = self.reply;
        self.reply = b"";
        reply
    }
}

impl Read for Server {
    fn read(&mut self, buffer: &mut [u8]) -> io::Result<usize> {
        let count = self.answer.len().min(self.piece).min(buffer.len());
        let (front, back) = self.answer.split_at(count);
        buffer[..count].copy_from_slice(front);
        self.answer = back;
        if back.is_empty() && self.is_asked {
            self.answer = self.next();
        }
        Ok(count)
    }
}

impl Write for Server {
    fn write(&mut self, bytes: &[u8]) -> io::Result<usize> {
        self.written.extend_from_slice(bytes)?;
        self.answer = if self.is_logged_in {
            self.is_asked = true;
            self.next()
        } else {
            self.is_logged_in = true;
            LOGIN
        };
        Ok(bytes.len())
    }

    fn flush(&mut self) -> io::Result<()> {
        Ok(())
    }
}

const LOGIN: &[u8] = b"R\0\0\0\x08\0\0\0\0\
    K\0\0\0\x0c\0\0=\x18_\x13\xe5\xac\
    Z\0\0\0\x05I";

// What the server gets at its login: a StartupMessage of 35 bytes.
const STARTUP: usize = 35;

const QUERY: &[u8] = b"Q\0\0\x002SET TimeZone = E'GMT'; SET DateStyle = E'iso'\0";

// Both are set.
const SET: &[u8] = b"C\0\0\0\x08SET\0C\0\0\0\x08SET\0\
    S\0\0\0\x11TimeZone\0GMT\0\
    S\0\0\0\x17DateStyle\0ISO, MDY\0\
    Z\0\0\0\x05I";

const NOTICE: &[u8] = b"N\0\0\0\x18SNOTICE\0C00000\0Mhi\0\0";

const ERROR: &[u8] = b"E\0\0\0\x17SERROR\0C22023\0Mno\0\0";

// The second is refused, behind a notice.
const REFUSED: &[u8] = b"C\0\0\0\x08SET\0\
    N\0\0\0\x18SNOTICE\0C00000\0Mhi\0\0\
    E\0\0\0\x17SERROR\0C22023\0Mno\0\0\
    Z\0\0\0\x05I";

// A transaction is open, something stands behind the ReadyForQuery, a length field is 3, and the
// connection ends.
const OPEN: &[u8] = b"C\0\0\0\x08SET\0Z\0\0\0\x05T";

const BEHIND: &[u8] = b"C\0\0\0\x08SET\0Z\0\0\0\x05IN\0\0\0\x18SNOTICE\0C00000\0Mhi\0\0";

const BROKEN: &[u8] = b"C\0\0\0\x08SET\0C\0\0\0\x03Z\0\0\0\x05I";

const ENDED: &[u8] = b"C\0\0\0\x08SET\0";

// A link to such a server.
fn link<R: Wait>(
    rt: &R,
    alloc: Global,
    reply: &'static [u8],
    piece: usize,
    notices: usize,
) -> Option<Link<Server>>
    ensures { IfSome result (λ link. link.flow ≡ start link.flow.limit) }
{
    let server = Server::new(alloc, reply, piece, notices);
    let limit = MessageLimit::new(8_192)?;
    match log_in(rt, alloc, &NoListener, limit, server, "plain", "plain") {
        Ok(logged) => Some(logged.link),
        Err(_) => None,
    }
}

fn name_of(end: &Result<SetEnd, SetError>) -> &'static str {
    match end {
        Ok(SetEnd::Set) => "set",
        Ok(SetEnd::Refused(_)) => "refused",
        Ok(SetEnd::Lost) => "lost",
        Err(SetError::TooLong) => "too long",
        Err(SetError::Memory) => "memory",
    }
}

fn error_in(end: &Result<SetEnd, SetError>) -> &[u8] {
    match end {
        Ok(SetEnd::Refused(error)) => error.as_slice(),
        _ => b"",
    }
}

// A message of this type with this many bytes in its body, the last of them zero.
fn message(alloc: Global, kind: u8, count: u16) -> Result<Vec<u8>, Fail> {
    let mut bytes = Vec::new(alloc);
    let [high, low] = count.saturating_add(4).to_be_bytes();
    bytes.extend_from_slice(&[kind, 0, 0, high, low])?;
    for _ in 1..count {
        bytes.push(b'x')?;
    }
    bytes.push(0)?;
    Ok(bytes)
}

// How the query ends at a server with this reply, after which the link is sent the query once and
// nothing else.
fn assert_end<R: Wait + Abort>(
    rt: &R,
    alloc: Global,
    reply: &'static [u8],
    piece: usize,
    notices: usize,
    expected: &str,
    error: &[u8],
) -> Result<(), Fail> {
    let Some(mut link) = link(rt, alloc, reply, piece, notices) else {
        return Err(Fail::new("no link"));
    };
    let mut query = Vec::new(alloc);
    query.extend_from_slice(QUERY)?;
    let end = set_link(rt, alloc, &mut link, DatabaseNo(0), query);
    assert_eq!(rt; name_of(&end), expected);
    assert_eq!(rt; error_in(&end), error);
    assert_written(rt, &link);
    Ok(())
}

fn assert_written(rt: &impl Abort, link: &Link<Server>) {
    let written = link.stream().written.as_slice();
    assert_eq!(rt; written.get(STARTUP..), Some(QUERY));
}

#[test]
fn answers(rt: HostRuntime) -> Result<(), Fail> {
    let alloc = rt.alloc();
    assert_end(&rt, alloc, SET, 100, 0, "set", b"")?;
    assert_end(&rt, alloc, SET, 1, 0, "set", b"")?;
    assert_end(&rt, alloc, REFUSED, 100, 0, "refused", ERROR)?;
    assert_end(&rt, alloc, REFUSED, 1, 0, "refused", ERROR)?;
    Ok(())
}

#[test]
fn other_answers(rt: HostRuntime) -> Result<(), Fail> {
    let alloc = rt.alloc();
    assert_end(&rt, alloc, OPEN, 1, 0, "lost", b"")?;
    assert_end(&rt, alloc, BEHIND, 100, 0, "lost", b"")?;
    assert_end(&rt, alloc, BROKEN, 1, 0, "lost", b"")?;
    assert_end(&rt, alloc, ENDED, 100, 0, "lost", b"")?;
    Ok(())
}

// 4,096 bytes are more than 163 notices of 25 bytes.
#[test]
fn long_answers(rt: HostRuntime) -> Result<(), Fail> {
    let alloc = rt.alloc();
    assert_end(&rt, alloc, SET, 100, 100, "set", b"")?;
    assert_end(&rt, alloc, REFUSED, 100, 100, "refused", ERROR)?;
    assert_end(&rt, alloc, SET, 100, 164, "lost", b"")?;
    assert_end(&rt, alloc, REFUSED, 100, 164, "lost", b"")?;
    Ok(())
}

// The query isn't sent.
fn assert_unsent<R: Wait + Abort>(rt: &R, alloc: Global, query: Vec<u8>) -> Result<(), Fail> {
    let Some(mut link) = link(rt, alloc, SET, 100, 0) else {
        return Err(Fail::new("no link"));
    };
    let end = set_link(rt, alloc, &mut link, DatabaseNo(0), query);
    assert_eq!(rt; name_of(&end), "too long");
    assert_eq!(rt; link.stream().written.len(), STARTUP);
    Ok(())
}

#[test]
fn long_queries(rt: HostRuntime) -> Result<(), Fail> {
    let alloc = rt.alloc();
    assert_unsent(&rt, alloc, message(alloc, b'Q', 8_189)?)?;
    assert_unsent(&rt, alloc, Vec::new(alloc))?;
    Ok(())
}
