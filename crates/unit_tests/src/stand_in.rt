//! Connections over memory and over loopback. The bytes are worked out by hand from the PostgreSQL
//! manual's message formats.
use crate::checks::assert_bytes;
use std::alloc::{AllocError, Global};
use std::io;
use std::io::{ErrorKind, Read, Write};
use std::process::Abort;
use std::sync::Wait;
use std::test::Fail;
use stub_server::{Mode, Server, serve, serve_connection};

mod holds;
mod interrupts;
mod loopback;

const STARTUP: &[u8] = b"\0\0\0\x20\0\x03\0\0user\0ann\0database\0shop\0\0";

const CANCEL: &[u8] = b"\0\0\0\x10\x04\xd2\x16\x2e\0\0\0\x01\0\x0f\x42\x41";

const SSL: &[u8] = b"\0\0\0\x08\x04\xd2\x16\x2f";

const GSS: &[u8] = b"\0\0\0\x08\x04\xd2\x16\x30";

// A login up to its key, and what follows the key.
const GREETING: &[u8] = b"R\0\0\0\x08\0\0\0\0S\0\0\0\x16server_version\016\0\
    S\0\0\0\x19server_encoding\0UTF8\0S\0\0\0\x19client_encoding\0UTF8\0K\0\0\0\x0c";

// Process ID 1 and secret key 1,000,001, and the next.
const KEY: &[u8] = b"\0\0\0\x01\0\x0f\x42\x41";

const NEXT_KEY: &[u8] = b"\0\0\0\x02\0\x0f\x42\x42";

const COLUMN: &[u8] = b"T\0\0\0\x1d\0\x01echo\0\0\0\0\0\0\0\0\0\0\x19\xff\xff\xff\xff\xff\xff\0\0";

const SELECT: &[u8] = b"C\0\0\0\x0dSELECT 1\0";

const BEGIN: &[u8] = b"C\0\0\0\x0aBEGIN\0";

const COMMIT: &[u8] = b"C\0\0\0\x0bCOMMIT\0";

const ROLLBACK: &[u8] = b"C\0\0\0\x0dROLLBACK\0";

const UNKNOWN: &[u8] = b"E\0\0\0\x2fSERROR\0VERROR\0C0A000\0Mnot in this profile\0\0";

const CANCELED: &[u8] = b"E\0\0\0\x2aSERROR\0VERROR\0C57014\0Mquery canceled\0\0";

const IDLE: &[u8] = b"Z\0\0\0\x05I";

const OPEN: &[u8] = b"Z\0\0\0\x05T";

const FAILED: &[u8] = b"Z\0\0\0\x05E";

// A client whose bytes are all there, and come in pieces of this size. It keeps what it is sent, up
// to `room` bytes.
#[derive(Drop)]
struct Wire {
    input: Vec<u8>,
    at: usize,
    size: usize,
    output: Vec<u8>,
    room: usize,
}

impl Wire {
    fn new(alloc: Global, input: Vec<u8>, size: usize, room: usize) -> Wire {
        Wire {
            input,
            at: 0,
            size,
            output: Vec::new(alloc),
            room,
        }
    }
}

impl Read for Wire {
    fn read(&mut self, buf: &mut [u8]) -> io::Result<usize> {
        let rest = self.input.as_slice().get(self.at..).unwrap_or(b"");
        let count = rest.len().min(buf.len()).min(self.size);
        buf[..count].copy_from_slice(&rest[..count]);
        self.at = self.at.saturating_add(count);
        Ok(count)
    }
}

impl Write for Wire {
    fn write(&mut self, buf: &[u8]) -> io::Result<usize> {
        let count = self.room.saturating_sub(self.output.len()).min(buf.len());
        if count == 0 {
            return Err(io::Error::from(ErrorKind::BrokenPipe));
        }
        self.output.extend_from_slice(buf.split_at(count).0)?;
        Ok(count)
    }

    fn flush(&mut self) -> io::Result<()> {
        Ok(())
    }
}

// Serves a client. What it was sent shows how that ended, so out of memory is the only error.
fn serve_wire<R: Wait>(rt: &R, server: &Server, wire: &mut Wire) -> io::Result<()> {
    match serve_connection(rt, server, wire) {
        Err(error) if error.kind() == ErrorKind::OutOfMemory => Err(error),
        Ok(()) | Err(_) => Ok(()),
    }
}

// Bytes, one after another.
fn joined(alloc: Global, parts: &[&[u8]]) -> Result<Vec<u8>, AllocError> {
    let mut out = Vec::new(alloc);
    for part in parts {
        out.extend_from_slice(part)?;
    }
    Ok(out)
}

// Appends the Query of a text.
fn put_query(out: &mut Vec<u8>, text: &[u8]) -> Result<(), AllocError> {
    let length = (text.len() as u64).saturating_add(5).to_be_bytes();
    out.push(b'Q')?;
    out.extend_from_slice(&length[4..])?;
    out.extend_from_slice(text)?;
    out.push(0)?;
    Ok(())
}

// What a client is sent that comes with this input, in pieces of this size, and that takes `room`
// bytes.
fn sent_to<R: Wait + AllocGlobal>(
    rt: &R,
    mode: Mode,
    input: &[u8],
    size: usize,
    room: usize,
) -> io::Result<Vec<u8>> {
    let server = Server::new(rt.alloc(), mode);
    let input = Vec::from_slice(rt.alloc(), input)?;
    let mut wire = Wire::new(rt.alloc(), input, size, room);
    serve_wire(rt, &server, &mut wire)?;
    Ok(wire.output)
}

// A client that comes with this input is sent this, however its bytes come.
fn assert_sent<R: Wait + Abort + AllocGlobal>(
    rt: &R,
    mode: Mode,
    input: &[u8],
    expected: &[u8],
) -> Result<(), Fail> {
    for size in [1, 7, 5000] {
        let sent = sent_to(rt, mode, input, size, usize::MAX)?;
        assert_bytes(rt, sent.as_slice(), expected);
    }
    Ok(())
}

// First packets, and what is sent for them.
const OPENINGS: &[(Mode, &[&[u8]], &[&[u8]])] = &[
    (Mode::Honest, &[STARTUP], &[GREETING, KEY, IDLE]),
    (Mode::Byte, &[STARTUP], &[GREETING, KEY, IDLE]),
    (Mode::Honest, &[SSL, STARTUP], &[b"N", GREETING, KEY, IDLE]),
    (
        Mode::Honest,
        &[GSS, SSL, STARTUP],
        &[b"NN", GREETING, KEY, IDLE],
    ),
    // Protocol 3.2.
    (
        Mode::Honest,
        &[b"\0\0\0\x10\0\x03\0\x02user\0a\0\0"],
        &[GREETING, KEY, IDLE],
    ),
    // Refused: another version, no user, a second SSLRequest, a packet that is cut off, no packet.
    (Mode::Honest, &[b"\0\0\0\x09\0\x03\0\x01\0"], &[]),
    (Mode::Honest, &[b"\0\0\0\x09\0\x03\0\0\0"], &[]),
    (Mode::Honest, &[SSL, SSL, STARTUP], &[b"N"]),
    (Mode::Honest, &[b"\0\0\0\x20\0\x03\0\0user\0"], &[]),
    (Mode::Byte, &[], &[]),
    // CancelRequests of nobody's key, and one of 32 bytes that begins as the first client's.
    (Mode::Honest, &[CANCEL], &[]),
    (Mode::Byte, &[CANCEL], &[b"\x4e"]),
    (Mode::Byte, &[SSL, CANCEL], &[b"N\x4e"]),
    (
        Mode::Byte,
        &[
            b"\0\0\0\x20\x04\xd2\x16\x2e",
            KEY,
            b"\0\0\0\0\0\0\0\0\0\0\0\0\0\0\0\0",
        ],
        &[b"\x4e"],
    ),
];

#[test]
fn openings(rt: HostRuntime) -> Result<(), Fail> {
    for (mode, input, expected) in OPENINGS {
        let input = joined(rt.alloc(), input)?;
        let expected = joined(rt.alloc(), expected)?;
        assert_sent(&rt, *mode, input.as_slice(), expected.as_slice())?;
    }
    Ok(())
}

// Queries of one client, and the answers.
const SESSIONS: &[(&[&[u8]], &[&[u8]])] = &[
    (
        &[b"echo hi", b"echo "],
        &[
            COLUMN,
            b"D\0\0\0\x0c\0\x01\0\0\0\x02hi",
            SELECT,
            IDLE,
            COLUMN,
            b"D\0\0\0\x0a\0\x01\0\0\0\0",
            SELECT,
            IDLE,
        ],
    ),
    (
        &[b"begin", b"echo echo x", b"commit"],
        &[
            BEGIN,
            OPEN,
            COLUMN,
            b"D\0\0\0\x10\0\x01\0\0\0\x06echo x",
            SELECT,
            OPEN,
            COMMIT,
            IDLE,
        ],
    ),
    (
        &[b"begin", b"begin", b"commit", b"commit"],
        &[BEGIN, OPEN, BEGIN, OPEN, COMMIT, IDLE, COMMIT, IDLE],
    ),
    // Texts that are no query of the server.
    (
        &[
            b"", b"echo", b"Echo x", b"hold ", b"HOLD", b"begin;", b" commit",
        ],
        &[
            UNKNOWN, IDLE, UNKNOWN, IDLE, UNKNOWN, IDLE, UNKNOWN, IDLE, UNKNOWN, IDLE, UNKNOWN,
            IDLE, UNKNOWN, IDLE,
        ],
    ),
    // In a failed transaction commit alone is known.
    (
        &[
            b"begin", b"x", b"hold", b"echo y", b"begin", b"commit", b"x",
        ],
        &[
            BEGIN, OPEN, UNKNOWN, FAILED, UNKNOWN, FAILED, UNKNOWN, FAILED, UNKNOWN, FAILED,
            ROLLBACK, IDLE, UNKNOWN, IDLE,
        ],
    ),
];

// The packets of a client with these queries.
fn with_queries(alloc: Global, queries: &[&[u8]]) -> Result<Vec<u8>, AllocError> {
    let mut input = Vec::from_slice(alloc, STARTUP)?;
    for text in queries {
        put_query(&mut input, text)?;
    }
    Ok(input)
}

// The login of the first client, and these messages.
fn with_login(alloc: Global, messages: &[&[u8]]) -> Result<Vec<u8>, AllocError> {
    let mut out = joined(alloc, &[GREETING, KEY, IDLE])?;
    for message in messages {
        out.extend_from_slice(message)?;
    }
    Ok(out)
}

#[test]
fn sessions(rt: HostRuntime) -> Result<(), Fail> {
    for (queries, answers) in SESSIONS {
        let input = with_queries(rt.alloc(), queries)?;
        let expected = with_login(rt.alloc(), answers)?;
        assert_sent(&rt, Mode::Honest, input.as_slice(), expected.as_slice())?;
    }
    Ok(())
}

// Messages that close the connection: Terminate, Sync, Parse, a Query whose string doesn't end and
// one of two strings; a type byte that is none, and a length below 4.
const CLOSING: &[&[u8]] = &[
    b"X\0\0\0\x04",
    b"S\0\0\0\x04",
    b"P\0\0\0\x0c\0hold\0\0\0",
    b"Q\0\0\0\x08hold",
    b"Q\0\0\0\x04",
    b"Q\0\0\0\x0bbegin\0\0",
    b"\0\0\0\0\x04",
    b"Q\0\0\0\x03",
];

#[test]
fn closing_messages(rt: HostRuntime) -> Result<(), Fail> {
    let begin = b"Q\0\0\0\x0abegin\0";
    let expected = with_login(rt.alloc(), &[BEGIN, OPEN])?;
    for message in CLOSING {
        let input = joined(rt.alloc(), &[STARTUP, begin, message, begin])?;
        assert_sent(&rt, Mode::Honest, input.as_slice(), expected.as_slice())?;
    }
    Ok(())
}

// The size of the greatest value that a Query can name.
const GREATEST: usize = 1_048_566;

// The query for a value of this size.
fn long_echo(alloc: Global, size: usize) -> Result<Vec<u8>, AllocError> {
    let mut text = Vec::from_slice(alloc, b"echo ")?;
    text.resize(size.saturating_add(5), b'a')?;
    Ok(text)
}

// The answer to the greatest Query there is has the greatest DataRow there is: behind 133 bytes of
// the login and RowDescription, and before 20 bytes.
#[test]
fn greatest_value(rt: HostRuntime) -> Result<(), Fail> {
    let text = long_echo(rt.alloc(), GREATEST)?;
    let server = Server::new(rt.alloc(), Mode::Honest);
    let input = with_queries(rt.alloc(), &[text.as_slice()])?;
    let mut wire = Wire::new(rt.alloc(), input, usize::MAX, usize::MAX);
    serve_connection(&rt, &server, &mut wire)?;
    assert_eq!(rt; wire.output.len(), 1_048_730);
    assert_eq!(rt; wire.output.get(133..138), Some(b"D\0\x10\0\0".as_slice()));
    Ok(())
}

// A client that takes `room` bytes was sent these, and no more.
fn assert_broken<R: Wait + Abort + AllocGlobal>(
    rt: &R,
    input: &[u8],
    room: usize,
    expected: &[u8],
) -> Result<(), Fail> {
    let sent = sent_to(rt, Mode::Honest, input, 5000, room)?;
    assert_eq!(rt; Some(sent.as_slice()), expected.get(..room));
    Ok(())
}

// A write fails at each place.
#[test]
fn broken_clients(rt: HostRuntime) -> Result<(), Fail> {
    let input = with_queries(rt.alloc(), &[b"begin", b"commit"])?;
    let expected = with_login(rt.alloc(), &[BEGIN, OPEN, COMMIT, IDLE])?;
    for room in 0..expected.len() {
        assert_broken(&rt, input.as_slice(), room, expected.as_slice())?;
    }
    Ok(())
}
