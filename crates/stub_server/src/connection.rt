//! One connection, from its first packet on.
use crate::conversation::converse;
use crate::{Mode, Server};
use pg_ids::AnyKey;
use startup::{First, Opening, StartupError};
use std::alloc::Global;
use std::io;
use std::io::{ErrorKind, Read, Write};
use std::sync::Wait;

// The length of SSLRequest and of GSSENCRequest.
const NEGOTIATION_LEN: usize = 8;

// What a connection turned out to be for.
#[derive(Drop)]
enum Purpose {
    // A session, with the bytes behind its StartupMessage.
    Session(Vec<u8>),
    // A cancel request.
    Cancel(AnyKey),
}

/// Serves one connection, until it is to be closed. A cancel request is acted on by then. Fails if
/// a read or a write fails, if memory runs out, or if what comes isn't of the format.
///
/// While a client's `hold` runs nothing is read from it. So a `hold` whose client is gone runs on,
/// until a CancelRequest for its key comes.
pub fn serve_connection<R: Wait, S: Read + Write>(
    rt: &R,
    server: &Server,
    stream: &mut S,
) -> io::Result<()> {
    match open(rt, server.alloc(), stream)? {
        Purpose::Session(rest) => converse(rt, server, stream, rest.as_slice()),
        Purpose::Cancel(key) => {
            server.cancel(rt, key);
            match server.mode() {
                Mode::Honest => Ok(()),
                Mode::Byte => stream.write_all(&[0x4e]),
            }
        }
    }
}

// Reads the first packets, up to the one that says what the connection is for.
fn open<R: Wait, S: Read + Write>(rt: &R, alloc: Global, stream: &mut S) -> io::Result<Purpose> {
    let mut opening = Opening::new(alloc);
    let mut so_far = Vec::new(alloc);
    let mut at_end = false;
    for _ in rt.forever() {
        let first = opening.read(so_far.as_slice(), at_end).map_err(fault)?;
        match &first {
            First::Startup { used, .. } => {
                return Ok(Purpose::Session(behind(alloc, so_far.as_slice(), *used)?));
            }
            First::Cancel { key } => return Ok(Purpose::Cancel(*key)),
            First::Ssl | First::Gss => {
                stream.write_all(b"N")?;
                so_far = behind(alloc, so_far.as_slice(), NEGOTIATION_LEN)?;
            }
            First::More => at_end = receive(stream, &mut so_far)? == 0,
        }
    }
    unreachable!()
}

// A copy of what stands behind a packet of this length.
fn behind(alloc: Global, bytes: &[u8], used: usize) -> io::Result<Vec<u8>> {
    let rest = bytes.get(used..).unwrap_or(&[]);
    Ok(Vec::from_slice(alloc, rest)?)
}

// Reads once, and appends what came. No byte means the end of the input.
fn receive<S: Read>(stream: &mut S, into: &mut Vec<u8>) -> io::Result<usize> {
    let mut buffer = [0; 4096];
    let count = stream.read(&mut buffer)?;
    into.extend_from_slice(&buffer[..count])?;
    Ok(count)
}

// The fault of a connection whose first packet is refused.
fn fault(error: StartupError) -> io::Error {
    match error {
        StartupError::Memory => io::Error::from(ErrorKind::OutOfMemory),
        StartupError::Truncated => io::Error::from(ErrorKind::UnexpectedEof),
        _ => io::Error::from(ErrorKind::InvalidData),
    }
}
