//! What servers report, read through streams that hear it.
use crate::TrackedStream;
use peer_forward::{ReadCalls, WriteCalls};
use std::alloc::Global;
use std::io;
use std::io::{Read, Write};
use std::process::Abort;
use std::sync::Arc;
use std::test::Fail;
use tracked_parameters::TrackedNames;

// A server that sends these bytes, at most a piece with each read, and takes all.
#[derive(Drop)]
struct Script {
    bytes: Vec<u8>,
    at: usize,
    piece: usize,
}

impl Read for Script {
    fn read(&mut self, buffer: &mut [u8]) -> io::Result<usize> {
        let (_, left) = self.bytes.split_at(self.at.min(self.bytes.len()));
        let count = left.len().min(self.piece).min(buffer.len());
        buffer[..count].copy_from_slice(&left[..count]);
        self.at = self.at.saturating_add(count);
        Ok(count)
    }
}

impl Write for Script {
    fn write(&mut self, bytes: &[u8]) -> io::Result<usize> {
        Ok(bytes.len())
    }

    fn flush(&mut self) -> io::Result<()> {
        Ok(())
    }
}

// What PostgreSQL 15 sends at a login (`tools/transcripts`), without what isn't tracked.
const LOGIN: &[u8] = b"R\0\0\0\x08\0\0\0\0\
    S\0\0\0\x1aapplication_name\0psql\0\
    S\0\0\0\x19client_encoding\0UTF8\0\
    S\0\0\0\x15is_superuser\0off\0\
    S\0\0\0\x15TimeZone\0Etc/UTC\0\
    K\0\0\0\x0c\0\0=\x18_\x13\xe5\xac\
    Z\0\0\0\x05I";

// After a SET of two parameters, one of them twice.
const SETS: &[u8] = b"C\0\0\0\x08SET\0\
    S\0\0\0\x11TimeZone\0GMT\0\
    S\0\0\0\x1bapplication_name\0other\0\
    S\0\0\0\x11timezone\0EST\0\
    Z\0\0\0\x05I";

// A length field of 3, and a report behind it.
const BROKEN: &[u8] = b"S\0\0\0\x11TimeZone\0GMT\0\
    N\0\0\0\x03\
    S\0\0\0\x11TimeZone\0EST\0";

// Reports without a zero byte at their end, and with a third text.
const MALFORMED: &[u8] = b"S\0\0\0\x11TimeZone\0GMT\0\
    S\0\0\0\x10TimeZone\0EST\
    S\0\0\0\x13TimeZone\0EST\0x\0\
    Z\0\0\0\x05I";

fn script_of(alloc: Global, text: &[u8], piece: usize) -> Result<Script, Fail> {
    let mut bytes = Vec::new(alloc);
    bytes.extend_from_slice(text)?;
    Ok(Script {
        bytes,
        at: 0,
        piece,
    })
}

// The stream of a connection whose parameters are tracked.
fn tracked(alloc: Global, script: Script) -> Result<TrackedStream<Script>, Fail> {
    let names = Arc::new(alloc, TrackedNames::new(alloc)?)?;
    Ok(TrackedStream::new(alloc, script, names)?)
}

// Reads up to the end. Returns how many bytes came.
fn read_all<L: ReadCalls>(stream: &mut L) -> usize {
    let mut buffer = [0; 64];
    let mut total = 0_usize;
    for _ in 0..100_000 {
        match stream.read_once(&mut buffer) {
            Ok(0) | Err(_) => return total,
            Ok(count) => total = total.saturating_add(count),
        }
    }
    total
}

fn is_value(found: Option<&[u8]>, expected: &[u8]) -> bool {
    match found {
        Some(value) => value == expected,
        None => false,
    }
}

fn assert_value(rt: &impl Abort, stream: &TrackedStream<Script>, name: &[u8], expected: &[u8]) {
    assert!(rt; is_value(stream.value_of(name), expected));
}

fn assert_none(rt: &impl Abort, stream: &TrackedStream<Script>, name: &[u8]) {
    assert!(rt; stream.value_of(name).is_none());
}

// The login, in pieces of this length.
fn assert_login(rt: &impl Abort, alloc: Global, piece: usize) -> Result<(), Fail> {
    let mut stream = tracked(alloc, script_of(alloc, LOGIN, piece)?)?;
    assert_eq!(rt; read_all(&mut stream), 125);
    assert_value(rt, &stream, b"application_name", b"psql");
    assert_value(rt, &stream, b"client_encoding", b"UTF8");
    assert_value(rt, &stream, b"timezone", b"Etc/UTC");
    assert_none(rt, &stream, b"DateStyle");
    assert_none(rt, &stream, b"is_superuser");
    Ok(())
}

#[test]
fn logins(rt: HostRuntime) -> Result<(), Fail> {
    for piece in 1..64_usize {
        assert_login(&rt, rt.alloc(), piece)?;
    }
    Ok(())
}

// The last values, in pieces of this length.
fn assert_last(rt: &impl Abort, alloc: Global, piece: usize) -> Result<(), Fail> {
    let mut stream = tracked(alloc, script_of(alloc, SETS, piece)?)?;
    assert_eq!(rt; read_all(&mut stream), 79);
    assert_value(rt, &stream, b"TimeZone", b"EST");
    assert_value(rt, &stream, b"application_name", b"other");
    Ok(())
}

#[test]
fn last_values(rt: HostRuntime) -> Result<(), Fail> {
    assert_last(&rt, rt.alloc(), 1)?;
    assert_last(&rt, rt.alloc(), 7)?;
    assert_last(&rt, rt.alloc(), 64)?;
    Ok(())
}

// The time zone is GMT, whatever stands behind it.
fn assert_zone(rt: &impl Abort, alloc: Global, bytes: &[u8], piece: usize) -> Result<(), Fail> {
    let mut stream = tracked(alloc, script_of(alloc, bytes, piece)?)?;
    assert_eq!(rt; read_all(&mut stream), bytes.len());
    assert_value(rt, &stream, b"TimeZone", b"GMT");
    Ok(())
}

#[test]
fn broken_messages(rt: HostRuntime) -> Result<(), Fail> {
    assert_zone(&rt, rt.alloc(), BROKEN, 1)?;
    assert_zone(&rt, rt.alloc(), BROKEN, 64)?;
    assert_zone(&rt, rt.alloc(), MALFORMED, 1)?;
    assert_zone(&rt, rt.alloc(), MALFORMED, 64)?;
    Ok(())
}

// A report of `application_name` with a value of this many bytes, behind one with the value `psql`,
// and one of `TimeZone` behind it.
fn long_value(alloc: Global, count: usize) -> Result<Script, Fail> {
    let mut bytes = Vec::new(alloc);
    bytes.extend_from_slice(b"S\0\0\0\x1aapplication_name\0psql\0S")?;
    bytes.extend_from_slice(&length_field(count))?;
    bytes.extend_from_slice(b"application_name\0")?;
    for _ in 0..count {
        bytes.push(b'x')?;
    }
    bytes.extend_from_slice(b"\0S\0\0\0\x11TimeZone\0GMT\0")?;
    Ok(Script {
        bytes,
        at: 0,
        piece: 50,
    })
}

// The length field of a report of `application_name` whose value has this many bytes, 65,513 at most.
fn length_field(count: usize) -> [u8; 4] {
    let length = (count.min(65_513) + 22) as u16;
    let [high, low] = length.to_be_bytes();
    [0, 0, high, low]
}

fn assert_long(rt: &impl Abort, alloc: Global, count: usize, is_kept: bool) -> Result<(), Fail> {
    let mut stream = tracked(alloc, long_value(alloc, count)?)?;
    assert_eq!(rt; read_all(&mut stream), count.saturating_add(68));
    assert!(rt; is_long(stream.value_of(b"application_name"), count) == is_kept);
    assert!(rt; stream.value_of(b"application_name").is_some() == is_kept);
    assert_value(rt, &stream, b"TimeZone", b"GMT");
    Ok(())
}

fn is_long(found: Option<&[u8]>, count: usize) -> bool {
    match found {
        Some(value) => value.len() == count,
        None => false,
    }
}

#[test]
fn long_values(rt: HostRuntime) -> Result<(), Fail> {
    assert_long(&rt, rt.alloc(), 10_000, true)?;
    assert_long(&rt, rt.alloc(), 10_001, false)?;
    assert_long(&rt, rt.alloc(), 10_012, false)?;
    assert_long(&rt, rt.alloc(), 10_013, false)?;
    assert_long(&rt, rt.alloc(), 30_000, false)?;
    Ok(())
}

fn is_known(stream: &TrackedStream<Script>) -> bool {
    match stream.server_values() {
        Some(values) => values.is_known(),
        None => false,
    }
}

#[test]
fn ends_of_logins(rt: HostRuntime) -> Result<(), Fail> {
    let alloc = rt.alloc();
    let mut stream = tracked(alloc, script_of(alloc, LOGIN, 64)?)?;
    assert_eq!(rt; read_all(&mut stream), 125);
    assert!(rt; !is_known(&stream));
    stream.login_done(alloc)?;
    assert!(rt; is_known(&stream));
    assert_value(&rt, &stream, b"TimeZone", b"Etc/UTC");
    Ok(())
}

#[test]
fn untracked(rt: HostRuntime) -> Result<(), Fail> {
    let mut stream = TrackedStream::untracked(script_of(rt.alloc(), LOGIN, 64)?);
    assert_eq!(rt; read_all(&mut stream), 125);
    assert_none(&rt, &stream, b"TimeZone");
    assert!(rt; stream.server_values().is_none());
    assert!(rt; is_count(&stream.write_once(b"abc"), 3));
    Ok(())
}

fn is_count(written: &io::Result<usize>, expected: usize) -> bool {
    match written {
        Ok(count) => *count == expected,
        Err(_) => false,
    }
}
