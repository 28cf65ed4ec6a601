//! Packets carried over streams that take a given number of bytes and then stop, and requests
//! finished over them.
use crate::checks::{assert_bytes, assert_same};
use peer_forward::{Outcome, ReadCalls, Requester, Verdict, WriteCalls, carry, finish};
use startup::Packet;
use std::alloc::{AllocError, Global};
use std::io;
use std::io::{ErrorKind, Read, Write};
use std::process::Abort;
use std::test::Fail;

// CancelRequests: of peer 2, slot 0, secret 1, with two hops, and of peer 16383, slot 65535, secret
// 4294967295, with three; and the same of long keys, with boot 1 and serial 515, and with the
// greatest of both.
const PACKETS: [Packet; 4] = [
    Packet::Short([0, 0, 0, 16, 4, 0xd2, 0x16, 0x2e, 0, 8, 0, 0, 0, 0, 0, 6]),
    Packet::Short([
        0, 0, 0, 16, 4, 0xd2, 0x16, 0x2e, 255, 255, 255, 255, 255, 255, 255, 255,
    ]),
    Packet::Long([
        0, 0, 0, 32, 4, 0xd2, 0x16, 0x2e, 0, 8, 0, 0, 0, 0, 0, 6, 0, 0, 0, 0, 0, 0, 0, 1, 0, 0, 0,
        0, 0, 0, 2, 3,
    ]),
    Packet::Long([
        0, 0, 0, 32, 4, 0xd2, 0x16, 0x2e, 255, 255, 255, 255, 255, 255, 255, 255, 255, 255, 255,
        255, 255, 255, 255, 255, 255, 255, 255, 255, 255, 255, 255, 255,
    ]),
];

// What a write returns that finds no room.
#[derive(Clone, Copy)]
enum Full {
    Fails,
    TakesNothing,
}

// What a read returns.
#[derive(Clone, Copy)]
enum Reply {
    End,
    Byte(u8),
    Fails,
}

// A stream that takes `room` bytes in all, and `at_once` in one call. It counts its calls.
#[derive(Drop)]
struct Wire {
    held: Vec<u8>,
    at_once: usize,
    room: usize,
    full: Full,
    reply: Reply,
    writes: u32,
    reads: u32,
    // How often the byte was taken that was seen.
    takes: u32,
}

impl Wire {
    fn new(
        alloc: Global,
        at_once: usize,
        room: usize,
        full: Full,
        reply: Reply,
    ) -> Result<Wire, AllocError> {
        Ok(Wire {
            held: Vec::with_capacity(alloc, 32)?,
            at_once,
            room,
            full,
            reply,
            writes: 0,
            reads: 0,
            takes: 0,
        })
    }
}

impl Requester for Wire {
    ghost use Rattle.std.specs.Prelude.{⊤};

    ghost saw = { λ _ _ _ _. ⊤ };

    ghost takes = { λ _ _. ⊤ };

    ghost resets = { λ _ _. ⊤ };

    fn peek_once(&mut self, _buffer: &mut [u8]) -> io::Result<usize> {
        Ok(0)
    }

    fn take_seen(&mut self) {
        self.takes = self.takes.saturating_add(1);
    }

    fn give_up(&mut self) {}
}

impl Write for Wire {
    fn write(&mut self, buf: &[u8]) -> io::Result<usize> {
        self.writes = self.writes.saturating_add(1);
        let room = self.room.saturating_sub(self.held.len());
        let count = room.min(self.at_once).min(buf.len());
        if count == 0 {
            return match self.full {
                Full::Fails => Err(io::Error::from(ErrorKind::BrokenPipe)),
                Full::TakesNothing => Ok(0),
            };
        }
        self.held.extend_from_slice(buf.split_at(count).0)?;
        Ok(count)
    }

    fn flush(&mut self) -> io::Result<()> {
        Ok(())
    }
}

impl Read for Wire {
    fn read(&mut self, buf: &mut [u8]) -> io::Result<usize> {
        self.reads = self.reads.saturating_add(1);
        if buf.is_empty() {
            return Ok(0);
        }
        match self.reply {
            Reply::End => Ok(0),
            Reply::Byte(byte) => {
                buf[0] = byte;
                Ok(1)
            }
            Reply::Fails => Err(io::Error::from(ErrorKind::ConnectionReset)),
        }
    }
}

// What comes of carrying a packet: the outcome, and how many bytes, writes and reads there were.
#[derive(Clone, Copy)]
struct Carried {
    outcome: Outcome,
    written: usize,
    writes: u32,
    reads: u32,
}

impl Carried {
    const fn new(outcome: Outcome, written: usize, writes: u32, reads: u32) -> Carried {
        Carried {
            outcome,
            written,
            writes,
            reads,
        }
    }
}

// The packet is carried with this outcome, by this many writes and reads, and this many bytes of it
// are written.
fn assert_carried(rt: &impl Abort, wire: &mut Wire, packet: &Packet, expected: &Carried) {
    assert_eq!(rt; carry(wire, *packet), expected.outcome);
    assert_eq!(rt;
        packet.as_slice().get(..expected.written),
        Some(wire.held.as_slice())
    );
    assert_eq!(rt; wire.writes, expected.writes);
    assert_eq!(rt; wire.reads, expected.reads);
}

// Streams, the length of the packets that are carried over them, and what comes of it. The packet
// is taken by calls of all its bytes, of a few and of one, and then the input ends, a byte comes or
// the read fails; or a write fails or takes nothing before the whole packet is taken.
const STREAMS: [(usize, usize, usize, Full, Reply, Outcome, usize, u32, u32); 16] = [
    (
        16,
        16,
        16,
        Full::Fails,
        Reply::End,
        Outcome::Ended,
        16,
        1,
        1,
    ),
    (16, 3, 16, Full::Fails, Reply::End, Outcome::Ended, 16, 6, 1),
    (
        16,
        1,
        16,
        Full::Fails,
        Reply::End,
        Outcome::Ended,
        16,
        16,
        1,
    ),
    (16, 16, 7, Full::Fails, Reply::End, Outcome::Failed, 7, 2, 0),
    (
        16,
        16,
        5,
        Full::TakesNothing,
        Reply::End,
        Outcome::Failed,
        5,
        2,
        0,
    ),
    (
        16,
        16,
        16,
        Full::Fails,
        Reply::Byte(0x4e),
        Outcome::Failed,
        16,
        1,
        1,
    ),
    (
        16,
        16,
        16,
        Full::Fails,
        Reply::Byte(0),
        Outcome::Failed,
        16,
        1,
        1,
    ),
    (
        16,
        16,
        16,
        Full::Fails,
        Reply::Fails,
        Outcome::Failed,
        16,
        1,
        1,
    ),
    (
        32,
        32,
        32,
        Full::Fails,
        Reply::End,
        Outcome::Ended,
        32,
        1,
        1,
    ),
    (32, 5, 32, Full::Fails, Reply::End, Outcome::Ended, 32, 7, 1),
    (
        32,
        1,
        32,
        Full::Fails,
        Reply::End,
        Outcome::Ended,
        32,
        32,
        1,
    ),
    (
        32,
        32,
        23,
        Full::Fails,
        Reply::End,
        Outcome::Failed,
        23,
        2,
        0,
    ),
    (
        32,
        32,
        16,
        Full::TakesNothing,
        Reply::End,
        Outcome::Failed,
        16,
        2,
        0,
    ),
    (
        32,
        32,
        32,
        Full::Fails,
        Reply::Byte(0x4e),
        Outcome::Failed,
        32,
        1,
        1,
    ),
    (
        32,
        32,
        32,
        Full::Fails,
        Reply::Byte(0),
        Outcome::Failed,
        32,
        1,
        1,
    ),
    (
        32,
        32,
        32,
        Full::Fails,
        Reply::Fails,
        Outcome::Failed,
        32,
        1,
        1,
    ),
];

#[test]
fn outcomes(rt: HostRuntime) -> Result<(), Fail> {
    for (length, at_once, room, full, reply, outcome, written, writes, reads) in STREAMS {
        let expected = Carried::new(outcome, written, writes, reads);
        for packet in &PACKETS {
            if packet.as_slice().len() == length {
                let mut wire = Wire::new(rt.alloc(), at_once, room, full, reply)?;
                assert_carried(&rt, &mut wire, packet, &expected);
            }
        }
    }
    Ok(())
}

// A stream that fails after `room` bytes, taken one by one, was written these and no others, and
// isn't read.
fn assert_stops_at(
    rt: &(impl Abort + AllocGlobal),
    packet: &Packet,
    room: u32,
    full: Full,
) -> Result<(), AllocError> {
    let mut wire = Wire::new(rt.alloc(), 1, room as usize, full, Reply::End)?;
    let expected = Carried::new(Outcome::Failed, room as usize, room.saturating_add(1), 0);
    assert_carried(rt, &mut wire, packet, &expected);
    Ok(())
}

#[test]
fn each_place(rt: HostRuntime) -> Result<(), Fail> {
    for packet in &PACKETS {
        for room in 0..32u32 {
            if (room as usize) < packet.as_slice().len() {
                assert_stops_at(&rt, packet, room, Full::Fails)?;
                assert_stops_at(&rt, packet, room, Full::TakesNothing)?;
            }
        }
    }
    Ok(())
}

// The kinds of calls of a stream.
#[derive(Clone, Copy, Debug, PartialEq, Eq)]
enum Kind {
    Write,
    Read,
}

// A stream whose call with this number, from 0, is interrupted, and that works in all others. It
// lists its calls.
#[derive(Drop)]
struct Interrupted {
    at: usize,
    calls: Vec<Kind>,
}

impl Interrupted {
    fn new(alloc: Global, at: usize) -> Interrupted {
        Interrupted {
            at,
            calls: Vec::new(alloc),
        }
    }

    // Lists a call, which fails where it is the interrupted one.
    fn call(&mut self, kind: Kind) -> io::Result<()> {
        let at = self.calls.len();
        self.calls.push(kind)?;
        if at == self.at {
            return Err(io::Error::from(ErrorKind::Interrupted));
        }
        Ok(())
    }
}

impl WriteCalls for Interrupted {
    ghost use Rattle.std.specs.Prelude.{⊤};

    ghost wrote = { λ _ _ _ _. ⊤ };

    fn write_once(&mut self, bytes: &[u8]) -> io::Result<usize> {
        self.call(Kind::Write)?;
        Ok(bytes.len().min(8))
    }
}

impl ReadCalls for Interrupted {
    ghost use Rattle.std.specs.Prelude.{⊤};

    ghost gave = { λ _ _ _ _. ⊤ };

    fn read_once(&mut self, _buffer: &mut [u8]) -> io::Result<usize> {
        self.call(Kind::Read)?;
        Ok(0)
    }
}

// An interrupted call has failed, and is the last of those that carry the packet.
fn assert_stops(rt: &(impl Abort + AllocGlobal), packet: &Packet, calls: &[Kind]) {
    for at in 0..calls.len() {
        let mut stream = Interrupted::new(rt.alloc(), at);
        assert_eq!(rt; carry(&mut stream, *packet), Outcome::Failed);
        assert_eq!(rt; calls.get(..at + 1), Some(stream.calls.as_slice()));
    }
    let mut stream = Interrupted::new(rt.alloc(), calls.len());
    assert_eq!(rt; carry(&mut stream, *packet), Outcome::Ended);
    assert_eq!(rt; stream.calls.as_slice(), calls);
}

#[test]
fn interrupted_calls(rt: HostRuntime) {
    let calls = [
        Kind::Write,
        Kind::Write,
        Kind::Write,
        Kind::Write,
        Kind::Read,
    ];
    assert_stops(&rt, &PACKETS[0], &calls[2..]);
    assert_stops(&rt, &PACKETS[2], &calls);
}

// What was written over the stream, by how many writes, and how often the seen byte was taken; it
// isn't read.
fn assert_finished(
    rt: &impl Abort,
    wire: &mut Wire,
    verdict: Verdict,
    written: &[u8],
    writes: usize,
    takes: usize,
) {
    finish(wire, verdict);
    assert_bytes(rt, wire.held.as_slice(), written);
    assert_same(rt, wire.writes as usize, writes);
    assert_same(rt, wire.reads, 0);
    assert_same(rt, wire.takes as usize, takes);
}

// The byte is written, or one write is tried for it, exactly where the request isn't settled. The
// byte that was seen is taken, unless that write failed.
#[test]
fn verdicts(rt: HostRuntime) -> Result<(), Fail> {
    for (verdict, byte) in [
        (Verdict::Refused, b"".as_slice()),
        (Verdict::Unwaited, b"".as_slice()),
        (Verdict::Carried(Outcome::Ended), b"".as_slice()),
        (Verdict::Carried(Outcome::Failed), b"\x45".as_slice()),
        (Verdict::NoConnect, b"\x45".as_slice()),
    ] {
        let mut wire = Wire::new(rt.alloc(), 16, 16, Full::Fails, Reply::End)?;
        assert_finished(&rt, &mut wire, verdict, byte, byte.len(), 1);
        let mut closed = Wire::new(rt.alloc(), 16, 0, Full::Fails, Reply::End)?;
        assert_finished(&rt, &mut closed, verdict, b"", byte.len(), 1 - byte.len());
    }
    Ok(())
}
