//! Connections that aren't served: each byte that their clients get, how they end, and the lines of
//! the log.
use crate::tests::arriving::arrive;
use crate::tests::host::{ANY_PORT, TestHost};
use crate::tests::log_lines::{expect_line, expect_no_line};
use crate::{
    Capacity, ClientStream, Connection, ConnectionContext, ConnectionLimit, Consoles, Deadline,
    DrainSignal, PendingId, Serves, UnservedEnd, end, refuse_accepted, wait_readable,
};
use std::io::{ErrorKind, Read, Write};
use std::net::{Shutdown, TcpListener, TcpStream};
use std::test::Fail;
use std::time::Duration;
use telemetry::{Level, Log};

// Packets of the PostgreSQL manual, "Message Formats": a StartupMessage, a CancelRequest, an
// SSLRequest, and CancelRequests of lengths that it doesn't have.
const STARTUP: &[u8] = b"\0\0\0\x12\0\x03\0\0user\0ann\0\0";

const CANCEL: &[u8] = b"\0\0\0\x10\x04\xd2\x16\x2e\0\0\0\x03\0\x0f\x42\x43";

const SSL: &[u8] = b"\0\0\0\x08\x04\xd2\x16\x2f";

const CANCEL_15: &[u8] = b"\0\0\0\x0f\x04\xd2\x16\x2e\0\0\0\x03\0\x0f\x42";

const CANCEL_17: &[u8] = b"\0\0\0\x11\x04\xd2\x16\x2e\0\0\0\x03\0\x0f\x42\x43\0";

// Parts of them: of 7 bytes, of 15, and half a StartupMessage.
const PART: &[u8] = b"\0\0\0\x10\x04\xd2\x16";

const NEARLY: &[u8] = b"\0\0\0\x10\x04\xd2\x16\x2e\0\0\0\x03\0\x0f\x42";

const HALF: &[u8] = b"\0\0\0\x12\0\x03\0\0user";

const INCOMPLETE: [&[u8]; 4] = [b"", PART, NEARLY, HALF];

// The errors of a client for which there is no room, and of one in a drain.
const TOO_MANY: &[u8] = b"E\0\0\0\x2cSFATAL\0VFATAL\0C53300\0Mtoo many clients\0\0";

const SHUTDOWN: &[u8] = b"E\0\0\0\x4fSFATAL\0VFATAL\0C57P01\0\
    Mterminating connection due to administrator command\0\0";

// The fields of the log's line that tell the first of these errors.
const TOLD: &str = "code=53300 message=\"too many clients\" ";

// A time limit that isn't reached, in milliseconds, and one that is.
const LONG: u64 = 10_000;

const SHORT: u64 = 50;

// How a connection ends for its client.
#[derive(Clone, Copy, Debug, PartialEq, Eq)]
enum End {
    // Cleanly.
    Clean,
    // By a reset.
    Reset,
}

// A connection that node 4 has admitted.
#[derive(Drop)]
struct Pending {
    connection: Connection,
    limit: ConnectionLimit,
    id: PendingId,
    log: Log,
}

// Connects to this listener and sends these bytes. Returns both sides of the connection, once the
// bytes have come.
fn connect<R: TestHost>(
    rt: &R,
    listener: &TcpListener,
    sent: &[u8],
) -> Result<(Connection, TcpStream), Fail> {
    let mut peer = TcpStream::connect(rt, ("127.0.0.1", listener.local_addr()?.port()))?;
    let (socket, _address) = listener.accept()?;
    let connection = Connection::new(socket);
    if !sent.is_empty() {
        peer.write_all(sent)?;
        await_input(rt, &connection);
    }
    Ok((connection, peer))
}

fn await_input<R: TestHost>(rt: &R, connection: &Connection) {
    assert!(rt; wait_readable(connection.descriptor(), Duration::from_millis(LONG)));
}

impl Pending {
    // One at this listener, whose client has sent these bytes, and the client's side. Its group can
    // drain if there is a signal.
    fn new<R: TestHost>(
        rt: &R,
        listener: &TcpListener,
        sent: &[u8],
        drain: Option<DrainSignal>,
    ) -> Result<(Pending, TcpStream), Fail> {
        let (connection, peer) = connect(rt, listener, sent)?;
        let capacity = Capacity {
            connections: 1,
            pending: 1,
            kept: 0,
        };
        let limit = ConnectionLimit::with_drain(rt.alloc(), capacity, drain);
        let id = limit
            .admit(rt, connection.descriptor())
            .ok_or("not admitted")?;
        let log = Log::new(rt.alloc(), Level::Info);
        let pending = Pending {
            connection,
            limit,
            id,
            log,
        };
        Ok((pending, peer))
    }

    // Reads its first packets by at most this many reads and for at most this many milliseconds, and
    // closes it. Returns the log.
    fn serve<R: TestHost>(
        self,
        rt: &R,
        serves: Serves,
        reads: usize,
        millis: u64,
    ) -> Result<Log, Fail> {
        let Pending {
            connection,
            limit,
            id,
            log,
        } = self;
        let consoles = Consoles::new();
        let context = ConnectionContext {
            limit: &limit,
            pending: id,
            consoles: &consoles,
            serves,
            deadline: Deadline::after(rt, millis)?,
            log: &log,
            node: 4,
        };
        let mut client = ClientStream::new(rt, rt.alloc(), &connection, context);
        let _ = arrive(rt, &mut client, reads)?;
        end(rt, &connection, &mut client);
        drop(client);
        drop(connection);
        Ok(log)
    }
}

// Reads to the end of the connection.
fn read_end(peer: &mut TcpStream, got: &mut Vec<u8>) -> Result<End, Fail> {
    let mut buffer = [0; 256];
    for _ in 0..256 {
        match peer.read(&mut buffer) {
            Ok(0) => return Ok(End::Clean),
            Ok(count) => got.extend_from_slice(buffer.get(..count).unwrap_or(&[]))?,
            Err(error) if error.kind() == ErrorKind::ConnectionReset => return Ok(End::Reset),
            Err(error) => return Err(Fail::from(error)),
        }
    }
    Err(Fail::from("no end"))
}

// A client gets these bytes, and its connection ends so.
fn expect_end<R: TestHost>(
    rt: &R,
    peer: &mut TcpStream,
    expected: &[u8],
    ended: End,
) -> Result<(), Fail> {
    let mut got = Vec::new(rt.alloc());
    let found = read_end(peer, &mut got)?;
    assert_eq!(rt; got.as_slice(), expected);
    assert_eq!(rt; found, ended);
    Ok(())
}

// The log has the line of this client, which was refused, with these fields, and no other line.
fn expect_refused<R: TestHost>(
    rt: &R,
    log: &Log,
    port: u16,
    told: &str,
    reason: &str,
) -> Result<(), Fail> {
    let line = format!(in rt.alloc();
        "node=4 warn client_refused client=127.0.0.1:{port} {told}reason={reason}"
    )?;
    expect_line(rt, log, line.as_str())?;
    expect_no_line(rt, log)
}

// A client sends this, and ends its input.
fn expect_clean<R: TestHost>(
    rt: &R,
    listener: &TcpListener,
    serves: Serves,
    sent: &[u8],
) -> Result<(), Fail> {
    let (left, mut peer) = Pending::new(rt, listener, sent, None)?;
    peer.shutdown(Shutdown::Write)?;
    await_input(rt, &left.connection);
    let log = left.serve(rt, serves, sent.len() + 1, LONG)?;
    expect_end(rt, &mut peer, b"", End::Clean)?;
    expect_no_line(rt, &log)
}

// Its first packet is incomplete.
#[test]
fn a_client_ends_its_input(rt: HostRuntime) -> Result<(), Fail> {
    let listener = TcpListener::bind(&rt, ANY_PORT)?;
    for sent in INCOMPLETE {
        expect_clean(&rt, &listener, Serves::All, sent)?;
        expect_clean(&rt, &listener, Serves::Cancels, sent)?;
    }
    Ok(())
}

// The client waits for the end.
fn expect_no_answer<R: TestHost>(
    rt: &R,
    listener: &TcpListener,
    serves: Serves,
    sent: &[u8],
) -> Result<(), Fail> {
    let (refused, mut peer) = Pending::new(rt, listener, sent, None)?;
    let log = refused.serve(rt, serves, sent.len(), LONG)?;
    expect_end(rt, &mut peer, b"", End::Clean)?;
    expect_no_line(rt, &log)
}

#[test]
fn cancel_requests_of_other_lengths(rt: HostRuntime) -> Result<(), Fail> {
    let listener = TcpListener::bind(&rt, ANY_PORT)?;
    for sent in [CANCEL_15, CANCEL_17] {
        for serves in [Serves::All, Serves::Cancels] {
            expect_no_answer(&rt, &listener, serves, sent)?;
            expect_clean(&rt, &listener, serves, sent)?;
        }
    }
    Ok(())
}

#[test]
fn a_late_client_is_reset(rt: HostRuntime) -> Result<(), Fail> {
    let listener = TcpListener::bind(&rt, ANY_PORT)?;
    for sent in INCOMPLETE {
        let (late, mut peer) = Pending::new(&rt, &listener, sent, None)?;
        let log = late.serve(&rt, Serves::All, STARTUP.len(), SHORT)?;
        let port = peer.local_addr()?.port();
        expect_end(&rt, &mut peer, b"", End::Reset)?;
        expect_refused(&rt, &log, port, "", "late")?;
    }
    Ok(())
}

// Serves a connection that is evicted before its first packets came, or before they were read.
fn serve_evicted<R: TestHost>(
    rt: &R,
    listener: &TcpListener,
    sent: &[u8],
) -> Result<(Log, TcpStream), Fail> {
    let (evicted, peer) = Pending::new(rt, listener, sent, None)?;
    evicted.limit.evict_pending(rt);
    let log = evicted.serve(rt, Serves::All, STARTUP.len(), LONG)?;
    Ok((log, peer))
}

#[test]
fn an_evicted_client_is_reset(rt: HostRuntime) -> Result<(), Fail> {
    let listener = TcpListener::bind(&rt, ANY_PORT)?;
    for sent in INCOMPLETE {
        let (log, mut peer) = serve_evicted(&rt, &listener, sent)?;
        let port = peer.local_addr()?.port();
        expect_end(&rt, &mut peer, b"", End::Reset)?;
        expect_refused(&rt, &log, port, "", "evicted")?;
    }
    Ok(())
}

// A StartupMessage that has come gets an error. A cancel request isn't served.
#[test]
fn an_evicted_client_has_sent_its_packet(rt: HostRuntime) -> Result<(), Fail> {
    let listener = TcpListener::bind(&rt, ANY_PORT)?;
    let (log, mut peer) = serve_evicted(&rt, &listener, STARTUP)?;
    let port = peer.local_addr()?.port();
    expect_end(&rt, &mut peer, TOO_MANY, End::Clean)?;
    expect_refused(&rt, &log, port, TOLD, "evicted")?;
    let (log, mut peer) = serve_evicted(&rt, &listener, CANCEL)?;
    expect_end(&rt, &mut peer, b"", End::Reset)?;
    expect_no_line(&rt, &log)
}

// Only cancel requests are served, and a client asks for a session, or for nothing in time.
fn expect_shortage<R: TestHost>(
    rt: &R,
    listener: &TcpListener,
    sent: &[u8],
    answer: &[u8],
    told: &str,
) -> Result<(), Fail> {
    let (refused, mut peer) = Pending::new(rt, listener, sent, None)?;
    let log = refused.serve(rt, Serves::Cancels, STARTUP.len(), SHORT)?;
    let port = peer.local_addr()?.port();
    let ended = if answer.is_empty() {
        End::Reset
    } else {
        End::Clean
    };
    expect_end(rt, &mut peer, answer, ended)?;
    expect_refused(rt, &log, port, told, "shortage")
}

#[test]
fn a_client_is_refused_in_a_shortage(rt: HostRuntime) -> Result<(), Fail> {
    let listener = TcpListener::bind(&rt, ANY_PORT)?;
    expect_shortage(&rt, &listener, STARTUP, TOO_MANY, TOLD)?;
    for sent in INCOMPLETE {
        expect_shortage(&rt, &listener, sent, b"", "")?;
    }
    Ok(())
}

// There is no memory to read its first packets, which are a cancel request.
#[test]
fn a_connection_of_which_nothing_is_read(rt: HostRuntime) -> Result<(), Fail> {
    let listener = TcpListener::bind(&rt, ANY_PORT)?;
    for sent in [b"", CANCEL] {
        let (unread, mut peer) = Pending::new(&rt, &listener, sent, None)?;
        let log = unread.serve(&rt, Serves::All, 0, LONG)?;
        let port = peer.local_addr()?.port();
        expect_end(&rt, &mut peer, b"", End::Reset)?;
        expect_refused(&rt, &log, port, "", "shortage")?;
    }
    Ok(())
}

// A client that closes its connection, or resets it, has no line.
#[test]
fn a_client_that_leaves_has_no_line(rt: HostRuntime) -> Result<(), Fail> {
    let listener = TcpListener::bind(&rt, ANY_PORT)?;
    for serves in [Serves::All, Serves::Cancels] {
        let (closed, peer) = Pending::new(&rt, &listener, PART, None)?;
        drop(peer);
        let log = closed.serve(&rt, serves, STARTUP.len(), LONG)?;
        expect_no_line(&rt, &log)?;
        let (reset, peer) = Pending::new(&rt, &listener, PART, None)?;
        let mut socket = reset.connection.socket();
        socket.write_all(b"N")?;
        drop(peer);
        let log = reset.serve(&rt, serves, STARTUP.len(), LONG)?;
        expect_no_line(&rt, &log)?;
    }
    Ok(())
}

// The group drains before a client's first packets came, or before they were read.
fn expect_drained<R: TestHost>(
    rt: &R,
    listener: &TcpListener,
    sent: &[u8],
    answer: &[u8],
    ended: End,
) -> Result<(), Fail> {
    let signal = DrainSignal::new(rt)?;
    let (drained, mut peer) = Pending::new(rt, listener, sent, Some(signal))?;
    drained.limit.drain_signal().ok_or("no signal")?.send();
    drained.limit.evict_pending(rt);
    let log = drained.serve(rt, Serves::All, STARTUP.len(), LONG)?;
    expect_end(rt, &mut peer, answer, ended)?;
    expect_no_line(rt, &log)
}

#[test]
fn a_client_in_a_drain_has_no_line(rt: HostRuntime) -> Result<(), Fail> {
    let listener = TcpListener::bind(&rt, ANY_PORT)?;
    for sent in INCOMPLETE {
        expect_drained(&rt, &listener, sent, b"", End::Reset)?;
    }
    expect_drained(&rt, &listener, CANCEL, b"", End::Reset)?;
    expect_drained(&rt, &listener, STARTUP, SHUTDOWN, End::Clean)
}

// A connection that was accepted isn't served, and its client has sent this.
fn expect_accepted<R: TestHost>(
    rt: &R,
    listener: &TcpListener,
    sent: &[u8],
    answer: &[u8],
    ended: End,
) -> Result<(), Fail> {
    let (connection, mut peer) = connect(rt, listener, sent)?;
    refuse_accepted(rt.alloc(), connection.socket());
    drop(connection);
    expect_end(rt, &mut peer, answer, ended)
}

#[test]
fn an_accepted_connection_is_refused(rt: HostRuntime) -> Result<(), Fail> {
    let listener = TcpListener::bind(&rt, ANY_PORT)?;
    for sent in INCOMPLETE {
        expect_accepted(&rt, &listener, sent, b"", End::Reset)?;
    }
    for sent in [CANCEL, CANCEL_17, SSL] {
        expect_accepted(&rt, &listener, sent, b"", End::Reset)?;
    }
    expect_accepted(&rt, &listener, STARTUP, TOO_MANY, End::Clean)
}

// There is no memory for the error.
#[test]
fn an_error_without_memory_is_a_reset(rt: HostRuntime) -> Result<(), Fail> {
    let listener = TcpListener::bind(&rt, ANY_PORT)?;
    for refused in [UnservedEnd::TooMany, UnservedEnd::Shutdown] {
        let (connection, mut peer) = connect(&rt, &listener, STARTUP)?;
        refused.apply(connection.socket(), None);
        drop(connection);
        expect_end(&rt, &mut peer, b"", End::Reset)?;
    }
    Ok(())
}
