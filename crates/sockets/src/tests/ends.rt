//! The lines of the log about start-up parameters that have no effect, and how cancel requests
//! end.
use crate::tests::arriving::arrive;
use crate::tests::host::{ANY_PORT, TestHost};
use crate::tests::log_lines::{expect_line, expect_no_line};
use crate::{
    CancelEnd, Capacity, ClientStream, Connection, ConnectionContext, ConnectionLimit, Consoles,
    Deadline, Serves, ToldNames,
};
use peer_forward::{Outcome, Requester, Verdict, finish};
use startup::{ErrorCode, Reports};
use std::io::Write;
use std::net::{TcpListener, TcpStream};
use std::test::Fail;
use telemetry::{Level, Log};

// A StartupMessage with two parameters that have no effect, and a CancelRequest.
const STARTUP: &[u8] = b"\0\0\0\x31\0\x03\0\0user\0ann\0search_path\0app\0options\0-c a=b\0\0";

const CANCEL: &[u8] = b"\0\0\0\x10\x04\xd2\x16\x2e\0\0\0\x03\0\x0f\x42\x43";

// The StartupMessage behind a request for encryption.
const NEGOTIATED: &[u8] = b"\0\0\0\x08\x04\xd2\x16\x2f\
    \0\0\0\x31\0\x03\0\0user\0ann\0search_path\0app\0options\0-c a=b\0\0";

// AuthenticationOk, and an ErrorResponse.
const AUTHENTICATED: &[u8] = b"R\0\0\0\x08\0\0\0\0";

const REFUSED: &[u8] = b"E\0\0\0\x2cSFATAL\0VFATAL\0C53300\0Mtoo many clients\0\0";

// Returns a connection at this listener whose client has sent a packet, and the client's side.
fn sent<R: TestHost>(
    rt: &R,
    listener: &TcpListener,
    packet: &[u8],
) -> Result<(Connection, TcpStream), Fail> {
    let mut peer = TcpStream::connect(rt, ("127.0.0.1", listener.local_addr()?.port()))?;
    peer.write_all(packet)?;
    let (socket, _address) = listener.accept()?;
    Ok((Connection::new(socket), peer))
}

// What a client's packet is answered with.
#[derive(Clone, Copy)]
enum Answer<'a> {
    // With these bytes.
    Bytes(&'a [u8]),
    // With what became of its cancel request.
    Verdict(Verdict),
    // With nothing: it is given up.
    None,
}

// Reads the client's packet at node 4, and answers it so. Returns whether its cancel request is
// given up.
fn serve<R: TestHost>(
    rt: &R,
    connection: &Connection,
    log: &Log,
    packet: &[u8],
    answer: Answer<'_>,
) -> Result<bool, Fail> {
    let capacity = Capacity {
        connections: 1,
        pending: 1,
        kept: 0,
    };
    let limit = ConnectionLimit::new(rt.alloc(), capacity);
    let pending = limit
        .admit(rt, connection.descriptor())
        .ok_or("not admitted")?;
    let consoles = Consoles::new();
    let context = ConnectionContext {
        limit: &limit,
        pending,
        consoles: &consoles,
        serves: Serves::All,
        deadline: Deadline::after(rt, 10_000)?,
        log,
        node: 4,
    };
    let mut client = ClientStream::new(rt, rt.alloc(), connection, context);
    assert!(rt; arrive(rt, &mut client, packet.len())?);
    match answer {
        Answer::Bytes(bytes) => client.write_all(bytes)?,
        Answer::Verdict(verdict) => {
            finish(&mut client, verdict);
            let is_told = CancelEnd::of(Some(verdict)) == CancelEnd::Failed;
            assert_eq!(rt; client.wrote_last(), is_told);
        }
        Answer::None => client.give_up(),
    }
    Ok(client.is_given_up())
}

// The log has the parameters once the client is logged in, and once.
#[test]
fn dropped_parameters_are_in_the_log(rt: HostRuntime) -> Result<(), Fail> {
    let listener = TcpListener::bind(&rt, ANY_PORT)?;
    for packet in [STARTUP, NEGOTIATED] {
        let (connection, peer) = sent(&rt, &listener, packet)?;
        let log = Log::new(rt.alloc(), Level::Notice);
        serve(&rt, &connection, &log, packet, Answer::Bytes(AUTHENTICATED))?;
        expect_no_line(&rt, &log)?;
        let (told, reports) = (ToldNames::new(rt.alloc()), Reports::new(rt.alloc()));
        let names = told.untold(&rt, STARTUP, &reports)?;
        assert_eq!(&rt; names.as_slice(), b"search_path,options".as_slice());
        connection.write_dropped(&rt, &log, 4, &told, &reports);
        connection.write_dropped(&rt, &log, 4, &told, &reports);
        // The log has had these names.
        let names = told.untold(&rt, STARTUP, &reports)?;
        assert!(&rt; names.is_empty());
        let port = peer.local_addr()?.port();
        let line = format!(in rt.alloc();
            "node=4 notice parameters_dropped client=127.0.0.1:{port} parameters=search_path,options"
        )?;
        expect_line(&rt, &log, line.as_str())?;
        expect_no_line(&rt, &log)?;
    }
    Ok(())
}

// A client that is refused gets nothing in any case.
#[test]
fn a_refused_client_drops_nothing(rt: HostRuntime) -> Result<(), Fail> {
    let listener = TcpListener::bind(&rt, ANY_PORT)?;
    let (connection, _peer) = sent(&rt, &listener, STARTUP)?;
    let log = Log::new(rt.alloc(), Level::Notice);
    serve(&rt, &connection, &log, STARTUP, Answer::Bytes(REFUSED))?;
    connection.write_refused(&rt, &log, 4, ErrorCode::TooManyConnections);
    let line = log.next(&rt).ok_or("no line")?;
    assert!(&rt; line.as_str().contains(" client_refused "));
    expect_no_line(&rt, &log)
}

// What becomes of cancel requests, and how they have ended then.
const ENDS: [(Verdict, CancelEnd); 5] = [
    (Verdict::Refused, CancelEnd::NothingSent),
    (Verdict::Unwaited, CancelEnd::NothingSent),
    (Verdict::Carried(Outcome::Ended), CancelEnd::Settled),
    (Verdict::Carried(Outcome::Failed), CancelEnd::Failed),
    (Verdict::NoConnect, CancelEnd::Failed),
];

// A cancel request that is answered so is received, and given up or not.
fn expect_served<R: TestHost>(
    rt: &R,
    listener: &TcpListener,
    answer: Answer<'_>,
    is_given_up: bool,
) -> Result<(), Fail> {
    let (connection, _peer) = sent(rt, listener, CANCEL)?;
    let log = Log::new(rt.alloc(), Level::Info);
    assert_eq!(rt; serve(rt, &connection, &log, CANCEL, answer)?, is_given_up);
    assert!(rt; connection.cancel_millis(rt).is_some());
    expect_no_line(rt, &log)
}

#[test]
fn cancel_requests_end(rt: HostRuntime) -> Result<(), Fail> {
    let listener = TcpListener::bind(&rt, ANY_PORT)?;
    for (verdict, expected) in ENDS {
        assert_eq!(&rt; CancelEnd::of(Some(verdict)), expected);
        expect_served(&rt, &listener, Answer::Verdict(verdict), false)?;
    }
    let (session, _peer) = sent(&rt, &listener, STARTUP)?;
    let log = Log::new(rt.alloc(), Level::Info);
    let answer = Answer::Bytes(AUTHENTICATED);
    assert!(&rt; !serve(&rt, &session, &log, STARTUP, answer)?);
    assert_eq!(&rt; session.cancel_millis(&rt), None);
    Ok(())
}

// One for which no seat is free.
#[test]
fn a_cancel_request_is_given_up(rt: HostRuntime) -> Result<(), Fail> {
    let listener = TcpListener::bind(&rt, ANY_PORT)?;
    expect_served(&rt, &listener, Answer::None, true)?;
    assert_eq!(&rt; CancelEnd::of(None), CancelEnd::NotServed);
    Ok(())
}
