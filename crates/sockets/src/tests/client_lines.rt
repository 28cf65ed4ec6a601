//! The lines of the log about clients.
use crate::tests::host::{ANY_PORT, TestHost};
use crate::tests::log_lines::{expect_line, expect_no_line};
use crate::{
    Capacity, ClientStream, Connection, ConnectionContext, ConnectionLimit, Consoles, Deadline,
    Serves,
};
use peer_forward::Arrival;
use startup::{ErrorCode, StartupError};
use std::io::Write;
use std::net::{TcpListener, TcpStream};
use std::test::Fail;
use telemetry::{Level, Log};

// AuthenticationOk, and an ErrorResponse.
const AUTHENTICATED: &[u8] = b"R\0\0\0\x08\0\0\0\0";

const REFUSED: &[u8] = b"E\0\0\0\x2cSFATAL\0VFATAL\0C53300\0Mtoo many clients\0\0";

// The refusals of first packets, with the code and the message that the client gets, if it gets
// any (docs/OPERATING.md, "Errors").
const REFUSALS: [(StartupError, Option<(&str, &str)>); 9] = [
    (
        StartupError::TooShort,
        Some(("08P01", "\"protocol violation\"")),
    ),
    (
        StartupError::TooLong,
        Some(("08P01", "\"protocol violation\"")),
    ),
    (
        StartupError::BadVersion,
        Some(("0A000", "\"not in this profile\"")),
    ),
    (
        StartupError::BadText,
        Some(("08P01", "\"protocol violation\"")),
    ),
    (StartupError::NoUser, Some(("28000", "\"no user name\""))),
    (StartupError::BadCancelLength, None),
    (
        StartupError::Repeated,
        Some(("08P01", "\"protocol violation\"")),
    ),
    (StartupError::Truncated, None),
    (StartupError::Memory, Some(("53200", "\"out of memory\""))),
];

// What happens at a client of node 4.
#[derive(Clone, Copy)]
enum Step<'a> {
    // These bytes are written to it.
    Write(&'a [u8]),
    // Its first packets are refused.
    Refuse(StartupError),
}

// Takes these steps with a client of node 4. Expects a line of the log that it was refused with this
// code and message, or none.
fn expect_refused<R: TestHost>(
    rt: &R,
    listener: &TcpListener,
    steps: &[Step<'_>],
    told: Option<(&str, &str)>,
) -> Result<(), Fail> {
    let peer = TcpStream::connect(rt, ("127.0.0.1", listener.local_addr()?.port()))?;
    let (socket, _address) = listener.accept()?;
    let connection = Connection::new(socket);
    let log = Log::new(rt.alloc(), Level::Info);
    take(rt, &connection, &log, steps)?;
    if let Some((code, message)) = told {
        let port = peer.local_addr()?.port();
        let line = format!(in rt.alloc();
            "node=4 warn client_refused client=127.0.0.1:{port} code={code} message={message}"
        )?;
        expect_line(rt, &log, line.as_str())?;
    }
    expect_no_line(rt, &log)
}

fn take<R: TestHost>(
    rt: &R,
    connection: &Connection,
    log: &Log,
    steps: &[Step<'_>],
) -> Result<(), Fail> {
    let capacity = Capacity {
        connections: 1,
        pending: 1,
        kept: 0,
    };
    let limit = ConnectionLimit::new(rt.alloc(), capacity);
    let pending = limit
        .admit(rt, connection.descriptor())
        .ok_or("not admitted")?;
    let consoles = Consoles::new();
    let context = ConnectionContext {
        limit: &limit,
        pending,
        consoles: &consoles,
        serves: Serves::All,
        deadline: Deadline::after(rt, 1_000)?,
        log,
        node: 4,
    };
    let mut client = ClientStream::new(rt, rt.alloc(), connection, context);
    for step in steps {
        match *step {
            Step::Write(bytes) => client.write_all(bytes)?,
            Step::Refuse(error) => {
                assert!(rt; client.refuse(error));
            }
        }
    }
    Ok(())
}

// An error in place of a login is logged, also after the refusal of encryption. An error after the
// login isn't.
#[test]
fn a_refused_client_is_in_the_log(rt: HostRuntime) -> Result<(), Fail> {
    let listener = TcpListener::bind(&rt, ANY_PORT)?;
    for (error, told) in REFUSALS {
        expect_refused(&rt, &listener, &[Step::Refuse(error)], told)?;
        let steps = [Step::Write(b"N"), Step::Refuse(error)];
        expect_refused(&rt, &listener, &steps, told)?;
    }
    let steps = [Step::Write(AUTHENTICATED), Step::Write(REFUSED)];
    expect_refused(&rt, &listener, &steps, None)
}

// One that is refused once it is admitted.
#[test]
fn an_admitted_client_is_refused(rt: HostRuntime) -> Result<(), Fail> {
    let listener = TcpListener::bind(&rt, ANY_PORT)?;
    let peer = TcpStream::connect(&rt, ("127.0.0.1", listener.local_addr()?.port()))?;
    let (socket, _address) = listener.accept()?;
    let connection = Connection::new(socket);
    let log = Log::new(rt.alloc(), Level::Warn);
    let port = peer.local_addr()?.port();
    // The address is known though the client has left.
    drop(peer);
    connection.write_refused(&rt, &log, 4, ErrorCode::InvalidCatalogName);
    let line = format!(in rt.alloc();
        "node=4 warn client_refused client=127.0.0.1:{port} code=3D000 \
        message=\"no such database\""
    )?;
    expect_line(&rt, &log, line.as_str())?;
    expect_no_line(&rt, &log)
}
