//! A group whose input ends: it stops accepting connections, and its sessions end between
//! transactions.
use crate::client::Client;
use crate::console_client::Console;
use crate::group::{ANY_PORT, await_listening, free_ports, options, start_server};
use crate::host::TestHost;
use crate::messages::{BEGIN, COMMIT, HI, IDLE, OPEN, joined};
use crate::settings::group_before;
use group_server::{Listening, ServeOptions};
use ini_config::Group;
use startup::Reports;
use std::alloc::{AllocError, Global};
use std::net::{TcpListener, TcpStream};
use std::sync::Arc;
use std::sync::atomic::{AtomicBool, Ordering};
use std::test::Fail;
use std::thread;
use stub_server::Mode;

// The error of a session that ends, with PostgreSQL's message.
const SHUTDOWN: &[u8] = b"E\0\0\0\x4fSFATAL\0VFATAL\0C57P01\0\
    Mterminating connection due to administrator command\0\0";

// Parts of first packets (PostgreSQL manual, "Message Formats"): nothing, 7 and 15 bytes of a
// CancelRequest, half a StartupMessage.
const INCOMPLETE: [&[u8]; 4] = [
    b"",
    b"\0\0\0\x10\x04\xd2\x16",
    b"\0\0\0\x10\x04\xd2\x16\x2e\0\0\0\x03\0\x0f\x42",
    b"\0\0\0\x20\0\x03\0\0user\0ann",
];

const WAITING: &[&[&str]] = &[&["0", "shop", "link"], &["1", "shop", "waiting"]];

// A node in a group of its own that drains when this test drops its input.
#[derive(Drop)]
struct Draining {
    port: u16,
    front: u16,
    input: TcpStream,
    // Whether the group serves no longer, and could serve until then.
    is_over: Arc<AtomicBool, Global>,
}

impl Draining {
    // A node before a stand-in server at this listener.
    fn start<R: TestHost>(rt: &R, server: TcpListener) -> Result<Draining, Fail> {
        let server = start_server(rt, server, Mode::Honest)?;
        let ports = free_ports(rt, 2)?;
        if ports.len() < 2 {
            return Err(Fail::from("no ports"));
        }
        let (port, front) = (ports[0], ports[1]);
        let group = group_before(rt.alloc(), &[port], &[server], &[&[]])?;
        let listener = TcpListener::bind(rt, ANY_PORT)?;
        let input = TcpStream::connect(rt, ("127.0.0.1", listener.local_addr()?.port()))?;
        let (inside, _address) = listener.accept()?;
        let is_over = start_group(rt, group, front, inside)?;
        Ok(Draining {
            port,
            front,
            input,
            is_over,
        })
    }
}

// Serves the group in its own thread, until this input ends. It listens when this returns.
fn start_group<R: TestHost>(
    rt: &R,
    group: Group,
    front: u16,
    input: TcpStream,
) -> Result<Arc<AtomicBool, Global>, Fail> {
    let listens = Arc::new(rt.alloc(), AtomicBool::new(false))?;
    let is_over = Arc::new(rt.alloc(), AtomicBool::new(false))?;
    let (own, theirs, end) = (*rt, Arc::try_clone(&listens)?, Arc::try_clone(&is_over)?);
    thread::spawn(rt, move || serve(&own, group, front, input, &theirs, &end)).map_err(
        AllocError::from,
    )?;
    await_listening(rt, &listens)?;
    Ok(is_over)
}

// Serves a group until this input ends. Tells when it listens, and when it is over.
fn serve<R: TestHost>(
    rt: &R,
    group: Group,
    front: u16,
    mut input: TcpStream,
    listens: &AtomicBool,
    is_over: &AtomicBool,
) {
    let reports = Reports::new(rt.alloc());
    let options = ServeOptions {
        until_eof: true,
        ..options(front, None, &reports)
    };
    if let Ok(listening) = Listening::bind(rt, rt.alloc(), group, &options) {
        listens.store(true, Ordering::SeqCst);
        let ended = listening.serve(rt, rt.alloc(), &mut input);
        is_over.store(ended.is_ok(), Ordering::SeqCst);
    }
}

// The connection ends behind these messages and the error.
fn expect_shutdown<R: TestHost>(rt: &R, client: &mut Client, last: &[&[u8]]) -> Result<(), Fail> {
    let last = joined(rt.alloc(), last)?;
    let last = joined(rt.alloc(), &[last.as_slice(), SHUTDOWN])?;
    client.expect_end(rt, last.as_slice())
}

// Expects that connections to this port are refused.
fn expect_closed<R: TestHost>(rt: &R, port: u16) {
    assert!(rt; TcpStream::connect(rt, ("127.0.0.1", port)).is_err());
}

// An idle session ends at once, one in a transaction behind that, and then the group is over.
fn expect_drained<R: TestHost>(rt: &R, group: Draining) -> Result<(), Fail> {
    let Draining {
        port,
        front,
        input,
        is_over,
    } = group;
    let (mut idle, _) = Client::log_in(rt, port)?;
    idle.expect_answer(rt, "echo hi", &[HI, IDLE])?;
    let (mut open, _) = Client::log_in(rt, front)?;
    open.expect_answer(rt, "begin", &[BEGIN, OPEN])?;
    drop(input);
    expect_shutdown(rt, &mut idle, &[])?;
    expect_closed(rt, port);
    expect_closed(rt, front);
    open.expect_answer(rt, "echo hi", &[HI, OPEN])?;
    assert!(rt; !is_over.load(Ordering::SeqCst));
    open.ask(rt, "commit")?;
    expect_shutdown(rt, &mut open, &[COMMIT, IDLE])?;
    drop(idle);
    drop(open);
    await_listening(rt, &is_over)
}

#[test]
fn sessions_end_between_transactions(rt: HostRuntime) -> Result<(), Fail> {
    let server = TcpListener::bind(&rt, ANY_PORT)?;
    let group = Draining::start(&rt, server)?;
    expect_drained(&rt, group)
}

// A client that waits for the only link gets it for one transaction.
fn expect_waiting<R: TestHost>(rt: &R, group: Draining) -> Result<(), Fail> {
    let Draining { port, input, .. } = group;
    let (mut keeper, _) = Client::log_in(rt, port)?;
    keeper.expect_answer(rt, "begin", &[BEGIN, OPEN])?;
    let (mut client, _) = Client::log_in(rt, port)?;
    client.ask(rt, "echo hi")?;
    Console::log_in(rt, port)?.expect_clients(rt, WAITING)?;
    drop(input);
    keeper.ask(rt, "commit")?;
    expect_shutdown(rt, &mut keeper, &[COMMIT, IDLE])?;
    expect_shutdown(rt, &mut client, &[HI, IDLE])
}

#[test]
fn who_waits_is_served(rt: HostRuntime) -> Result<(), Fail> {
    let server = TcpListener::bind(&rt, ANY_PORT)?;
    let group = Draining::start(&rt, server)?;
    expect_waiting(&rt, group)
}

// Connections in their first packets are reset, and get no byte.
fn expect_unserved<R: TestHost>(rt: &R, group: Draining) -> Result<(), Fail> {
    let mut strangers = Vec::new(rt.alloc());
    for sent in INCOMPLETE {
        let mut stranger = Client::connect(rt, group.port)?;
        stranger.send(sent)?;
        strangers.push(stranger)?;
    }
    let (mut idle, _) = Client::log_in(rt, group.port)?;
    drop(group.input);
    expect_shutdown(rt, &mut idle, &[])?;
    for stranger in &mut strangers {
        stranger.expect_reset(rt)?;
    }
    Ok(())
}

#[test]
fn pending_connections_are_reset(rt: HostRuntime) -> Result<(), Fail> {
    let server = TcpListener::bind(&rt, ANY_PORT)?;
    let group = Draining::start(&rt, server)?;
    expect_unserved(&rt, group)
}
