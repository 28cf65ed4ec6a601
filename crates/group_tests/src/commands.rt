//! The commands `serve` and `stub`: where they listen, and their errors.
use crate::client::{Cancel, Client};
use crate::files::{Command, run_line, start};
use crate::front::expect_served;
use crate::group::{ANY_PORT, THREE, free_ports};
use crate::host::TestHost;
use crate::messages::{HI, IDLE, LONG_STARTUP};
use crate::settings::texts;
use std::alloc::{AllocError, Global};
use std::io;
use std::net::TcpListener;
use std::test::Fail;

// The bytes 0 to 31.
const SEED: &str = "000102030405060708090a0b0c0d0e0f101112131415161718191a1b1c1d1e1f";

// The first long key of node 2 for that seed: slot 0 and the secret d175b254, which is the first
// word of the block 0 of ChaCha20 with that key and the nonce 2, by RFC 8439; 3 hops; the boot
// 7 * 2^32, and the serial 0.
const KEY: &[u8] = b"\0\x08\0\x03\x45\xd6\xc9\x53\0\0\0\x07\0\0\0\0\0\0\0\0\0\0\0\0";

// Three nodes at these ports, and stand-in servers at their server's address.
fn group_command(
    alloc: Global,
    nodes: &[u16],
    front: u16,
    server: u16,
) -> Result<Command, AllocError> {
    let files = "one.ini two.ini three.ini";
    let line = format!(in alloc;
        "serve --front {front} --seed {SEED} --boot 7 --stand-in {files}"
    )?;
    let texts = texts(alloc, nodes, &[server], THREE)?;
    Ok(Command { line, texts })
}

// Each node answers at its own port, and they do by turns at the group's. The keys are by the seed
// and the boot of the arguments.
fn expect_three<R: TestHost>(rt: &R, nodes: &[u16], front: u16) -> Result<(), Fail> {
    for (place, port) in nodes.iter().enumerate() {
        expect_served(rt, *port, place.saturating_add(1))?;
    }
    for number in [1, 2, 3, 1] {
        expect_served(rt, front, number)?;
    }
    Ok(())
}

fn expect_key<R: TestHost>(rt: &R, port: u16) -> Result<(), Fail> {
    let (_client, key) = Client::log_in_by(rt, port, LONG_STARTUP, 24)?;
    assert_eq!(rt; key.as_slice(), KEY);
    Ok(())
}

// The system's error for an address that is in use.
const TAKEN: &str = "Address already in use (os error 98)";

// The port of a listener, which is closed.
fn freed(listener: TcpListener) -> io::Result<u16> {
    Ok(listener.local_addr()?.port())
}

#[test]
fn files_are_served(rt: HostRuntime) -> Result<(), Fail> {
    let front = freed(TcpListener::bind(&rt, ANY_PORT)?)?;
    let ports = free_ports(&rt, 4)?;
    if ports.len() < 4 {
        return Err(Fail::from("no ports"));
    }
    let server = ports[3];
    let nodes = [ports[0], ports[1], ports[2]];
    let command = group_command(rt.alloc(), &nodes, front, server)?;
    start(&rt, command, front)?;
    expect_key(&rt, nodes[1])?;
    expect_three(&rt, &nodes, front)
}

// A node whose logins report a parameter that the arguments name. Its server reports none of
// this name, so links are used.
#[test]
fn parameters_are_reported(rt: HostRuntime) -> Result<(), Fail> {
    let front = freed(TcpListener::bind(&rt, ANY_PORT)?)?;
    let ports = free_ports(&rt, 2)?;
    if ports.len() < 2 {
        return Err(Fail::from("no ports"));
    }
    let (node, server) = (ports[0], ports[1]);
    let line = format!(in rt.alloc();
        "serve --front {front} --seed {SEED} --stand-in --report TimeZone=Europe/Berlin one.ini"
    )?;
    let texts = texts(rt.alloc(), &[node], &[server], &[&[]])?;
    start(&rt, Command { line, texts }, front)?;
    let told = b"S\0\0\0\x1bTimeZone\0Europe/Berlin\0";
    let (mut client, _key) = Client::log_in_told(&rt, node, told)?;
    client.expect_answer(&rt, "echo hi", &[HI, IDLE])
}

// A stand-in server writes this to a requester before it ends its connection, and answers queries.
fn expect_stand_in<R: TestHost>(rt: &R, port: u16, last: &[u8]) -> Result<(), Fail> {
    Cancel::new(rt, port, b"\0\0\0\x01\0\x0f\x42\x41")?
        .send(rt)?
        .expect_end(rt, last)?;
    let (mut client, _key) = Client::log_in(rt, port)?;
    client.expect_answer(rt, "echo hi", &[HI, IDLE])
}

#[test]
fn stand_ins_run(rt: HostRuntime) -> Result<(), Fail> {
    for (option, last) in [("", b"".as_slice()), ("--byte ", b"\x4e")] {
        let port = freed(TcpListener::bind(&rt, ANY_PORT)?)?;
        let line = format!(in rt.alloc(); "stub {option}{port}")?;
        let texts = Vec::new(rt.alloc());
        start(&rt, Command { line, texts }, port)?;
        expect_stand_in(&rt, port, last)?;
    }
    Ok(())
}

// A command that can't listen at this port prints this and the error, and nothing else.
fn expect_taken<R: TestHost>(rt: &R, command: &Command, taken: u16) -> Result<(), Fail> {
    let text = format!(in rt.alloc(); "cannot listen {taken}\n127.0.0.1:{taken}: {TAKEN}\n")?;
    expect_error(rt, command, text.as_str(), 1)
}

// A command prints this error, and nothing else, and has this status.
fn expect_error<R: TestHost>(
    rt: &R,
    command: &Command,
    text: &str,
    expected: u8,
) -> Result<(), Fail> {
    let (mut out, mut err) = (Vec::new(rt.alloc()), Vec::new(rt.alloc()));
    let line = command.line.as_str();
    let status = run_line(rt, line, &command.texts, &mut out, &mut err).ok_or(
        "no command that runs, or no memory to read it",
    )?;
    let said = std::str::from_utf8(err.as_slice()).ok().ok_or("no text")?;
    assert_eq!(rt; said, text);
    assert_eq!(rt; status, expected);
    assert_eq!(rt; out.as_slice(), b"".as_slice());
    Ok(())
}

// The address of the group, of a node or of a stand-in server is taken.
#[test]
fn taken_ports(rt: HostRuntime) -> Result<(), Fail> {
    let listener = TcpListener::bind(&rt, ANY_PORT)?;
    let taken = listener.local_addr()?.port();
    let ports = free_ports(&rt, 6)?;
    if ports.len() < 6 {
        return Err(Fail::from("no ports"));
    }
    let (one, two, three, front) = (ports[0], ports[1], ports[2], ports[3]);
    for (nodes, front, server) in [
        ([one, two, three], taken, ports[4]),
        ([one, two, taken], front, ports[5]),
        ([one, two, three], front, taken),
    ] {
        let command = group_command(rt.alloc(), &nodes, front, server)?;
        expect_taken(&rt, &command, taken)?;
    }
    let line = format!(in rt.alloc(); "stub {taken}")?;
    let texts = Vec::new(rt.alloc());
    expect_taken(&rt, &Command { line, texts }, taken)
}
