//! Nodes whose entries for a peer lead in a circle.
use crate::client::{Cancel, Client};
use crate::console_client::Console;
use crate::group::{ANY_PORT, Running, free_ports, start_group};
use crate::host::TestHost;
use crate::reported::reports_of;
use crate::settings::settings;
use ini_config::Group;
use std::alloc::Global;
use std::io::ErrorKind;
use std::net::TcpListener;
use std::test::Fail;
use stub_server::Mode;

// The entry of node 1 for peer 2 leads to node 3, and that of node 3 to node 1.
const CIRCLE: &[&[usize]] = &[&[0, 2, 2], &[0, 1, 2], &[0, 0, 2]];

// The same of these two nodes alone. Their entries for each other lead to node 2's place.
const FIRST_AND_THIRD: &[(usize, &[usize])] = &[(0, &[0, 2, 1]), (2, &[1, 0, 2])];

// A key of peer 2, as it is issued: it may be sent on twice.
const KEY: &[u8] = b"\0\x08\0\0\0\0\0\x07";

// A node's counts of cancel requests are these.
fn expect_cancels<R: TestHost>(rt: &R, port: u16, counts: &[(&str, &str)]) -> Result<(), Fail> {
    Console::log_in(rt, port)?.expect_cancels(rt, counts)
}

// A request at node 1 ends there, after node 3 has sent it back.
fn expect_circle<R: TestHost>(rt: &R, first: u16, third: u16) -> Result<(), Fail> {
    Cancel::new(rt, first, KEY)?.send(rt)?.expect_end(rt, b"")?;
    expect_cancels(rt, first, &[("spent", "1"), ("forwarded", "1")])?;
    expect_cancels(rt, third, &[("forwarded", "1")])
}

#[test]
fn a_circle_ends(rt: HostRuntime) -> Result<(), Fail> {
    let server = TcpListener::bind(&rt, ANY_PORT)?;
    let group = Running::start(&rt, server, Mode::Honest, CIRCLE)?;
    expect_circle(&rt, group.node(1)?, group.node(3)?)?;
    expect_cancels(&rt, group.node(2)?, &[])
}

// Nodes 1 and 3, which listen at their places of these ports. That of node 2 is their server's, too.
fn first_and_third(alloc: Global, ports: &[u16; 3]) -> Result<Group, Fail> {
    let mut nodes = Vec::new(alloc);
    for (place, leads) in FIRST_AND_THIRD {
        nodes.push(settings(alloc, ports, &[ports[1]], *place, leads)?)?;
    }
    Ok(Group::check(nodes)?)
}

// Starts nodes 1 and 3 of three, of which node 2 has this port. Returns their ports.
fn start_two<R: TestHost>(rt: &R, second: u16) -> Result<(u16, u16), Fail> {
    let mut free = free_ports(rt, 3)?;
    let front = free.pop().ok_or("no port for the group")?;
    let third = free.pop().ok_or("no port for node 3")?;
    let first = free.pop().ok_or("no port for node 1")?;
    let group = first_and_third(rt.alloc(), &[first, second, third])?;
    start_group(rt, group, front, None, reports_of(rt.alloc(), &[])?)?;
    Ok((first, third))
}

// Whether nobody has connected.
fn is_left_alone(listener: &TcpListener) -> Result<bool, Fail> {
    listener.set_nonblocking(true)?;
    match listener.accept() {
        Ok(_) => Ok(false),
        Err(error) if error.kind() == ErrorKind::WouldBlock => Ok(true),
        Err(error) => Err(Fail::from(error)),
    }
}

// The test itself listens at node 2's port. Nobody connects there but its own client in the end.
#[test]
fn nobody_connects_to_the_peer(rt: HostRuntime) -> Result<(), Fail> {
    let listener = TcpListener::bind(&rt, ANY_PORT)?;
    let second = listener.local_addr()?.port();
    let (first, third) = start_two(&rt, second)?;
    expect_circle(&rt, first, third)?;
    assert!(rt; is_left_alone(&listener)?);
    let _client = Client::connect(&rt, second)?;
    listener.set_nonblocking(false)?;
    let _accepted = listener.accept()?;
    Ok(())
}
