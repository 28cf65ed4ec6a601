//! The addresses of a group: its own, and one of each node.
use crate::client::Client;
use crate::group::{ANY_PORT, Running, THREE, free_ports, options};
use crate::host::TestHost;
use crate::messages::{HI, IDLE};
use crate::settings::group;
use group_server::{Listening, listen};
use sockets::{Deadline, connect};
use startup::Reports;
use std::net::{TcpListener, TcpStream};
use std::test::Fail;
use stub_server::Mode;

// The number of the node that a key names, by its first 14 bits.
fn node_of(key: &[u8]) -> usize {
    let first = key.first().copied().unwrap_or(0);
    let second = key.get(1).copied().unwrap_or(0);
    (usize::from(first) << 6) | (usize::from(second) >> 2)
}

// A client that comes to this port is served by this node.
pub(crate) fn expect_served<R: TestHost>(rt: &R, port: u16, number: usize) -> Result<(), Fail> {
    let (mut client, key) = Client::log_in(rt, port)?;
    assert_eq!(rt; node_of(key.as_slice()), number);
    client.expect_answer(rt, "echo hi", &[HI, IDLE])
}

// Clients that come to a node's own address are served by that node, and those that come to the
// group's, one after another, by the nodes in turn.
#[test]
fn nodes_serve_in_turn(rt: HostRuntime) -> Result<(), Fail> {
    let server = TcpListener::bind(&rt, ANY_PORT)?;
    let group = Running::start(&rt, server, Mode::Honest, THREE)?;
    for number in 1..4 {
        expect_served(&rt, group.node(number)?, number)?;
    }
    for number in [1, 2, 3, 1, 2, 3, 1] {
        expect_served(&rt, group.front(), number)?;
    }
    Ok(())
}

// A client can connect to each address as soon as the group is bound.
#[test]
fn addresses(rt: HostRuntime) -> Result<(), Fail> {
    let ports = free_ports(&rt, 2)?;
    if ports.len() < 2 {
        return Err(Fail::from("no ports"));
    }
    let (front, own) = (ports[0], ports[1]);
    let group = group(rt.alloc(), &[own], 1, &[&[]])?;
    let reports = Reports::new(rt.alloc());
    let Ok(_listening) = Listening::bind(&rt, rt.alloc(), group, &options(front, None, &reports))
    else {
        return Err(Fail::from("an address can't be bound"));
    };
    TcpStream::connect(&rt, ("127.0.0.1", front))?;
    TcpStream::connect(&rt, ("127.0.0.1", own))?;
    Ok(())
}

// Many clients that come at once are all connected before one is accepted: none has to send its SYN
// again, which it does after a second.
#[test]
fn many_clients_wait_to_be_accepted(rt: HostRuntime) -> Result<(), Fail> {
    let Ok(listener) = listen(&rt, rt.alloc(), "127.0.0.1", 0) else {
        return Err(Fail::from("an address can't be bound"));
    };
    let port = listener.local_addr()?.port();
    let mut clients = Vec::new(rt.alloc());
    for _ in 0..300 {
        let deadline = Deadline::after(&rt, 900)?;
        clients.push(connect(&rt, "127.0.0.1", port, deadline)?)?;
    }
    Ok(())
}
