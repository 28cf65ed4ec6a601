//! Cancel requests that come to another node than their client's.
use crate::client::{Cancel, Client};
use crate::group::{ANY_PORT, Running, TWO};
use crate::host::TestHost;
use crate::messages::{BEGIN, CANCELED, IDLE, OPEN};
use std::net::TcpListener;
use std::test::Fail;
use stub_server::Mode;

// The query of a client of the first node is interrupted by requests that come to the second.
fn expect_interrupted<R: TestHost>(rt: &R, first: u16, second: u16) -> Result<(), Fail> {
    let (mut client, key) = Client::log_in(rt, first)?;
    let cancel = Cancel::new(rt, second, key.as_slice())?;
    client.ask(rt, "hold")?;
    client.expect(rt, &[CANCELED, IDLE], Some(&cancel))
}

#[test]
fn a_query_is_interrupted(rt: HostRuntime) -> Result<(), Fail> {
    let server = TcpListener::bind(&rt, ANY_PORT)?;
    let group = Running::start(&rt, server, Mode::Honest, TWO)?;
    expect_interrupted(&rt, group.node(1)?, group.node(2)?)
}

// A request that comes to the second node, for a client of the first, which holds a link, is ended
// after these bytes.
fn expect_settled<R: TestHost>(rt: &R, first: u16, second: u16, last: &[u8]) -> Result<(), Fail> {
    let (mut client, key) = Client::log_in(rt, first)?;
    client.expect_answer(rt, "begin", &[BEGIN, OPEN])?;
    let cancel = Cancel::new(rt, second, key.as_slice())?;
    cancel.send(rt)?.expect_end(rt, last)
}

// A server that ends cancel connections without a byte, and one that writes a byte before, which
// isn't a clean end.
#[test]
fn a_requester_is_told(rt: HostRuntime) -> Result<(), Fail> {
    for (mode, last) in [(Mode::Honest, b"".as_slice()), (Mode::Byte, b"\x45")] {
        let server = TcpListener::bind(&rt, ANY_PORT)?;
        let group = Running::start(&rt, server, mode, TWO)?;
        expect_settled(&rt, group.node(2)?, group.node(1)?, last)?;
    }
    Ok(())
}
