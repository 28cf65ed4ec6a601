//! A link whose server didn't end a cancel connection cleanly.
use crate::client::{Cancel, Client};
use crate::console_client::Console;
use crate::gated::{Barrier, start_node};
use crate::group::{ANY_PORT, start_server};
use crate::host::TestHost;
use crate::messages::{GREETING, HI, IDLE, KEY, STARTUP};
use std::net::TcpListener;
use std::test::Fail;
use stub_server::Mode;

// The third login at the server: process ID 3 and secret key 1,000,003.
const THIRD: &[u8] = b"\0\0\0\x03\0\x0f\x42\x43";

// The link of a client whose session is at the gate is condemned by a request that fails.
fn expect_condemned<R: TestHost>(
    rt: &R,
    port: u16,
    console: &mut Console,
    key: &[u8],
) -> Result<(), Fail> {
    let mut requester = Cancel::new(rt, port, key)?.send(rt)?;
    console.expect_cancels(rt, &[("sent", "1"), ("failed", "1")])?;
    requester.expect_end(rt, b"\x45")?;
    console.expect_links(rt, &[&["0", "shop", "held", "0", "yes"]])
}

// Once the gate is open the link is closed, and the next query runs on a new one.
fn expect_replaced<R: TestHost>(
    rt: &R,
    gate: &Barrier,
    console: &mut Console,
    client: &mut Client,
) -> Result<(), Fail> {
    gate.open(rt);
    console.expect_links(rt, &[])?;
    client.expect_answer(rt, "echo hi", &[HI, IDLE])?;
    console.expect_links(rt, &[&["1", "shop", "idle", "0", "no"]])
}

// Two links have logged in at the server before this client.
fn expect_third<R: TestHost>(rt: &R, server: u16) -> Result<(), Fail> {
    let mut client = Client::connect(rt, server)?;
    client.send(STARTUP)?;
    client.expect(rt, &[GREETING, KEY, THIRD, IDLE], None)
}

#[test]
fn a_link_is_condemned(rt: HostRuntime) -> Result<(), Fail> {
    let listener = TcpListener::bind(&rt, ANY_PORT)?;
    let server = start_server(&rt, listener, Mode::Byte)?;
    let (port, gate) = start_node(&rt, server)?;
    let (mut client, key) = Client::log_in(&rt, port)?;
    let mut console = Console::log_in(&rt, port)?;
    client.expect_answer(&rt, "echo hi", &[HI, IDLE])?;
    expect_condemned(&rt, port, &mut console, key.as_slice())?;
    expect_replaced(&rt, &gate, &mut console, &mut client)?;
    expect_third(&rt, server)
}
