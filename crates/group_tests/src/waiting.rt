//! A client that waits for a link is cancelled.
use crate::client::{Cancel, Client};
use crate::console_client::Console;
use crate::group::{ANY_PORT, Running, TWO};
use crate::host::TestHost;
use crate::messages::{BEGIN, CANCELED, COMMIT, HI, IDLE, OPEN};
use std::net::TcpListener;
use std::test::Fail;
use stub_server::Mode;

const WAITING: &[&[&str]] = &[&["0", "shop", "link"], &["1", "shop", "waiting"]];

// While one client keeps the only link of a node, another waits for it. Its wait is cancelled, and
// its session goes on.
fn expect_waiting<R: TestHost>(rt: &R, port: u16) -> Result<(), Fail> {
    let (mut keeper, _) = Client::log_in(rt, port)?;
    keeper.expect_answer(rt, "begin", &[BEGIN, OPEN])?;
    let (mut client, key) = Client::log_in(rt, port)?;
    client.ask(rt, "echo hi")?;
    Console::log_in(rt, port)?.expect_clients(rt, WAITING)?;
    Cancel::new(rt, port, key.as_slice())?
        .send(rt)?
        .expect_end(rt, b"")?;
    client.expect(rt, &[CANCELED, IDLE], None)?;
    keeper.expect_answer(rt, "commit", &[COMMIT, IDLE])?;
    client.expect_answer(rt, "echo hi", &[HI, IDLE])
}

#[test]
fn a_wait_is_cancelled(rt: HostRuntime) -> Result<(), Fail> {
    let server = TcpListener::bind(&rt, ANY_PORT)?;
    let group = Running::start(&rt, server, Mode::Honest, TWO)?;
    expect_waiting(&rt, group.node(1)?)
}
