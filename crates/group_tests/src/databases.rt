//! Two databases on two servers, whose backends have the same keys.
use crate::client::{Cancel, Client};
use crate::group::{ANY_PORT, Running, TWO, start_server};
use crate::host::TestHost;
use crate::messages::{CANCELED, IDLE, STARTUP, WORK_STARTUP};
use std::net::TcpListener;
use std::test::Fail;
use stub_server::Mode;

// While clients of both databases run a query, a request for one of them comes to another node. It
// interrupts that query and not the other. Each link is the first of its server, so that both
// backends have process ID 1 and secret key 1,000,001.
fn expect_one_interrupted<R: TestHost>(
    rt: &R,
    group: &Running,
    one: &[u8],
    other: &[u8],
) -> Result<(), Fail> {
    let (mut one, key) = Client::log_in_by(rt, group.node(1)?, one, 8)?;
    let (mut other, other_key) = Client::log_in_by(rt, group.node(1)?, other, 8)?;
    one.ask(rt, "hold")?;
    other.ask(rt, "hold")?;
    let cancel = Cancel::new(rt, group.node(2)?, key.as_slice())?;
    one.expect(rt, &[CANCELED, IDLE], Some(&cancel))?;
    other.expect_nothing(rt, 200)?;
    let cancel = Cancel::new(rt, group.node(2)?, other_key.as_slice())?;
    other.expect(rt, &[CANCELED, IDLE], Some(&cancel))
}

fn expect_own_server<R: TestHost>(
    rt: &R,
    shop: TcpListener,
    work: TcpListener,
    one: &[u8],
    other: &[u8],
) -> Result<(), Fail> {
    let shop = start_server(rt, shop, Mode::Honest)?;
    let work = start_server(rt, work, Mode::Honest)?;
    let group = Running::start_before(rt, &[shop, work], TWO)?;
    expect_one_interrupted(rt, &group, one, other)
}

#[test]
fn each_request_goes_to_its_server(rt: HostRuntime) -> Result<(), Fail> {
    for (one, other) in [(STARTUP, WORK_STARTUP), (WORK_STARTUP, STARTUP)] {
        let shop = TcpListener::bind(&rt, ANY_PORT)?;
        let work = TcpListener::bind(&rt, ANY_PORT)?;
        expect_own_server(&rt, shop, work, one, other)?;
    }
    Ok(())
}
