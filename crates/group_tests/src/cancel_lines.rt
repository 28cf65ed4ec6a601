//! The lines of the log about ends of cancel requests.
use crate::caller::Caller;
use crate::client::{Cancel, Client};
use crate::gated::start_limited;
use crate::group::{ANY_PORT, start_server};
use crate::host::TestHost;
use crate::log_lines::{await_line, await_timed_line, expect_no_line};
use crate::messages::{BEGIN, OPEN, UNKNOWN_KEY};
use group_server::MessageLimit;
use node_threads::CancelOrder;
use peer_forward::{Outcome, Verdict};
use pg_ids::{DatabaseNo, PeerNo};
use std::net::TcpListener;
use std::test::Fail;
use stub_server::Mode;

// The server of a database, for its process 4711.
const SERVER: CancelOrder = CancelOrder::Server(DatabaseNo(0), 4_711);

// A request of node 1 that got this order, and has ended so, has this line.
fn expect_end<R: TestHost>(
    rt: &R,
    caller: &Caller<R>,
    order: CancelOrder,
    verdict: Verdict,
    fields: &str,
) -> Result<(), Fail> {
    caller.cancel(rt, order, verdict)?;
    caller.expect_cancel_end(rt, fields)
}

// The lines of requests, of which those that are sent go to the server at this port, or to a peer.
fn expect_lines<R: TestHost>(rt: &R, server: u16) -> Result<(), Fail> {
    let caller = Caller::new(rt, server, &[])?;
    let peer = CancelOrder::Peer(PeerNo::new(2).ok_or("no peer")?);
    let shop = format!(in rt.alloc(); "database=shop server=127.0.0.1:{server} pid=4711")?;
    let (settled, failed) = (
        format!(in rt.alloc(); "{shop} result=settled")?,
        format!(in rt.alloc(); "{shop} result=failed")?,
    );
    let at_peer = "peer=2 address=127.0.0.1:2 result=failed";
    for (order, verdict, fields) in [
        (SERVER, Verdict::Carried(Outcome::Ended), settled.as_str()),
        (SERVER, Verdict::Carried(Outcome::Failed), failed.as_str()),
        (SERVER, Verdict::NoConnect, failed.as_str()),
        (peer, Verdict::Carried(Outcome::Failed), at_peer),
        (
            CancelOrder::Unwait,
            Verdict::Unwaited,
            "result=nothing_sent",
        ),
    ] {
        expect_end(rt, &caller, order, verdict, fields)?;
    }
    caller.give_up_cancel(rt)?;
    caller.expect_cancel_line(rt, "info cancel_refused", "reason=no_seat")?;
    caller.expect_cancel_end(rt, "result=not_served")
}

#[test]
fn ends_are_in_the_log(rt: HostRuntime) -> Result<(), Fail> {
    let server = TcpListener::bind(&rt, ANY_PORT)?;
    expect_lines(&rt, server.local_addr()?.port())
}

// A request with this key ends cleanly. Returns the requester's address, as the log has it.
fn requested<R: TestHost>(rt: &R, port: u16, key: &[u8]) -> Result<String, Fail> {
    let mut requester = Cancel::new(rt, port, key)?.send(rt)?;
    requester.expect_end(rt, b"")?;
    let own = requester.port()?;
    Ok(format!(in rt.alloc(); "127.0.0.1:{own}")?)
}
