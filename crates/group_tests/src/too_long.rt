//! The lines of the log about messages above the limit, which is 8,192 here.
use crate::client::Client;
use crate::gated::start_limited;
use crate::group::ANY_PORT;
use crate::host::TestHost;
use crate::log_lines::{await_line, expect_no_line};
use crate::messages::{LOST, VIOLATION, joined, put_message};
use crate::reported::LOGIN;
use crate::scripted::{Script, start};
use group_server::MessageLimit;
use std::alloc::{AllocError, Global};
use std::net::TcpListener;
use std::sync::Arc;
use std::test::Fail;
use telemetry::Log;

// A server whose answer begins with a row whose length field is 8,193.
const ROW: &[Script] = &[Script {
    login: LOGIN,
    answers: &[b"D\0\0\x20\x01"],
}];

// What comes of a message above the limit: the error that the client gets, how long the log says that
// the message is, and why it says that the session ended.
#[derive(Clone, Copy)]
struct Refused<'a> {
    error: &'a [u8],
    length: &'a str,
    why: &'a str,
}

// Starts a node before this server. Returns its port and its log.
fn start_node<R: TestHost>(
    rt: &R,
    listener: TcpListener,
    scripts: &'static [Script],
) -> Result<(u16, Arc<Log, Global>), Fail> {
    let server = start(rt, listener, scripts)?;
    let limit = MessageLimit::new(8_192).ok_or("no limit")?;
    start_limited(rt, server, limit)
}

// The session of a client that sends this ends so, and the log says why.
fn expect_refused<R: TestHost>(
    rt: &R,
    node: &(u16, Arc<Log, Global>),
    request: &[u8],
    refused: Refused<'_>,
) -> Result<(), Fail> {
    let (port, log) = node;
    let (mut client, _) = Client::log_in(rt, *port)?;
    client.send(request)?;
    client.expect_end(rt, refused.error)?;
    let (length, why) = (refused.length, refused.why);
    let line = format!(in rt.alloc(); "node=1 warn message_too_long database=shop {length}")?;
    await_line(rt, log, line.as_str())?;
    let own = client.port()?;
    let line = format!(in rt.alloc();
        "node=1 warn session_ended client=127.0.0.1:{own} database=shop {why}"
    )?;
    await_line(rt, log, line.as_str())?;
    expect_no_line(rt, log)
}

// A Parse with a query of this many bytes. It has nine bytes more: its type, the length field, an
// empty name with its end, the query's end, and the number of its types.
fn parse(alloc: Global, count: usize) -> Result<Vec<u8>, AllocError> {
    let mut query = Vec::new(alloc);
    for _ in 0..count {
        query.push(b' ')?;
    }
    let body = joined(alloc, &[b"\0", query.as_slice(), b"\0\0\0"])?;
    let mut out = Vec::new(alloc);
    put_message(&mut out, b'P', body.as_slice())?;
    Ok(out)
}

#[test]
fn a_row_above_the_limit(rt: HostRuntime) -> Result<(), Fail> {
    let listener = TcpListener::bind(&rt, ANY_PORT)?;
    let node = start_node(&rt, listener, ROW)?;
    let refused = Refused {
        error: LOST,
        length: "bytes=8193 limit=8192 from=server",
        why: "code=08006 refused=link_lost",
    };
    expect_refused(&rt, &node, b"Q\0\0\0\x06a\0", refused)
}

#[test]
fn a_query_above_the_limit(rt: HostRuntime) -> Result<(), Fail> {
    let listener = TcpListener::bind(&rt, ANY_PORT)?;
    let node = start_node(&rt, listener, &[])?;
    let refused = Refused {
        error: VIOLATION,
        length: "bytes=8193 limit=8192 from=client",
        why: "code=08P01 refused=malformed",
    };
    expect_refused(&rt, &node, b"Q\0\0\x20\x01", refused)
}

// Two messages of an extended query with 4,097 bytes each.
#[test]
fn messages_above_the_limit_together(rt: HostRuntime) -> Result<(), Fail> {
    let listener = TcpListener::bind(&rt, ANY_PORT)?;
    let node = start_node(&rt, listener, &[])?;
    let part = parse(rt.alloc(), 4_088)?;
    let request = joined(rt.alloc(), &[part.as_slice(), part.as_slice()])?;
    let refused = Refused {
        error: VIOLATION,
        length: "bytes=8194 limit=8192 from=client",
        why: "code=08P01 refused=too_long",
    };
    expect_refused(&rt, &node, request.as_slice(), refused)
}
