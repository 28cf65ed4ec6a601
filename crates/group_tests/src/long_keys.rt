//! A client of the protocol of long keys.
use crate::client::{Cancel, Client};
use crate::group::{ANY_PORT, Running, TWO};
use crate::host::TestHost;
use crate::messages::{CANCELED, IDLE, LONG_STARTUP};
use std::net::TcpListener;
use std::test::Fail;
use stub_server::Mode;

// The first long key of node 1: slot 0 and, for a seed of zeros, the secret d6df3fef, the first
// word of stream 1 by draft-agl-tls-chacha20poly1305, 7; the boot 7 * 2^32, and the serial 0.
const KEY: &[u8] = b"\0\x04\0\x03\x5b\x7c\xff\xbf\0\0\0\x07\0\0\0\0\0\0\0\0\0\0\0\0";

// Its query is interrupted by requests that come to another node.
fn expect_interrupted<R: TestHost>(rt: &R, first: u16, second: u16) -> Result<(), Fail> {
    let (mut client, key) = Client::log_in_by(rt, first, LONG_STARTUP, 24)?;
    assert_eq!(rt; key.as_slice(), KEY);
    let cancel = Cancel::new(rt, second, key.as_slice())?;
    client.ask(rt, "hold")?;
    client.expect(rt, &[CANCELED, IDLE], Some(&cancel))
}

#[test]
fn a_query_is_interrupted(rt: HostRuntime) -> Result<(), Fail> {
    let server = TcpListener::bind(&rt, ANY_PORT)?;
    let group = Running::start(&rt, server, Mode::Honest, TWO)?;
    expect_interrupted(&rt, group.node(1)?, group.node(2)?)
}
