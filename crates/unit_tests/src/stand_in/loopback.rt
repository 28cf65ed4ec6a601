//! A server on loopback, with a thread for each connection.
use super::*;
use crate::checks::assert_same;
use std::net::{Net, SocketAddr, TcpListener, TcpStream};
use std::sync::Arc;
use std::thread;
use std::thread::Threads;
use std::time::{Clock, Duration};

// A read waits for a millisecond at most. This many reads are made before the test gives up, and a
// request before each 50th: one that comes before the query runs has no effect.
const TURNS: u32 = 20_000;

const TURNS_A_REQUEST: u32 = 50;

// Starts a server, which ends with the test.
fn start<
    R: Net<Listener = TcpListener, Stream = TcpStream>
        + Wait
        + Threads
        + Clock
        + AllocGlobal
        + Copy
        + Send
        + 'static,
>(rt: &R) -> Result<SocketAddr, Fail> {
    let listener = TcpListener::bind(rt, "127.0.0.1:0")?;
    let address = listener.local_addr()?;
    let server = Arc::new(rt.alloc(), Server::new(rt.alloc(), Mode::Honest))?;
    let own = *rt;
    thread::spawn(rt, move || serve(&own, &server, &listener)).map_err(AllocError::from)?;
    Ok(address)
}

// Sends a cancel request over this connection, which is ended without a byte.
fn send_cancel(rt: &impl Abort, stream: &mut TcpStream, request: &[u8]) -> io::Result<()> {
    stream.set_read_timeout(Some(Duration::from_secs(10)))?;
    stream.write_all(request)?;
    let mut byte = [0];
    let count = stream.read(&mut byte)?;
    assert_same(rt, count, 0);
    Ok(())
}

// Sends a cancel request over a connection of its own.
fn cancel<R: Net<Stream = TcpStream> + Abort>(
    rt: &R,
    address: SocketAddr,
    request: &[u8],
) -> io::Result<()> {
    let mut stream = TcpStream::connect(rt, address)?;
    send_cancel(rt, &mut stream, request)
}

// What a client is sent, until there are `count` bytes. The request is made meanwhile.
fn sent<R: Net<Stream = TcpStream> + AllocGlobal + Abort>(
    rt: &R,
    address: SocketAddr,
    client: &mut TcpStream,
    request: &[u8],
    count: usize,
) -> Result<Vec<u8>, Fail> {
    let mut out = Vec::new(rt.alloc());
    for turn in 0..TURNS {
        if turn % TURNS_A_REQUEST == TURNS_A_REQUEST - 1 {
            cancel(rt, address, request)?;
        }
        look(client, &mut out)?;
        if out.len() >= count {
            break;
        }
    }
    Ok(out)
}

// Reads once, and appends what came.
fn look(client: &mut TcpStream, out: &mut Vec<u8>) -> Result<(), Fail> {
    let mut buffer = [0; 256];
    match client.read(&mut buffer) {
        Ok(0) => Err(Fail::from("the connection was closed")),
        Ok(count) => Ok(out.extend_from_slice(&buffer[..count])?),
        Err(error) if error.kind() == ErrorKind::WouldBlock => Ok(()),
        Err(error) => Err(Fail::from(error)),
    }
}

// A client that is sent this in answer to what it writes.
fn assert_answered<R: Net<Stream = TcpStream> + AllocGlobal + Abort>(
    rt: &R,
    address: SocketAddr,
    client: &mut TcpStream,
    input: &[u8],
    request: &[u8],
    answer: &[&[u8]],
) -> Result<(), Fail> {
    client.set_read_timeout(Some(Duration::from_millis(1)))?;
    client.write_all(input)?;
    let expected = joined(rt.alloc(), answer)?;
    let got = sent(rt, address, client, request, expected.len())?;
    assert_bytes(rt, got.as_slice(), expected.as_slice());
    Ok(())
}

// The second client's query is interrupted by a request with its key, and the first client goes on.
#[test]
fn clients_side_by_side(rt: HostRuntime) -> Result<(), Fail> {
    let address = start(&rt)?;
    let request = joined(rt.alloc(), &[b"\0\0\0\x10\x04\xd2\x16\x2e", NEXT_KEY])?;
    let request = request.as_slice();
    let mut first = TcpStream::connect(&rt, address)?;
    let login = &[GREETING, KEY, IDLE];
    assert_answered(&rt, address, &mut first, STARTUP, request, login)?;
    let mut second = TcpStream::connect(&rt, address)?;
    let input = with_queries(rt.alloc(), &[b"hold"])?;
    let answer = &[GREETING, NEXT_KEY, IDLE, CANCELED, IDLE];
    assert_answered(&rt, address, &mut second, input.as_slice(), request, answer)?;
    let begin = b"Q\0\0\0\x0abegin\0";
    assert_answered(&rt, address, &mut first, begin, request, &[BEGIN, OPEN])?;
    Ok(())
}
