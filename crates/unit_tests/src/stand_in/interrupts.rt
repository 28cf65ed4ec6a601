//! What a request has done by the time that its connection ends.
use super::holds::held;
use super::*;
use std::sync::Arc;
use std::sync::atomic::{AtomicBool, Ordering};
use std::thread;
use std::thread::Threads;
use std::time::{Clock, Duration};

// How many milliseconds a query that was interrupted has to end in.
const LIMIT: u32 = 3_000;

// How many milliseconds are between two requests. One that comes before the query runs has no
// effect.
const PAUSE: u32 = 200;

const REQUESTS: u32 = 10;

// Whether the query has ended by now, or ends within that many milliseconds.
fn has_ended<R: Wait + Clock>(rt: &R, ended: &AtomicBool, limit: u32) -> bool {
    for _i in 0..limit {
        if ended.load(Ordering::SeqCst) {
            return true;
        }
        thread::sleep(rt, Duration::from_millis(1));
    }
    false
}

// The connection of a cancel request. Where a byte is written to it before it is ended, it waits
// for the query's end before it takes it.
#[derive(Drop)]
struct Requester<'a, R> {
    rt: &'a R,
    input: &'static [u8],
    ended: &'a AtomicBool,
    has_taken: bool,
    // Whether the query had ended before the byte was taken.
    is_first: bool,
}

impl<R> Read for Requester<'_, R> {
    fn read(&mut self, buf: &mut [u8]) -> io::Result<usize> {
        self.input.read(buf)
    }
}

impl<R: Wait + Clock> Write for Requester<'_, R> {
    fn write(&mut self, buf: &[u8]) -> io::Result<usize> {
        self.is_first = has_ended(self.rt, self.ended, LIMIT);
        self.has_taken = true;
        Ok(buf.len())
    }

    fn flush(&mut self) -> io::Result<()> {
        Ok(())
    }
}

// A request comes. Whether the query has ended by its connection's end.
fn request<R: Wait + Clock>(rt: &R, server: &Server, ended: &AtomicBool) -> io::Result<bool> {
    let mut requester = Requester {
        rt,
        input: CANCEL,
        ended,
        has_taken: false,
        is_first: false,
    };
    serve_connection(rt, server, &mut requester)?;
    if requester.has_taken {
        Ok(requester.is_first)
    } else {
        Ok(has_ended(rt, ended, LIMIT))
    }
}

// Requests come until the query has ended. Whether it had at the end of one's connection, and never
// has between two.
fn acts_first<R: Wait + Clock>(rt: &R, server: &Server, ended: &AtomicBool) -> io::Result<bool> {
    for _i in 0..REQUESTS {
        if has_ended(rt, ended, PAUSE) {
            return Ok(false);
        }
        if request(rt, server, ended)? {
            return Ok(true);
        }
    }
    Ok(false)
}

// While a client's query runs, in a thread of its own, requests come.
fn assert_acts_first<R: Wait + Threads + Clock + Abort + AllocGlobal + Copy + Send + 'static>(
    rt: &R,
    mode: Mode,
) -> Result<(), Fail> {
    let input = with_queries(rt.alloc(), &[b"hold"])?;
    let wire = Wire::new(rt.alloc(), input, 7, usize::MAX);
    let server = Arc::new(rt.alloc(), Server::new(rt.alloc(), mode))?;
    let ended = Arc::new(rt.alloc(), AtomicBool::new(false))?;
    let (own, theirs, tells) = (*rt, Arc::try_clone(&server)?, Arc::try_clone(&ended)?);
    let client = thread::spawn(rt, move || held(&own, &theirs, wire, &tells)).map_err(
        AllocError::from,
    )?;
    assert!(rt; acts_first(rt, &server, &ended)?, "{mode:?}");
    let sent = client.join(rt)?;
    assert!(rt; sent.as_slice().ends_with(IDLE));
    Ok(())
}

// A server of either mode interrupts the query before it ends the request's connection.
#[test]
fn a_request_acts_first(rt: HostRuntime) -> Result<(), Fail> {
    assert_acts_first(&rt, Mode::Byte)?;
    assert_acts_first(&rt, Mode::Honest)
}
