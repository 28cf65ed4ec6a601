//! Queries that run in a thread until another thread's request interrupts them.
use super::*;
use std::sync::Arc;
use std::sync::atomic::{AtomicBool, Ordering};
use std::thread;
use std::thread::Threads;
use std::time::{Clock, Duration};

// How often the request is made before the test gives up, with a millisecond before each. One that
// comes before the query runs has no effect.
const TURNS: u32 = 20_000;

// What a client is sent. `ended` is set once it is served.
pub(super) fn held<R: Wait>(
    rt: &R,
    server: &Server,
    mut wire: Wire,
    ended: &AtomicBool,
) -> io::Result<Vec<u8>> {
    let served = serve_wire(rt, server, &mut wire);
    ended.store(true, Ordering::SeqCst);
    served?;
    Ok(wire.output)
}

// Makes the request again and again, until `ended` is set.
fn interrupt<R: Wait + Clock + AllocGlobal>(
    rt: &R,
    server: &Server,
    ended: &AtomicBool,
) -> io::Result<()> {
    for _i in 0..TURNS {
        thread::sleep(rt, Duration::from_millis(1));
        if ended.load(Ordering::SeqCst) {
            break;
        }
        let request = Vec::from_slice(rt.alloc(), CANCEL)?;
        serve_wire(rt, server, &mut Wire::new(rt.alloc(), request, 16, 1))?;
    }
    Ok(())
}

// A client with these queries, in a thread of its own, is sent this once its `hold` is interrupted.
fn assert_held<R: Wait + Threads + Clock + Abort + AllocGlobal + Copy + Send + 'static>(
    rt: &R,
    mode: Mode,
    queries: &[&[u8]],
    answers: &[&[u8]],
) -> Result<(), Fail> {
    let expected = with_login(rt.alloc(), answers)?;
    let input = with_queries(rt.alloc(), queries)?;
    let wire = Wire::new(rt.alloc(), input, 7, usize::MAX);
    let server = Arc::new(rt.alloc(), Server::new(rt.alloc(), mode))?;
    let ended = Arc::new(rt.alloc(), AtomicBool::new(false))?;
    let (own, theirs, tells) = (*rt, Arc::try_clone(&server)?, Arc::try_clone(&ended)?);
    let client = thread::spawn(rt, move || held(&own, &theirs, wire, &tells)).map_err(
        AllocError::from,
    )?;
    interrupt(rt, &server, &ended)?;
    assert!(rt; ended.load(Ordering::SeqCst));
    assert_eq!(rt; client.join(rt)?.as_slice(), expected.as_slice());
    Ok(())
}

#[test]
fn interrupted(rt: HostRuntime) -> Result<(), Fail> {
    for mode in [Mode::Honest, Mode::Byte] {
        assert_held(
            &rt,
            mode,
            &[b"hold", b"commit"],
            &[CANCELED, IDLE, COMMIT, IDLE],
        )?;
        assert_held(
            &rt,
            mode,
            &[b"begin", b"hold", b"begin", b"commit"],
            &[
                BEGIN, OPEN, CANCELED, FAILED, UNKNOWN, FAILED, ROLLBACK, IDLE,
            ],
        )?;
    }
    Ok(())
}
