//! What the next line of a log is.
use crate::client::TURNS;
use std::alloc::AllocGlobal;
use std::process::Abort;
use std::sync::Wait;
use std::test::Fail;
use std::thread;
use std::time::{Clock, Duration};
use telemetry::Log;

// The next line of a log, behind its time.
pub(crate) fn next_line<R: Wait + Clock + AllocGlobal>(
    rt: &R,
    log: &Log,
) -> Result<Option<String>, Fail> {
    let Some(line) = log.next(rt) else {
        return Ok(None);
    };
    let (_time, rest) = line.as_str().split_once(' ').ok_or("no time")?;
    Ok(Some(String::from_str(rt.alloc(), rest)?))
}

// The next line of a log, behind its time, once there is one.
fn await_next<R: Wait + Clock + AllocGlobal>(rt: &R, log: &Log) -> Result<String, Fail> {
    for _turn in 0..TURNS {
        if let Some(line) = next_line(rt, log)? {
            return Ok(line);
        }
        thread::sleep(rt, Duration::from_millis(1));
    }
    Err(Fail::from("no line within the limit of turns"))
}

// The next line of a log, once there is one, is this, behind its time.
pub(crate) fn await_line<R: Wait + Clock + Abort + AllocGlobal>(
    rt: &R,
    log: &Log,
    expected: &str,
) -> Result<(), Fail> {
    assert_eq!(rt; await_next(rt, log)?.as_str(), expected);
    Ok(())
}

// The next line of a log, once there is one, is this, behind its time and before some number of
// milliseconds.
pub(crate) fn await_timed_line<R: Wait + Clock + Abort + AllocGlobal>(
    rt: &R,
    log: &Log,
    expected: &str,
) -> Result<(), Fail> {
    let line = await_next(rt, log)?;
    let (start, millis) = line.as_str().split_once(" millis=").ok_or("no time")?;
    assert_eq!(rt; start, expected);
    assert!(rt; !millis.is_empty() && millis.as_bytes().iter().all(|byte| byte.is_ascii_digit()));
    Ok(())
}

// The next line of a log is this, behind its time.
pub(crate) fn expect_line<R: Wait + Clock + Abort + AllocGlobal>(
    rt: &R,
    log: &Log,
    expected: &str,
) -> Result<(), Fail> {
    let line = next_line(rt, log)?.ok_or("no line")?;
    assert_eq!(rt; line.as_str(), expected);
    Ok(())
}

// The log has no line.
pub(crate) fn expect_no_line<R: Wait + Clock + Abort + AllocGlobal>(
    rt: &R,
    log: &Log,
) -> Result<(), Fail> {
    assert!(rt; next_line(rt, log)?.is_none());
    Ok(())
}
