//! The lines of the log.
use crate::{Event, Field, Level, Log, Value, line_of};
use std::alloc::{AllocGlobal, Global};
use std::process::Abort;
use std::sync::Wait;
use std::test::Fail;
use std::time::{Clock, Duration};
use std::{io, thread};

// A clock that stands.
#[derive(Clone, Copy)]
struct Stopped(Duration);

impl Clock for Stopped {
    fn monotonic(&self) -> io::Result<Duration> {
        Ok(self.0)
    }

    fn since_1970(&self) -> io::Result<Duration> {
        Ok(self.0)
    }
}

// 2026-11-26T12:00:00.123456789Z: 20,783 days and 12 hours after 1970.
const fn noon() -> Stopped {
    Stopped(Duration::new(1_795_694_400, 123_456_789))
}

// The line of a login that was refused at node 2, of a link that these fields name.
fn login_line(alloc: Global, fields: &[Field<'_>]) -> Result<String, Fail> {
    let names = " database=shop server=127.0.0.1:5432";
    let event = Event::LinkLoginFailed;
    Ok(line_of(&noon(), alloc, Some(2), event, names, fields)?)
}

#[test]
fn a_line_has_its_parts(rt: HostRuntime) -> Result<(), Fail> {
    let message = b"password authentication failed for user \"app\"";
    let fields = [
        ("code", Value::Bytes(b"28P01")),
        ("message", Value::Bytes(message)),
    ];
    let line = login_line(rt.alloc(), &fields)?;
    let expected = "2026-11-26T12:00:00.123Z node=2 warn link_login_failed database=shop \
        server=127.0.0.1:5432 code=28P01 \
        message=\"password authentication failed for user \\\"app\\\"\"";
    assert_eq!(rt; line.as_str(), expected);
    Ok(())
}

#[test]
fn a_line_of_no_node(rt: HostRuntime) -> Result<(), Fail> {
    let front = Value::Address("127.0.0.1", 6_432);
    let fields = [("front", front), ("boot", Value::Number(7))];
    let line = line_of(&noon(), rt.alloc(), None, Event::Started, "", &fields)?;
    let expected = "2026-11-26T12:00:00.123Z node=- notice started front=127.0.0.1:6432 boot=7";
    assert_eq!(rt; line.as_str(), expected);
    Ok(())
}

// Values, and how they stand in a line. What isn't seen can't end a line or reach a terminal.
const VALUES: [(&[u8], &str); 14] = [
    (b"Europe/Berlin", "Europe/Berlin"),
    (b"", "\"\""),
    (b"a b", "\"a b\""),
    (b"a=b", "\"a=b\""),
    (b"\\", "\"\\\\\""),
    (b"a\nb\r\t", "\"a\\nb\\r\\t\""),
    (b"\x1b[2J\x7f", "\"\\u{1b}[2J\\u{7f}\""),
    (b"caf\xc3\xa9\xc2\x9b", "\"caf\u{e9}\\u{9b}\""),
    (b"a\xffb", "\"a\u{fffd}b\""),
    (b"a\xe2\x80\xaeb", "\"a\\u{202e}b\""),
    (b"a\xe2\x80\xa8b", "\"a\\u{2028}b\""),
    (b"a\xe2\x80\xa9b", "\"a\\u{2029}b\""),
    (b"a\xe2\x80\x8bb", "\"a\\u{200b}b\""),
    (b"e\xcc\x81", "\"e\u{301}\""),
];

#[test]
fn values_are_quoted(rt: HostRuntime) -> Result<(), Fail> {
    for (value, expected) in VALUES {
        let line = login_line(rt.alloc(), &[("value", Value::Bytes(value))])?;
        let text = line.as_str().split_once(" value=").map(|parts| parts.1);
        assert_eq!(rt; text, Some(expected));
    }
    Ok(())
}

// Of a value of 600 characters 500 stand in a line.
#[test]
fn a_long_value_is_cut(rt: HostRuntime) -> Result<(), Fail> {
    let mut value = Vec::new(rt.alloc());
    let mut expected = String::from_str(rt.alloc(), "\"")?;
    for place in 0..600 {
        value.push(b'x')?;
        if place < 500 {
            expected.push('x')?;
        }
    }
    expected.push_str("..\"")?;
    let line = login_line(rt.alloc(), &[("value", Value::Bytes(value.as_slice()))])?;
    let text = line.as_str().split_once(" value=").map(|parts| parts.1);
    assert_eq!(rt; text, Some(expected.as_str()));
    Ok(())
}

// The next line of a log, behind its time.
pub(crate) fn next_line<R: Wait + Clock + AllocGlobal>(
    rt: &R,
    log: &Log,
) -> Result<Option<String>, Fail> {
    let Some(line) = log.next(rt) else {
        return Ok(None);
    };
    let (_time, rest) = line.as_str().split_once(' ').ok_or("no time")?;
    Ok(Some(String::from_str(rt.alloc(), rest)?))
}

// The next line of a log is this, behind its time.
pub(crate) fn expect_line<R: Wait + Clock + Abort + AllocGlobal>(
    rt: &R,
    log: &Log,
    expected: &str,
) -> Result<(), Fail> {
    let line = next_line(rt, log)?.ok_or("no line")?;
    assert_eq!(rt; line.as_str(), expected);
    Ok(())
}

// The log has no line.
pub(crate) fn expect_no_line<R: Wait + Clock + Abort + AllocGlobal>(
    rt: &R,
    log: &Log,
) -> Result<(), Fail> {
    assert!(rt; next_line(rt, log)?.is_none());
    Ok(())
}

// Of 13 lines of a kind ten are written in a second, and then how many were left out. Lines of
// another kind are written meanwhile.
#[test]
fn many_lines_of_a_kind_are_left_out(rt: HostRuntime) -> Result<(), Fail> {
    let log = Log::new(rt.alloc(), Level::Notice);
    for number in 0..13 {
        log.write(
            &rt,
            None,
            Event::AcceptFailed,
            &[("number", Value::Number(number))],
        );
    }
    log.write(&rt, Some(3), Event::ServeFailed, &[]);
    for number in 0..10_u32 {
        let expected = format!(in rt.alloc(); "node=- warn accept_failed number={number}")?;
        expect_line(&rt, &log, expected.as_str())?;
    }
    expect_line(&rt, &log, "node=3 warn serve_failed")?;
    expect_no_line(&rt, &log)?;
    thread::sleep(&rt, Duration::from_millis(1_100));
    expect_line(
        &rt,
        &log,
        "node=- warn lines_left_out of=accept_failed count=3",
    )?;
    expect_no_line(&rt, &log)?;
    log.write(&rt, None, Event::AcceptFailed, &[]);
    expect_line(&rt, &log, "node=- warn accept_failed")
}

// No more than 128 lines wait, of whatever kind.
#[test]
fn unread_lines_are_left_out(rt: HostRuntime) -> Result<(), Fail> {
    let log = Log::new(rt.alloc(), Level::Notice);
    for _ in 0..130 {
        log.write(&rt, None, Event::Started, &[]);
    }
    for _ in 0..128 {
        expect_line(&rt, &log, "node=- notice started")?;
    }
    expect_no_line(&rt, &log)?;
    thread::sleep(&rt, Duration::from_millis(1_100));
    expect_line(&rt, &log, "node=- notice lines_left_out of=started count=2")
}
