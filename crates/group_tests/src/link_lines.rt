//! The lines of the log about links and connections for cancel requests.
use crate::caller::Caller;
use crate::group::ANY_PORT;
use crate::host::TestHost;
use crate::reported::{LOGIN, PARIS_LOGIN, TOLD};
use crate::scripted::{Script, start};
use std::io::{ErrorKind, Read, Write};
use std::net::TcpListener;
use std::test::Fail;

const LOGIN_FAILED: &str = "warn link_login_failed";

// A server whose zone isn't what clients get: reading its login fails.
#[test]
fn another_value_is_in_the_log(rt: HostRuntime) -> Result<(), Fail> {
    const SCRIPTS: &[Script] = &[Script {
        login: PARIS_LOGIN,
        answers: &[],
    }];
    let listener = TcpListener::bind(&rt, ANY_PORT)?;
    let server = start(&rt, listener, SCRIPTS)?;
    let caller = Caller::new(&rt, server, TOLD)?;
    let mut link = caller.open(&rt)?;
    let mut buffer = [0; 1_024];
    match link.read(&mut buffer) {
        Ok(_) => return Err(Fail::from("a read that is to fail")),
        Err(error) => assert_eq!(&rt; error.kind(), ErrorKind::InvalidData),
    }
    let fields = "parameter=TimeZone reported=Europe/Paris told=UTC";
    caller.expect_line(&rt, LOGIN_FAILED, fields)
}

// A login is refused, and the log has these fields.
fn expect_refused<R: TestHost>(
    rt: &R,
    listener: TcpListener,
    scripts: &'static [Script],
    fields: &str,
) -> Result<(), Fail> {
    let server = start(rt, listener, scripts)?;
    let caller = Caller::new(rt, server, &[])?;
    caller.refused(rt)?;
    caller.expect_line(rt, LOGIN_FAILED, fields)
}

#[test]
fn refused_logins_are_in_the_log(rt: HostRuntime) -> Result<(), Fail> {
    const REFUSED: &[Script] = &[Script {
        login: b"E\0\0\0\x2cSFATAL\0VFATAL\0C53300\0Mtoo many clients\0\0",
        answers: &[],
    }];
    let listener = TcpListener::bind(&rt, ANY_PORT)?;
    expect_refused(
        &rt,
        listener,
        REFUSED,
        "code=53300 message=\"too many clients\"",
    )?;
    const ASKED: &[Script] = &[Script {
        login: b"R\0\0\0\x0c\0\0\0\x05\x01\x02\x03\x04",
        answers: &[],
    }];
    let fields = "error=\"the server asks for authentication\" method=5";
    let listener = TcpListener::bind(&rt, ANY_PORT)?;
    expect_refused(&rt, listener, ASKED, fields)
}

// Of an error whose rest doesn't come the log has what came, and nothing else.
#[test]
fn a_cut_refusal_is_in_the_log(rt: HostRuntime) -> Result<(), Fail> {
    const CUT: &[Script] = &[Script {
        login: b"E\0\0\0\x2cSFATAL\0VFATAL\0C53300\0Mtoo",
        answers: &[],
    }];
    let listener = TcpListener::bind(&rt, ANY_PORT)?;
    expect_refused(&rt, listener, CUT, "code=53300 message=\"\"")
}

// A server that ends the connection in place of an answer.
#[test]
fn an_ended_login_is_in_the_log(rt: HostRuntime) -> Result<(), Fail> {
    let listener = TcpListener::bind(&rt, ANY_PORT)?;
    let server = start(&rt, listener, &[])?;
    let caller = Caller::new(&rt, server, &[])?;
    let mut link = caller.open(&rt)?;
    let mut buffer = [0; 1_024];
    match link.read(&mut buffer) {
        Ok(count) => assert_eq!(&rt; count, 0),
        Err(error) => assert_eq!(&rt; error.kind(), ErrorKind::ConnectionReset),
    }
    caller.expect_error(&rt, LOGIN_FAILED)
}

// A server whose port is unused.
#[test]
fn a_missing_server_is_in_the_log(rt: HostRuntime) -> Result<(), Fail> {
    let listener = TcpListener::bind(&rt, ANY_PORT)?;
    let server = listener.local_addr()?.port();
    drop(listener);
    let caller = Caller::new(&rt, server, &[])?;
    caller.expect_unopened(&rt);
    caller.expect_error(&rt, "warn link_connect_failed")
}

// A link that its server ends while a client has it.
#[test]
fn a_lost_link_is_in_the_log(rt: HostRuntime) -> Result<(), Fail> {
    const SCRIPTS: &[Script] = &[Script {
        login: LOGIN,
        answers: &[],
    }];
    let listener = TcpListener::bind(&rt, ANY_PORT)?;
    let server = start(&rt, listener, SCRIPTS)?;
    let caller = Caller::new(&rt, server, TOLD)?;
    let mut link = caller.attached(&rt)?;
    caller.expect_no_line(&rt)?;
    link.write_all(b"Q\0\0\0\x06a\0")?;
    let mut buffer = [0; 1_024];
    assert_eq!(&rt; link.read(&mut buffer)?, 0);
    let fields = "error=\"the server ended the connection\"";
    caller.expect_line(&rt, "warn link_lost", fields)
}

// A link that isn't as it was left: its zone was changed, and stayed so.
#[test]
fn a_changed_link_is_in_the_log(rt: HostRuntime) -> Result<(), Fail> {
    const SCRIPTS: &[Script] = &[Script {
        login: LOGIN,
        answers: &[
            b"S\0\0\0\x11TimeZone\0UTC\0Z\0\0\0\x05I",
            b"S\0\0\0\x1aTimeZone\0Europe/Paris\0Z\0\0\0\x05I",
        ],
    }];
    let listener = TcpListener::bind(&rt, ANY_PORT)?;
    let server = start(&rt, listener, SCRIPTS)?;
    let caller = Caller::new(&rt, server, TOLD)?;
    let mut link = caller.attached(&rt)?;
    for is_quiet in [true, false] {
        link.write_all(b"Q\0\0\0\x06a\0")?;
        let mut buffer = [0; 1_024];
        let _count = link.read(&mut buffer)?;
        assert_eq!(&rt; caller.is_quiet(&link), is_quiet);
    }
    let client = caller.address();
    let fields = format!(in rt.alloc();
        "client={client} parameter=TimeZone reported=Europe/Paris told=UTC"
    )?;
    caller.expect_line(&rt, "warn link_closed", fields.as_str())
}

// A connection for a cancel request on which a byte comes, and one that ends cleanly.
#[test]
fn a_failed_cancel_is_in_the_log(rt: HostRuntime) -> Result<(), Fail> {
    const SCRIPTS: &[Script] = &[
        Script {
            login: b"N",
            answers: &[],
        },
        Script {
            login: b"",
            answers: &[],
        },
    ];
    let listener = TcpListener::bind(&rt, ANY_PORT)?;
    let server = start(&rt, listener, SCRIPTS)?;
    let caller = Caller::new(&rt, server, &[])?;
    let mut buffer = [0; 1_024];
    let mut failed = caller.open_cancel(&rt)?;
    assert_eq!(&rt; failed.read(&mut buffer)?, 1);
    let fields = "error=\"a byte came before the end\"";
    caller.expect_line(&rt, "warn cancel_failed", fields)?;
    let mut ended = caller.open_cancel(&rt)?;
    ended.write_all(b"\0")?;
    assert_eq!(&rt; ended.read(&mut buffer)?, 0);
    caller.expect_no_line(&rt)
}
