//! Why a server refuses a login, however its answer is cut.
use pg_frames::MessageLimit;
use session_io::{LinkError, LoginRefusal, NoListener, log_in};
use startup::error_field;
use std::alloc::Global;
use std::io;
use std::io::{Read, Write};
use std::process::Abort;
use std::sync::Wait;

// AuthenticationOk, requests for a password and for SASL, a ParameterStatus and an ErrorResponse
// (PostgreSQL manual, "Message Formats").
const AUTHENTICATED: &[u8] = b"R\0\0\0\x08\0\0\0\0";

const PASSWORD: &[u8] = b"R\0\0\0\x08\0\0\0\x03";

const SASL: &[u8] = b"R\0\0\0\x17\0\0\0\x0aSCRAM-SHA-256\0\0";

const STATUS: &[u8] = b"S\0\0\0\x11TimeZone\0UTC\0";

const ERROR: &[u8] = b"E\0\0\0\x2cSFATAL\0VFATAL\0C53300\0Mtoo many clients\0\0";

// A server that takes all that it is written, and gives these parts: one at a read, whole
// or a byte at a time. Then its input ends.
#[derive(Drop)]
struct Answers {
    parts: &'static [&'static [u8]],
    // The part that is given now, and how many of its bytes were given.
    at: usize,
    given: usize,
    is_whole: bool,
}

impl Read for Answers {
    fn read(&mut self, buffer: &mut [u8]) -> io::Result<usize> {
        let Some(part) = self.parts.get(self.at) else {
            return Ok(0);
        };
        let rest = part.get(self.given..).unwrap_or(&[]);
        let most = if self.is_whole { rest.len() } else { 1 };
        let count = rest.len().min(buffer.len()).min(most);
        for (place, byte) in buffer.iter_mut().zip(rest.split_at(count).0) {
            *place = *byte;
        }
        self.given = self.given.saturating_add(count);
        if self.given >= part.len() {
            self.at = self.at.saturating_add(1);
            self.given = 0;
        }
        Ok(count)
    }
}

impl Write for Answers {
    fn write(&mut self, bytes: &[u8]) -> io::Result<usize> {
        Ok(bytes.len())
    }

    fn flush(&mut self) -> io::Result<()> {
        Ok(())
    }
}

// What a login comes to at a server that answers so.
fn answer<R: Wait>(
    rt: &R,
    alloc: Global,
    parts: &'static [&'static [u8]],
    is_whole: bool,
) -> Result<(), LinkError> {
    let server = Answers {
        parts,
        at: 0,
        given: 0,
        is_whole,
    };
    match log_in(
        rt,
        alloc,
        &NoListener,
        MessageLimit::DEFAULT,
        server,
        "plain",
        "plain",
    ) {
        Ok(_logged) => Ok(()),
        Err(error) => Err(error),
    }
}

// The server asks for authentication by this code.
fn expect_asks<R: Wait + Abort>(rt: &R, alloc: Global, parts: &'static [&'static [u8]], code: u32) {
    for is_whole in [true, false] {
        match answer(rt, alloc, parts, is_whole) {
            Err(LinkError::Refused(LoginRefusal::Asks(asked))) => assert_eq!(rt; asked, code),
            _ => assert!(rt; false),
        }
    }
}

// The login fails without a word of the server.
fn expect_lost<R: Wait + Abort>(rt: &R, alloc: Global, parts: &'static [&'static [u8]]) {
    for is_whole in [true, false] {
        assert!(rt; matches!(&answer(rt, alloc, parts, is_whole), Err(LinkError::Lost)));
    }
}

// The server sends an error. This many bytes of its body are kept, with this code, if it has one.
fn expect_error<R: Wait + Abort>(
    rt: &R,
    alloc: Global,
    parts: &'static [&'static [u8]],
    length: usize,
    code: Option<&[u8]>,
) {
    for is_whole in [true, false] {
        match answer(rt, alloc, parts, is_whole) {
            Err(LinkError::Refused(LoginRefusal::Error(body))) => {
                assert_eq!(rt; body.len(), length);
                assert_eq!(rt; error_field(body.as_slice(), b'C'), code);
            }
            _ => assert!(rt; false),
        }
    }
}

#[test]
fn a_refusal_is_told(rt: HostRuntime) {
    let alloc = rt.alloc();
    expect_lost(&rt, alloc, &[AUTHENTICATED, STATUS]);
    expect_error(&rt, alloc, &[ERROR], 40, Some(b"53300"));
    expect_error(
        &rt,
        alloc,
        &[AUTHENTICATED, STATUS, ERROR],
        40,
        Some(b"53300"),
    );
    expect_error(
        &rt,
        alloc,
        &[b"R\0\0\0\x08\0\0\0\0E\0\0\0\x0cC53300\0\0"],
        8,
        Some(b"53300"),
    );
    expect_asks(&rt, alloc, &[PASSWORD, ERROR], 3);
    expect_asks(&rt, alloc, &[SASL], 10);
}

// An error is one once its head came, and its fields are found once they came.
#[test]
fn an_error_in_parts(rt: HostRuntime) {
    let alloc = rt.alloc();
    expect_lost(&rt, alloc, &[b"E\0\0\0"]);
    expect_error(&rt, alloc, &[b"E\0\0\0\x2c"], 0, None);
    expect_error(
        &rt,
        alloc,
        &[b"E\0\0\0\x2c", b"SFATAL\0VFATAL\0C"],
        15,
        None,
    );
    expect_error(
        &rt,
        alloc,
        &[
            b"E\0\0\0\x2c",
            b"SFATAL\0VFATAL\0C",
            b"53300\0Mtoo many clients\0\0",
        ],
        40,
        Some(b"53300"),
    );
}

// Of a long error 1,024 bytes are kept.
#[test]
fn a_long_error(rt: HostRuntime) {
    const LONG: &[u8; 1_100] = &[b'M'; 1_100];
    expect_error(&rt, rt.alloc(), &[b"E\0\x0f\xff\xff", LONG], 1_024, None);
}

// Once its code came an authentication request is a refusal, unless the user is authenticated.
#[test]
fn a_request_in_parts(rt: HostRuntime) {
    let alloc = rt.alloc();
    expect_lost(&rt, alloc, &[b"R\0\0\0\x17\0\0\0"]);
    expect_asks(&rt, alloc, &[b"R\0\0\0\x17\0\0\0", b"\x0a"], 10);
    expect_lost(&rt, alloc, &[b"R\0\0\0\x0c\0\0\0", b"\0"]);
}

// What is no message is no refusal.
#[test]
fn what_is_no_message_is_no_refusal(rt: HostRuntime) {
    let alloc = rt.alloc();
    expect_lost(&rt, alloc, &[b"R\0\0\0\0", AUTHENTICATED]);
    expect_lost(&rt, alloc, &[b"S\xff\xff\xff\xff", ERROR]);
}
