//! Logins head by head and body by body, every beginning of a whole login, and each call with
//! enough memory.
use link_state::{LinkAct, LinkError, LinkLogin, LoginHead, ServerKey};
use std::alloc::{AllocError, Global};
use std::process::Abort;
use std::test::Fail;

mod transcripts;

type Answer = Result<LinkAct, LinkError>;

const MORE: Answer = Ok(LinkAct::More);

const UP: Answer = Ok(LinkAct::Up(ServerKey([0, 0, 0, 1, 0, 0, 0, 2])));

const NO_KEY: Answer = Err(LinkError::NoKey);

const AUTH_ASKED: Answer = Err(LinkError::AuthAsked);

const SERVER_ERROR: Answer = Err(LinkError::ServerError);

const OUT_OF_PROFILE: Answer = Err(LinkError::OutOfProfile);

const STARTUP: &[u8; 32] = b"\0\0\0\x20\0\x03\0\0user\0ann\0database\0shop\0\0";

// AuthenticationOk, three ParameterStatus, BackendKeyData and ReadyForQuery.
const LOGIN: &[u8; 103] = b"R\0\0\0\x08\0\0\0\0\
    S\0\0\0\x16server_version\x0016\0\
    S\0\0\0\x19server_encoding\0UTF8\0\
    S\0\0\0\x19client_encoding\0UTF8\0\
    K\0\0\0\x0c\0\x08\0\0\0\0\0\x07\
    Z\0\0\0\x05I";

const OK: &[u8; 9] = b"R\0\0\0\x08\0\0\0\0";

const KEY: &[u8; 13] = b"K\0\0\0\x0c\0\0\0\x01\0\0\0\x02";

const IDLE: &[u8; 6] = b"Z\0\0\0\x05I";

fn login(alloc: Global) -> Result<LinkLogin, AllocError> {
    LinkLogin::new(alloc, "ann", "shop")
}

// What comes of a message of which this much of the body is there.
fn tell(login: &mut LinkLogin, kind: u8, length: usize, body: &[u8]) -> Answer {
    match login.on_head(kind, length)? {
        LoginHead::Skip => MORE,
        LoginHead::Body(n) => match body.get(..n) {
            Some(part) => login.on_body(part),
            None => MORE,
        },
    }
}

// What comes of the last of these messages, the last of which may be cut short anywhere.
fn feed(login: &mut LinkLogin, stream: &[u8]) -> Answer {
    let mut rest = stream;
    let mut act = LinkAct::More;
    for _ in 0..stream.len() {
        let [kind, a, b, c, d, body @ ..] = rest else {
            break;
        };
        let length = u32::from_be_bytes([*a, *b, *c, *d]) as usize;
        act = tell(login, *kind, length, body)?;
        rest = body.get(length.saturating_sub(4)..).unwrap_or(&[]);
    }
    Ok(act)
}

fn assert_answer(rt: &impl Abort, login: &mut LinkLogin, stream: &[u8], expected: &Answer) {
    assert_eq!(rt; feed(login, stream), *expected);
}

#[test]
fn up(rt: HostRuntime) -> Result<(), Fail> {
    let mut first = login(rt.alloc())?;
    assert_eq!(rt; first.first_bytes(), STARTUP.as_slice());
    assert_answer(&rt, &mut first, OK, &MORE);
    assert_answer(&rt, &mut first, KEY, &MORE);
    assert_answer(&rt, &mut first, IDLE, &UP);

    // The key that comes last.
    let mut second = login(rt.alloc())?;
    let other = b"K\0\0\0\x0c\0\0\0\x03\0\0\0\x04";
    assert_answer(&rt, &mut second, other, &MORE);
    assert_answer(&rt, &mut second, KEY, &MORE);
    assert_answer(&rt, &mut second, IDLE, &UP);
    Ok(())
}

// A login that has read AuthenticationOk and a key.
fn keyed(rt: &(impl Abort + AllocGlobal)) -> Result<LinkLogin, AllocError> {
    let mut login = login(rt.alloc())?;
    assert_answer(rt, &mut login, OK, &MORE);
    assert_answer(rt, &mut login, KEY, &MORE);
    Ok(login)
}

// The head of a message, and what comes of it, at the start and after a key alike.
const HEADS: &[(u8, usize, Result<LoginHead, LinkError>)] = &[
    (b'R', 8, Ok(LoginHead::Body(4))),
    (b'R', 9, Ok(LoginHead::Body(4))),
    (b'R', 1_048_576, Ok(LoginHead::Body(4))),
    (b'R', 7, Err(LinkError::OutOfProfile)),
    (b'S', 4, Ok(LoginHead::Skip)),
    (b'S', 1_048_576, Ok(LoginHead::Skip)),
    (b'N', 5, Ok(LoginHead::Skip)),
    (b'N', 1_048_576, Ok(LoginHead::Skip)),
    (b'K', 12, Ok(LoginHead::Body(8))),
    (b'K', 11, Err(LinkError::OutOfProfile)),
    (b'K', 13, Err(LinkError::OutOfProfile)),
    (b'Z', 5, Ok(LoginHead::Body(1))),
    (b'E', 4, Err(LinkError::ServerError)),
    (b'E', 1_048_576, Err(LinkError::ServerError)),
    (b'T', 6, Err(LinkError::OutOfProfile)),
    (b'v', 12, Err(LinkError::OutOfProfile)),
];

fn assert_login_head(
    rt: &impl Abort,
    login: &mut LinkLogin,
    kind: u8,
    length: usize,
    expected: &Result<LoginHead, LinkError>,
) {
    assert_eq!(rt; login.on_head(kind, length), *expected);
}

#[test]
fn heads(rt: HostRuntime) -> Result<(), Fail> {
    for (kind, length, expected) in HEADS {
        assert_login_head(&rt, &mut login(rt.alloc())?, *kind, *length, expected);
        assert_login_head(&rt, &mut keyed(&rt)?, *kind, *length, expected);
    }
    Ok(())
}

// A ReadyForQuery without one status byte.
#[test]
fn other_ready(rt: HostRuntime) -> Result<(), Fail> {
    for length in [4, 6] {
        let no_key = Err(LinkError::NoKey);
        assert_login_head(&rt, &mut login(rt.alloc())?, b'Z', length, &no_key);
        let out_of_profile = Err(LinkError::OutOfProfile);
        assert_login_head(&rt, &mut keyed(&rt)?, b'Z', length, &out_of_profile);
    }
    Ok(())
}

// One message, and what comes of it, at the start and after AuthenticationOk and a key alike.
const MESSAGES: [(&[u8], Answer); 18] = [
    (b"R\0\0\0\x08\0\0\0\0", MORE),
    (b"R\0\0\0\x0c\0\0\0\0more", MORE),
    (b"R\0\0\0\x08\0\0\0\x03", AUTH_ASKED),
    (b"R\0\0\0\x0c\0\0\0\x05salt", AUTH_ASKED),
    (b"R\0\0\0\x17\0\0\0\x0aSCRAM-SHA-256\0\0", AUTH_ASKED),
    (b"R\0\0\0\x08\x01\0\0\0", AUTH_ASKED),
    (b"R\0\0\0\x08\xff\xff\xff\xff", AUTH_ASKED),
    (b"R\0\0\0\x07\0\0\0", OUT_OF_PROFILE),
    (b"R\0\0\0\x04", OUT_OF_PROFILE),
    (b"S\0\0\0\x08a\0b\0", MORE),
    (b"S\0\0\0\x04", MORE),
    (b"N\0\0\0\x05\0", MORE),
    (b"K\0\0\0\x0c\0\0\0\x01\0\0\0\x02", MORE),
    (b"K\0\0\0\x0b\0\0\0\x01\0\0\0", OUT_OF_PROFILE),
    (b"K\0\0\0\x04", OUT_OF_PROFILE),
    (b"E\0\0\0\x0dSFATAL\0\0", SERVER_ERROR),
    (b"T\0\0\0\x06\0\0", OUT_OF_PROFILE),
    (b"z\0\0\0\x05I", OUT_OF_PROFILE),
];

// What comes of this message, and of each further one: what was refused is refused in the same way
// from then on, and whatever comes after the login is out of profile.
fn assert_message(rt: &impl Abort, login: &mut LinkLogin, message: &[u8], expected: &Answer) {
    assert_answer(rt, login, message, expected);
    let then = match expected {
        Ok(LinkAct::More) => return,
        Ok(LinkAct::Up(_)) => &OUT_OF_PROFILE,
        Err(_) => expected,
    };
    assert_answer(rt, login, KEY, then);
    assert_answer(rt, login, IDLE, then);
    assert_answer(rt, login, message, then);
}

#[test]
fn messages(rt: HostRuntime) -> Result<(), Fail> {
    for (message, expected) in &MESSAGES {
        assert_message(&rt, &mut login(rt.alloc())?, message, expected);
        assert_message(&rt, &mut keyed(&rt)?, message, expected);
    }
    Ok(())
}

// A ReadyForQuery, and what comes of it after AuthenticationOk and a key. At the start there is no
// key.
const READY: [(&[u8], Answer); 6] = [
    (b"Z\0\0\0\x05I", UP),
    (b"Z\0\0\0\x05T", OUT_OF_PROFILE),
    (b"Z\0\0\0\x05E", OUT_OF_PROFILE),
    (b"Z\0\0\0\x05i", OUT_OF_PROFILE),
    (b"Z\0\0\0\x04", OUT_OF_PROFILE),
    (b"Z\0\0\0\x06II", OUT_OF_PROFILE),
];

#[test]
fn ready(rt: HostRuntime) -> Result<(), Fail> {
    for (message, expected) in &READY {
        assert_message(&rt, &mut login(rt.alloc())?, message, &NO_KEY);
        assert_message(&rt, &mut keyed(&rt)?, message, expected);
    }
    Ok(())
}

// A login that has read these whole messages is not up before it has read more than a beginning.
fn assert_beginnings(
    rt: &(impl Abort + AllocGlobal),
    before: &[&[u8]],
    stream: &[u8],
) -> Result<(), AllocError> {
    for end in 0..stream.len() {
        let mut login = login(rt.alloc())?;
        for messages in before {
            assert_answer(rt, &mut login, messages, &MORE);
        }
        assert_answer(rt, &mut login, &stream[..end], &MORE);
    }
    Ok(())
}

#[test]
fn beginnings(rt: HostRuntime) -> Result<(), Fail> {
    assert_beginnings(&rt, &[], LOGIN)?;
    let key = ServerKey([0, 8, 0, 0, 0, 0, 0, 7]);
    let mut login = login(rt.alloc())?;
    assert_answer(&rt, &mut login, LOGIN, &Ok(LinkAct::Up(key)));
    Ok(())
}

// These bytes of a body decide nothing.
fn assert_body(rt: &impl Abort, login: &mut LinkLogin, bytes: &[u8]) {
    assert_eq!(rt; login.on_body(bytes), MORE);
}

// Bytes that no head asked for change nothing, nor does a head while bytes are to come.
#[test]
fn out_of_turn(rt: HostRuntime) -> Result<(), Fail> {
    let mut login = login(rt.alloc())?;
    let body = Ok(LoginHead::Body(8));
    assert_body(&rt, &mut login, b"I");
    assert_login_head(&rt, &mut login, b'K', 12, &body);
    assert_body(&rt, &mut login, b"\0\0\0\x01");
    assert_login_head(&rt, &mut login, b'E', 4, &body);
    assert_body(&rt, &mut login, b"\0\0\0\x01\0\0\0\x02");
    assert_answer(&rt, &mut login, IDLE, &UP);
    Ok(())
}

const ERRORS: [(LinkError, u8, &str); 4] = [
    (
        LinkError::NoKey,
        50,
        "the server was ready before it gave a cancel key",
    ),
    (
        LinkError::AuthAsked,
        51,
        "the server asked for authentication",
    ),
    (
        LinkError::ServerError,
        52,
        "the server answered the login with an error",
    ),
    (
        LinkError::OutOfProfile,
        53,
        "the server sent a message that is no part of a login in this profile",
    ),
];

#[test]
fn errors(rt: HostRuntime) -> Result<(), Fail> {
    for (error, number, text) in ERRORS {
        assert_eq!(rt; error.number(), number);
        assert_eq!(rt; format!(in rt.alloc(); "{error}")?.as_str(), text);
    }
    Ok(())
}
