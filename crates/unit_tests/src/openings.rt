//! Bytes worked out by hand from the PostgreSQL manual's message formats.
use crate::checks::{assert_bytes, assert_same};
use pg_ids::{AnyKey, Kind};
use startup::{
    ErrorCode, First, Opening, Reports, Severity, StartupError, write_cancel, write_error,
    write_login, write_startup,
};
use std::alloc::{AllocError, Global};
use std::process::Abort;
use std::test::Fail;

mod refusal_texts;
mod reports;
mod transcripts;

const CANCEL: &[u8; 16] = b"\0\0\0\x10\x04\xd2\x16\x2e\0\x08\0\0\0\0\0\x07";

// That of a long key whose boot and serial are 0.
const LONG_CANCEL: &[u8; 32] = b"\0\0\0\x20\x04\xd2\x16\x2e\0\x08\0\0\0\0\0\x07\
    \0\0\0\0\0\0\0\0\0\0\0\0\0\0\0\0";

const SSL: &[u8; 8] = b"\0\0\0\x08\x04\xd2\x16\x2f";

const GSS: &[u8; 8] = b"\0\0\0\x08\x04\xd2\x16\x30";

const STARTUP: &[u8; 32] = b"\0\0\0\x20\0\x03\0\0user\0ann\0database\0shop\0\0";

// Texts that are refused: the number, where it is decided, the bytes.
const REFUSED: &[(u8, usize, &[u8])] = &[
    (1, 4, b"\0\0\0\x07"),
    (1, 4, b"\0\0\0\0\0\x03\0\0"),
    (2, 4, b"\0\0\x27\x11"),
    (2, 4, b"\xff\xff\xff\xff\0\x03\0\0"),
    (2, 8, b"\0\0\0\x09\x04\xd2\x16\x2f\0"),
    (2, 8, b"\0\0\0\x09\x04\xd2\x16\x30\0"),
    (3, 8, b"\0\0\0\x09\0\x03\0\x01\0"),
    (3, 8, b"\0\0\0\x09\0\x03\0\x03\0"),
    (3, 8, b"\0\0\0\x08\0\0\0\0"),
    (4, 8, b"\0\0\0\x08\0\x03\0\0"),
    // The zero byte that ends the parameters isn't the last.
    (4, 10, b"\0\0\0\x0a\0\x03\0\0\0\0"),
    // The parameters don't end: behind a pair, within a value, behind another pair.
    (4, 11, b"\0\0\0\x0b\0\x03\0\0a\0\0"),
    (4, 12, b"\0\0\0\x0c\0\x03\0\0a\0bc"),
    (4, 12, b"\0\0\0\x0c\0\x03\0\0a\0b\0"),
    // No UTF-8, in a name and in a value.
    (4, 13, b"\0\0\0\x0d\0\x03\0\0\xc3\0b\0\0"),
    (4, 16, b"\0\0\0\x10\0\x03\0\0user\0\x80\0\0"),
    // A name twice: without a user, a fault that is judged later, and with one.
    (4, 16, b"\0\0\0\x10\0\x03\0\0a\0\0a\0b\0\0"),
    (4, 26, b"\0\0\0\x1a\0\x03\0\0user\0a\0x\0\0user\0b\0\0"),
    // Names that may not be set.
    (4, 24, b"\0\0\0\x18\0\x03\0\0user\0a\0_pq_.\0b\0\0"),
    (4, 29, b"\0\0\0\x1d\0\x03\0\0user\0a\0replication\0\0\0"),
    (5, 9, b"\0\0\0\x09\0\x03\0\0\0"),
    (5, 15, b"\0\0\0\x0f\0\x03\0\0user\0\0\0"),
    (5, 23, b"\0\0\0\x17\0\x03\0\0database\0shop\0\0"),
    (6, 8, b"\0\0\0\x0f\x04\xd2\x16\x2e\0\x08\0\0\0\0\0"),
    (6, 8, b"\0\0\0\x11\x04\xd2\x16\x2e\0\x08\0\0\0\0\0\x07\0"),
    (6, 8, b"\0\0\0\x18\x04\xd2\x16\x2e"),
    (6, 8, b"\0\0\0\x1f\x04\xd2\x16\x2e"),
    (6, 8, b"\0\0\0\x21\x04\xd2\x16\x2e"),
    // The same faults where a long key is asked for.
    (4, 10, b"\0\0\0\x0a\0\x03\0\x02\0\0"),
    (5, 9, b"\0\0\0\x09\0\x03\0\x02\0"),
];

// The number of a refusal, 0 where there is none.
fn refusal_of(answer: &Result<First, StartupError>) -> u8 {
    match answer {
        Ok(_) => 0,
        Err(error) => error.number(),
    }
}

// Up to a place nothing is decided, and from there on the refusal.
fn refused_from(rt: &impl Abort, opening: &mut Opening, number: u8, from: usize, text: &[u8]) {
    for end in 0..=text.len() {
        let so_far = &text[..end];
        for at_end in [false, true] {
            let answer = opening.read(so_far, at_end);
            if end >= from {
                assert_eq!(rt; refusal_of(&answer), number, "at {end} of {text:?}");
            } else if at_end {
                assert_eq!(rt; refusal_of(&answer), 8, "at {end} of {text:?}");
            } else {
                assert!(rt; matches!(answer, Ok(First::More)), "at {end} of {text:?}");
            }
        }
    }
}

#[test]
fn refusals(rt: HostRuntime) {
    for (number, from, text) in REFUSED {
        refused_from(&rt, &mut Opening::new(rt.alloc()), *number, *from, text);
    }
}

#[test]
fn negotiations(rt: HostRuntime) {
    for (first, second) in [(SSL, GSS), (GSS, SSL)] {
        let mut opening = Opening::new(rt.alloc());
        assert!(rt; matches!(opening.read(&first[..7], false), Ok(First::More)));
        let answer = opening.read(first, false);
        assert!(rt; matches!(answer, Ok(First::Ssl | First::Gss)));
        refused_from(&rt, &mut opening, 7, 8, first);
        let other = opening.read(second, true);
        assert!(rt; matches!(other, Ok(First::Ssl | First::Gss)) && other != answer);
        refused_from(&rt, &mut opening, 7, 8, first);
        refused_from(&rt, &mut opening, 7, 8, second);
        // A second request is refused as such, even with a length of 9.
        assert_eq!(rt;
            refusal_of(&opening.read(b"\0\0\0\x09\x04\xd2\x16\x2f", false)),
            7
        );
        assert!(rt; matches!(opening.read(CANCEL, false), Ok(First::Cancel { .. })));
    }
}

// Whether the answer is the CancelRequest of a key with these bytes.
fn is_cancel_of(answer: &Result<First, StartupError>, bytes: &[u8]) -> bool {
    match answer {
        Ok(First::Cancel { key }) => key.to_bytes().as_slice() == bytes,
        _ => false,
    }
}

// A request is read as that of its key once it is whole, whatever follows.
fn is_request(rt: &impl Abort, opening: &mut Opening, request: &[u8]) {
    for end in 0..request.len() {
        assert!(rt; matches!(opening.read(&request[..end], false), Ok(First::More)));
        assert_eq!(rt; refusal_of(&opening.read(&request[..end], true)), 8);
    }
    for at_end in [false, true] {
        let answer = opening.read(request, at_end);
        assert!(rt; is_cancel_of(&answer, request.get(8..).unwrap_or(b"")));
    }
}

#[test]
fn cancel_requests(rt: HostRuntime) {
    let mut opening = Opening::new(rt.alloc());
    is_request(&rt, &mut opening, CANCEL);
    is_request(&rt, &mut opening, LONG_CANCEL);
    let followed = b"\0\0\0\x10\x04\xd2\x16\x2e\0\x08\0\0\0\0\0\x07more";
    let key = [0, 8, 0, 0, 0, 0, 0, 7];
    assert!(rt; is_cancel_of(&opening.read(followed, false), &key));
}

// A key of 24 bytes that begins as this one; its boot and serial are 0.
fn longer(first: &[u8; 8]) -> AnyKey {
    let mut bytes = [0; 24];
    bytes[..8].copy_from_slice(first);
    AnyKey::from_long_bytes(bytes)
}

#[test]
fn written_cancel_requests(rt: HostRuntime) {
    let bytes = [0, 8, 0, 0, 0, 0, 0, 7];
    let short = write_cancel(AnyKey::from_short_bytes(bytes));
    assert_bytes(&rt, short.as_slice(), CANCEL.as_slice());
    let long = write_cancel(longer(&bytes));
    assert_bytes(&rt, long.as_slice(), LONG_CANCEL.as_slice());
}

// The header of a CancelRequest of this length.
fn cancel_header(length: u32) -> [u8; 8] {
    let mut header = [0, 0, 0, 0, 4, 0xd2, 0x16, 0x2e];
    header[..4].copy_from_slice(&length.to_be_bytes());
    header
}

// A CancelRequest of any length but 16 and 32 is refused by its header.
#[test]
fn cancel_lengths(rt: HostRuntime) {
    let mut opening = Opening::new(rt.alloc());
    for length in 8..10001u32 {
        let number = if length == 16 || length == 32 { 0 } else { 6 };
        let answer = opening.read(&cancel_header(length), false);
        assert_eq!(rt; refusal_of(&answer), number, "at length {length}");
    }
}

// Texts that begin a session: the kind of key, user, database, used, the bytes.
const SESSIONS: &[(Kind, &str, &str, usize, &[u8])] = &[
    (Kind::Short, "ann", "shop", 32, STARTUP),
    (
        Kind::Short,
        "ann",
        "shop",
        32,
        b"\0\0\0\x20\0\x03\0\0user\0ann\0database\0shop\0\0Q\0\0\0\x04",
    ),
    (
        Kind::Short,
        "ann",
        "shop",
        32,
        b"\0\0\0\x20\0\x03\0\0database\0shop\0user\0ann\0\0",
    ),
    // Protocol 3.2.
    (
        Kind::Long,
        "ann",
        "shop",
        32,
        b"\0\0\0\x20\0\x03\0\x02user\0ann\0database\0shop\0\0",
    ),
    (
        Kind::Short,
        "a",
        "a",
        16,
        b"\0\0\0\x10\0\x03\0\0user\0a\0\0",
    ),
    (
        Kind::Long,
        "a",
        "a",
        26,
        b"\0\0\0\x1a\0\x03\0\x02user\0a\0database\0\0\0",
    ),
    // Other names are passed over, and so is one that only begins like a reserved one.
    (
        Kind::Short,
        "a",
        "a",
        26,
        b"\0\0\0\x1a\0\x03\0\0user\0a\0_pq_\0\0x\0y\0\0",
    ),
    (
        Kind::Short,
        "\u{e9}",
        "\u{e9}",
        17,
        b"\0\0\0\x11\0\x03\0\0user\0\xc3\xa9\0\0",
    ),
];

// The text begins a session with this user and this database once its first `used` bytes are there,
// whatever follows.
fn begins_session(
    rt: &(impl Abort + AllocGlobal),
    opening: &mut Opening,
    kind: Kind,
    user: &str,
    database: &str,
    used: usize,
    text: &[u8],
) -> Result<(), Fail> {
    for end in 0..used {
        let so_far = text.get(..end).unwrap_or(b"");
        assert!(rt; matches!(opening.read(so_far, false), Ok(First::More)));
        assert_eq!(rt; refusal_of(&opening.read(so_far, true)), 8);
    }
    for at_end in [false, true] {
        let expected = First::Startup {
            kind,
            user: String::from_str(rt.alloc(), user)?,
            database: String::from_str(rt.alloc(), database)?,
            used,
        };
        assert_eq!(rt; opening.read(text, at_end)?, expected);
    }
    Ok(())
}

#[test]
fn sessions(rt: HostRuntime) -> Result<(), Fail> {
    for (kind, user, database, used, text) in SESSIONS {
        let mut opening = Opening::new(rt.alloc());
        begins_session(&rt, &mut opening, *kind, user, database, *used, text)?;
    }
    Ok(())
}

#[test]
fn longest_packet(rt: HostRuntime) -> Result<(), Fail> {
    let mut text = vec![in rt.alloc(); b'a'; 10000]?;
    text[..13].copy_from_slice(b"\0\0\x27\x10\0\x03\0\0user\0");
    text[9998..].copy_from_slice(b"\0\0");
    let answer = Opening::new(rt.alloc()).read(&text, false)?;
    assert!(rt; matches!(answer, First::Startup { used: 10000, .. }));
    Ok(())
}

// A parameter whose name is two characters that depend on a number below 14,400.
fn push_parameter(text: &mut Vec<u8>, number: u16) -> Result<(), AllocError> {
    text.extend_from_slice(&[
        (number % 120) as u8 + 1,
        (number / 120 % 120) as u8 + 1,
        0,
        0,
    ])
}

// A packet of the greatest length with as many such parameters as it can hold, and one more.
fn many_names(alloc: Global, last: u16) -> Result<Vec<u8>, AllocError> {
    let mut text = b"\0\0\x27\x10\0\x03\0\0".to_vec(alloc)?;
    for number in 0..2496 {
        push_parameter(&mut text, number)?;
    }
    push_parameter(&mut text, last)?;
    text.extend_from_slice(b"x\0\0\0")?;
    Ok(text)
}

// The text is refused with this number before its end is known.
fn assert_refusal(rt: &impl Abort, opening: &mut Opening, text: &[u8], number: u8) {
    let answer = opening.read(text, false);
    assert_same(rt, refusal_of(&answer), number);
}

#[test]
fn longest_list_of_names(rt: HostRuntime) -> Result<(), Fail> {
    for (number, last) in [(5, 2496), (4, 2495), (4, 0)] {
        let text = many_names(rt.alloc(), last)?;
        assert_same(&rt, text.len(), 10000);
        let mut opening = Opening::new(rt.alloc());
        assert_refusal(&rt, &mut opening, text.as_slice(), number);
    }
    Ok(())
}

const GREETING: &[u8; 84] = b"R\0\0\0\x08\0\0\0\0S\0\0\0\x16server_version\016\0\
    S\0\0\0\x19server_encoding\0UTF8\0S\0\0\0\x19client_encoding\0UTF8\0";

// The key of the worked logins with boot 1 and serial 515.
const LONG_KEY: [u8; 24] = [
    0, 8, 0, 0, 0, 0, 0, 7, 0, 0, 0, 0, 0, 0, 0, 1, 0, 0, 0, 0, 0, 0, 2, 3,
];

// The login is the greeting, and then this.
fn assert_login(rt: &impl Abort, login: &[u8], ending: &[u8]) {
    assert!(rt; login.len() >= 84);
    assert_bytes(rt, &login[..84], GREETING.as_slice());
    assert_bytes(rt, &login[84..], ending);
}

// A login with this key that reports these ends so.
fn ends_login(
    rt: &(impl Abort + AllocGlobal),
    key: Option<AnyKey>,
    reports: &Reports,
    ending: &[u8],
) -> Result<(), StartupError> {
    let mut out = Vec::new(rt.alloc());
    write_login(key, reports, &mut out)?;
    assert_login(rt, out.as_slice(), ending);
    Ok(())
}

#[test]
fn logins(rt: HostRuntime) -> Result<(), Fail> {
    let short = AnyKey::from_short_bytes([0, 8, 0, 0, 0, 0, 0, 7]);
    let long = AnyKey::from_long_bytes(LONG_KEY);
    let none = Reports::new(rt.alloc());
    ends_login(
        &rt,
        Some(short),
        &none,
        b"K\0\0\0\x0c\0\x08\0\0\0\0\0\x07Z\0\0\0\x05I",
    )?;
    ends_login(
        &rt,
        Some(long),
        &none,
        b"K\0\0\0\x1c\0\x08\0\0\0\0\0\x07\0\0\0\0\0\0\0\x01\0\0\0\0\0\0\x02\x03Z\0\0\0\x05I",
    )?;
    ends_login(&rt, None, &none, b"Z\0\0\0\x05I")?;
    Ok(())
}

// What is written stands behind what was there.
#[test]
fn replies(rt: HostRuntime) -> Result<(), Fail> {
    let error = b"E\0\0\0\x2cSFATAL\0VFATAL\0C3D000\0Mno such database\0\0";
    let code = ErrorCode::InvalidCatalogName;
    let mut out = Vec::new(rt.alloc());
    write_error(Severity::Fatal, code.code(), code.message(), &mut out)?;
    assert_eq!(rt; out.as_slice(), error.as_slice());
    write_startup("ann", "shop", &mut out)?;
    assert_eq!(rt; out.len(), 77);
    assert_eq!(rt; &out[45..], STARTUP.as_slice());
    Ok(())
}

// The errors of a pooler: condition, code, message.
const ERRORS: &[(ErrorCode, &str, &str)] = &[
    (ErrorCode::ProtocolViolation, "08P01", "protocol violation"),
    (
        ErrorCode::FeatureNotSupported,
        "0A000",
        "not in this profile",
    ),
    (ErrorCode::InvalidCatalogName, "3D000", "no such database"),
    (ErrorCode::TooManyConnections, "53300", "too many clients"),
    (ErrorCode::OutOfMemory, "53200", "out of memory"),
    (
        ErrorCode::ConnectionFailure,
        "08006",
        "server connection lost",
    ),
    (ErrorCode::InvalidAuthorization, "28000", "no user name"),
    (ErrorCode::AdminShutdown, "57P01", "node restarted"),
    (ErrorCode::QueryCanceled, "57014", "query canceled"),
];

#[test]
fn error_texts(rt: HostRuntime) {
    for (error, code, message) in ERRORS {
        assert_eq!(rt; error.code(), *code);
        assert_eq!(rt; error.message(), *message);
    }
    assert_eq!(rt; Severity::Error.text(), "ERROR");
    assert_eq!(rt;
        StartupError::NoUser.error_code(),
        Some(ErrorCode::InvalidAuthorization)
    );
    assert_eq!(rt; StartupError::Truncated.error_code(), None);
}
