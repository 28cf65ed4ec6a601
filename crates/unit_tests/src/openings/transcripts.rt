//! First packets of real clients, and keys that a real server gave them (`tools/transcripts`).
use super::*;

// StartupMessages of psql (twice), of psycopg 2 and 3, and of pgjdbc: the database, how many bytes,
// and the bytes. The user is `app`.
const STARTUPS: [(&str, usize, &[u8]); 4] = [
    (
        "shop",
        54,
        b"\0\0\0\x36\0\x03\0\0user\0app\0database\0shop\0application_name\0psql\0\0",
    ),
    (
        "nowhere",
        57,
        b"\0\0\0\x39\0\x03\0\0user\0app\0database\0nowhere\0application_name\0psql\0\0",
    ),
    ("shop", 32, PSYCOPG),
    (
        "shop",
        105,
        b"\0\0\0\x69\0\x03\0\0user\0app\0database\0shop\0client_encoding\0UTF8\0\
        DateStyle\0ISO\0TimeZone\0Etc/UTC\0extra_float_digits\x002\0\0",
    ),
];

const PSYCOPG: &[u8; 32] = b"\0\0\0\x20\0\x03\0\0user\0app\0database\0shop\0\0";

#[test]
fn startups(rt: HostRuntime) -> Result<(), Fail> {
    for (database, used, text) in &STARTUPS {
        let mut opening = Opening::new(rt.alloc());
        begins_session(&rt, &mut opening, Kind::Short, "app", database, *used, text)?;
    }
    Ok(())
}

// psql asked for encryption first, in the same bytes as `SSL`, and then began its session.
#[test]
fn encryption_asked_first(rt: HostRuntime) -> Result<(), Fail> {
    let (database, used, text) = &STARTUPS[0];
    let mut opening = Opening::new(rt.alloc());
    assert!(rt; matches!(opening.read(SSL, false), Ok(First::Ssl)));
    begins_session(&rt, &mut opening, Kind::Short, "app", database, *used, text)?;
    Ok(())
}

// What a pooler asks a server for is what psycopg asked it for.
#[test]
fn asked_as_psycopg(rt: HostRuntime) -> Result<(), Fail> {
    let mut out = Vec::new(rt.alloc());
    write_startup("app", "shop", &mut out)?;
    assert_bytes(&rt, out.as_slice(), PSYCOPG.as_slice());
    Ok(())
}

// Keys of psql, psycopg 3 and pgjdbc; how the server ended the login in which it gave the key; and
// the CancelRequest that the client sent.
const CANCELS: [([u8; 8], &[u8; 19], &[u8; 16]); 3] = [
    (
        [0, 0, 0x3d, 0x18, 0x5f, 0x13, 0xe5, 0xac],
        b"K\0\0\0\x0c\0\0\x3d\x18\x5f\x13\xe5\xacZ\0\0\0\x05I",
        b"\0\0\0\x10\x04\xd2\x16\x2e\0\0\x3d\x18\x5f\x13\xe5\xac",
    ),
    (
        [0, 0, 0x3d, 0x85, 0x5d, 0xff, 0x38, 0x69],
        b"K\0\0\0\x0c\0\0\x3d\x85\x5d\xff\x38\x69Z\0\0\0\x05I",
        b"\0\0\0\x10\x04\xd2\x16\x2e\0\0\x3d\x85\x5d\xff\x38\x69",
    ),
    (
        [0, 0, 0x3e, 0xc8, 0x95, 0x3e, 0x43, 0xfd],
        b"K\0\0\0\x0c\0\0\x3e\xc8\x95\x3e\x43\xfdZ\0\0\0\x05I",
        b"\0\0\0\x10\x04\xd2\x16\x2e\0\0\x3e\xc8\x95\x3e\x43\xfd",
    ),
];

#[test]
fn cancels(rt: HostRuntime) -> Result<(), Fail> {
    for (key, ending, request) in &CANCELS {
        is_request(&rt, &mut Opening::new(rt.alloc()), request.as_slice());
        let written = write_cancel(AnyKey::from_short_bytes(*key));
        assert_bytes(&rt, written.as_slice(), request.as_slice());
        let login_key = AnyKey::from_short_bytes(*key);
        ends_login(
            &rt,
            Some(login_key),
            &Reports::new(rt.alloc()),
            ending.as_slice(),
        )?;
    }
    Ok(())
}
