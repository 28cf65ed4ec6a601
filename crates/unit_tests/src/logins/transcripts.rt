//! Logins of real clients at a real server (`tools/transcripts`). The keys are those that the
//! clients sent in their CancelRequests.
use super::*;

// What the server reports to every client.
const REPORTED: &[u8; 355] = b"S\0\0\0\x19client_encoding\0UTF8\0\
    S\0\0\0\x17DateStyle\0ISO, MDY\0\
    S\0\0\0&default_transaction_read_only\0off\0\
    S\0\0\0\x17in_hot_standby\0off\0\
    S\0\0\0\x19integer_datetimes\0on\0\
    S\0\0\0\x1bIntervalStyle\0postgres\0\
    S\0\0\0\x15is_superuser\0off\0\
    S\0\0\0\x19server_encoding\0UTF8\0\
    S\0\0\x002server_version\x0015.18 (Debian 15.18-0+deb12u1)\0\
    S\0\0\0\x1esession_authorization\0app\0\
    S\0\0\0#standard_conforming_strings\0on\0\
    S\0\0\0\x15TimeZone\0Etc/UTC\0";

// What it sends before that and after it, and the key: to psql, to psycopg 3 and to pgjdbc.
const LOGINS: [(&[u8], &[u8], ServerKey); 3] = [
    (
        b"R\0\0\0\x08\0\0\0\0\
        S\0\0\0\x1aapplication_name\0psql\0",
        b"K\0\0\0\x0c\0\0=\x18_\x13\xe5\xac\
        Z\0\0\0\x05I",
        ServerKey([0, 0, 0x3d, 0x18, 0x5f, 0x13, 0xe5, 0xac]),
    ),
    (
        b"R\0\0\0\x08\0\0\0\0\
        S\0\0\0\x16application_name\0\0",
        b"K\0\0\0\x0c\0\0=\x85]\xff8i\
        Z\0\0\0\x05I",
        ServerKey([0, 0, 0x3d, 0x85, 0x5d, 0xff, 0x38, 0x69]),
    ),
    (
        b"R\0\0\0\x08\0\0\0\0\
        S\0\0\0\x16application_name\0\0",
        b"K\0\0\0\x0c\0\0>\xc8\x95>C\xfd\
        Z\0\0\0\x05I",
        ServerKey([0, 0, 0x3e, 0xc8, 0x95, 0x3e, 0x43, 0xfd]),
    ),
];

// A database that isn't there.
const NOWHERE: &[u8; 102] = b"R\0\0\0\x08\0\0\0\0\
    E\0\0\0\\SFATAL\0VFATAL\0C3D000\0Mdatabase \"nowhere\" does not exist\0\
    Fpostinit.c\0L948\0RInitPostgres\0\0";

#[test]
fn logins(rt: HostRuntime) -> Result<(), Fail> {
    for (first, last, key) in &LOGINS {
        let mut login = login(rt.alloc())?;
        assert_answer(&rt, &mut login, first, &MORE);
        assert_answer(&rt, &mut login, REPORTED, &MORE);
        assert_answer(&rt, &mut login, last, &Ok(LinkAct::Up(*key)));
    }
    let mut refused = login(rt.alloc())?;
    assert_answer(&rt, &mut refused, NOWHERE, &SERVER_ERROR);
    Ok(())
}

#[test]
fn beginnings(rt: HostRuntime) -> Result<(), Fail> {
    for (first, last, _) in &LOGINS {
        assert_beginnings(&rt, &[], first)?;
        assert_beginnings(&rt, &[first], REPORTED)?;
        assert_beginnings(&rt, &[first, REPORTED], last)?;
    }
    Ok(())
}
