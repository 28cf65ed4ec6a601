//! What servers report, cut anywhere, against what clients get.
use link_state::Watch;
use startup::Reports;
use std::alloc::Global;
use std::process::Abort;
use std::test::Fail;

// What PostgreSQL 15 sends to psql from its login on (`tools/transcripts`).
const LOGIN: &[u8; 410] = b"R\0\0\0\x08\0\0\0\0\
    S\0\0\0\x1aapplication_name\0psql\0\
    S\0\0\0\x19client_encoding\0UTF8\0\
    S\0\0\0\x17DateStyle\0ISO, MDY\0\
    S\0\0\0&default_transaction_read_only\0off\0\
    S\0\0\0\x17in_hot_standby\0off\0\
    S\0\0\0\x19integer_datetimes\0on\0\
    S\0\0\0\x1bIntervalStyle\0postgres\0\
    S\0\0\0\x15is_superuser\0off\0\
    S\0\0\0\x19server_encoding\0UTF8\0\
    S\0\0\x002server_version\x0015.18 (Debian 15.18-0+deb12u1)\0\
    S\0\0\0\x1esession_authorization\0app\0\
    S\0\0\0#standard_conforming_strings\0on\0\
    S\0\0\0\x15TimeZone\0Etc/UTC\0\
    K\0\0\0\x0c\0\0=\x18_\x13\xe5\xac\
    Z\0\0\0\x05I";

// A watch where clients get what that server reports, and this time zone.
fn watch(alloc: Global, zone: &str) -> Result<Watch, Fail> {
    let mut reports = Reports::new(alloc);
    reports.add("DateStyle", "ISO, MDY")?;
    reports.add("IntervalStyle", "postgres")?;
    reports.add("standard_conforming_strings", "on")?;
    reports.add("TimeZone", zone)?;
    Ok(Watch::new(alloc, &reports)?)
}

// What differs, each as bytes.
type Change<'a> = (&'a [u8], &'a [u8], &'a [u8]);

fn assert_none(rt: &impl Abort, watch: &Watch) {
    assert!(rt; watch.differs().is_none());
}

fn assert_change(rt: &impl Abort, watch: &Watch, expected: &Change<'_>) {
    let Some(change) = watch.differs() else {
        panic!(rt; "nothing differs");
    };
    assert_eq!(rt; change.name.as_bytes(), expected.0);
    assert_eq!(rt; change.told.as_bytes(), expected.1);
    assert_eq!(rt; change.reported, expected.2);
}

const OTHER_ZONE: Change<'static> = (b"TimeZone", b"Asia/Tokyo", b"Etc/UTC");

// The bytes are read in two parts.
fn read_cut(watch: &mut Watch, bytes: &[u8], at: usize) {
    let (front, back) = bytes.split_at(at.min(bytes.len()));
    watch.read(front);
    watch.read(back);
}

#[test]
fn cut_anywhere(rt: HostRuntime) -> Result<(), Fail> {
    for at in 0..411 {
        let mut same = watch(rt.alloc(), "Etc/UTC")?;
        read_cut(&mut same, LOGIN, at);
        assert_none(&rt, &same);
        let mut other = watch(rt.alloc(), "Asia/Tokyo")?;
        read_cut(&mut other, LOGIN, at);
        assert_change(&rt, &other, &OTHER_ZONE);
    }
    Ok(())
}

fn read_bytes(watch: &mut Watch, bytes: &[u8]) {
    for byte in bytes {
        watch.read(&[*byte]);
    }
}

// How many bytes of the login have been read once something differs.
fn first_change(watch: &mut Watch, bytes: &[u8]) -> usize {
    for (i, byte) in bytes.iter().enumerate() {
        watch.read(&[*byte]);
        if watch.differs().is_some() {
            return i + 1;
        }
    }
    0
}

#[test]
fn byte_by_byte(rt: HostRuntime) -> Result<(), Fail> {
    let mut same = watch(rt.alloc(), "Etc/UTC")?;
    read_bytes(&mut same, LOGIN);
    assert_none(&rt, &same);
    // With the last byte of the message, in front of the key's 13 bytes and ReadyForQuery's six.
    let mut other = watch(rt.alloc(), "Asia/Tokyo")?;
    assert_eq!(rt; first_change(&mut other, LOGIN), 391);
    assert_change(&rt, &other, &OTHER_ZONE);
    Ok(())
}

const TO_TOKYO: &[u8; 25] = b"S\0\0\0\x18TimeZone\0Asia/Tokyo\0";

const TO_UTC: &[u8; 22] = b"S\0\0\0\x15TimeZone\0Etc/UTC\0";

// The parts of a conversation, and whether something differs after each.
fn assert_parts(rt: &impl Abort, watch: &mut Watch, parts: &[(&[u8], bool)]) {
    for (bytes, differs) in parts {
        watch.read(bytes);
        assert_eq!(rt; watch.differs().is_some(), *differs);
    }
}

#[test]
fn change_and_back(rt: HostRuntime) -> Result<(), Fail> {
    let mut zone = watch(rt.alloc(), "Etc/UTC")?;
    assert_parts(
        &rt,
        &mut zone,
        &[
            (LOGIN, false),
            (b"C\0\0\0\x0aBEGIN\0Z\0\0\0\x05T", false),
            (TO_TOKYO, true),
            (b"C\0\0\0\x08SET\0Z\0\0\0\x05T", true),
            (TO_UTC, false),
            (b"C\0\0\0\x0dROLLBACK\0Z\0\0\0\x05I", false),
        ],
    );
    Ok(())
}

// Messages that aren't about a parameter that is watched: other names, another type.
#[test]
fn not_about_it(rt: HostRuntime) -> Result<(), Fail> {
    let mut zone = watch(rt.alloc(), "Etc/UTC")?;
    assert_parts(
        &rt,
        &mut zone,
        &[
            (b"S\0\0\0\x12TimeZon\0Tokyo\0", false),
            (b"S\0\0\0\x14TimeZones\0Tokyo\0", false),
            (b"S\0\0\0\x13timezone\0Tokyo\0", false),
            (b"S\0\0\0\x0cTimeZone", false),
            (b"S\0\0\0\x04", false),
            (b"D\0\0\0\x18TimeZone\0Asia/Tokyo\0", false),
            // An empty value differs.
            (b"S\0\0\0\x0eTimeZone\0\0", true),
            // What follows the value is passed over.
            (b"S\0\0\0\x17TimeZone\0Etc/UTC\0\0x", false),
            // The value may end with the message.
            (b"S\0\0\0\x14TimeZone\0Etc/UTC", false),
            (b"S\0\0\0\x13TimeZone\0Etc/UT", true),
        ],
    );
    Ok(())
}

// The encoding is watched where no parameters are reported.
#[test]
fn encoding(rt: HostRuntime) -> Result<(), Fail> {
    let mut latin = Watch::new(rt.alloc(), &Reports::new(rt.alloc()))?;
    latin.read(LOGIN);
    assert_none(&rt, &latin);
    latin.read(b"S\0\0\0\x1bclient_encoding\0LATIN1\0");
    assert_change(&rt, &latin, &(b"client_encoding", b"UTF8", b"LATIN1"));
    Ok(())
}

// So many times these bytes.
fn read_times(watch: &mut Watch, bytes: &[u8], times: usize) {
    for _ in 0..times {
        watch.read(bytes);
    }
}

// Of a long value this many bytes are kept: 64 more than `Etc/UTC` has.
#[test]
fn long_values(rt: HostRuntime) -> Result<(), Fail> {
    let mut zone = watch(rt.alloc(), "Etc/UTC")?;
    // 4 + 9 + 16,000 + 1 bytes.
    zone.read(b"S\0\0\x3e\x8eTimeZone\0");
    read_times(&mut zone, &[b'x'; 1000], 16);
    zone.read(b"\0");
    assert_change(&rt, &zone, &(b"TimeZone", b"Etc/UTC", &[b'x'; 71]));
    // One that begins as what clients get.
    zone.read(TO_UTC);
    assert_none(&rt, &zone);
    zone.read(b"S\0\0\x3e\x95TimeZone\0Etc/UTC");
    read_times(&mut zone, &[b'x'; 1000], 16);
    assert!(rt; watch_says_none(&zone));
    zone.read(b"\0");
    assert!(rt; !watch_says_none(&zone));
    Ok(())
}

fn watch_says_none(watch: &Watch) -> bool {
    watch.differs().is_none()
}

// Messages of 1 MB between two that are watched.
#[test]
fn long_messages(rt: HostRuntime) -> Result<(), Fail> {
    let mut zone = watch(rt.alloc(), "Etc/UTC")?;
    zone.read(TO_TOKYO);
    for kind in [b"D", b"S", b"d"] {
        zone.read(kind);
        // 4 + 1,024,000 bytes, none of which is looked at.
        zone.read(&[0, 0x0f, 0xa0, 4]);
        read_times(&mut zone, &[b'S'; 4096], 250);
    }
    assert!(rt; !watch_says_none(&zone));
    zone.read(TO_UTC);
    assert_none(&rt, &zone);
    Ok(())
}

// It sees nothing behind a length field below 4.
#[test]
fn broken(rt: HostRuntime) -> Result<(), Fail> {
    let mut zone = watch(rt.alloc(), "Etc/UTC")?;
    zone.read(b"S\0\0\0\x03");
    zone.read(TO_TOKYO);
    assert_none(&rt, &zone);
    Ok(())
}
