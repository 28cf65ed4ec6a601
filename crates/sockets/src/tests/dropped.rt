//! The start-up parameters that have no effect.
use crate::put_dropped;
use startup::Reports;
use std::test::Fail;

// What follows a start-up packet's code, and the names that are found there.
const BODIES: [(&[u8], &[u8]); 20] = [
    (b"user\0ann\0database\0shop\0\0", b""),
    (b"user\0ann\0client_encoding\0UTF8\0\0", b""),
    (b"user\0ann\0search_path\0app\0\0", b"search_path"),
    (
        b"options\0-c a=b\0user\0ann\0TimeZone\0UTC\0\0",
        b"options,TimeZone",
    ),
    // Other encodings are told, and the names of this one in any letters aren't.
    (b"client_encoding\0utf-8\0\0", b""),
    (b"client_encoding\0LATIN1\0\0", b"client_encoding"),
    (b"application_name\0app\0\0", b""),
    // What logins report: DateStyle, in any letters.
    (b"DateStyle\0ISO, MDY\0\0", b""),
    (b"datestyle\0ISO, MDY\0\0", b""),
    (b"DateStyle\0ISO\0\0", b"DateStyle"),
    // The names that have an effect are written in small letters.
    (b"User\0ann\0\0", b"User"),
    // A value isn't a name.
    (b"user\0search_path\0\0", b""),
    // These aren't of the form.
    (b"", b""),
    (b"\0", b""),
    (b"search_path", b""),
    (b"search_path\0", b""),
    (b"search_path\0app", b""),
    (b"\0\0\0\0\0", b""),
    (b"a\0\0\0b\0c\0\0", b"a"),
    (b"\xff\x1b\n\0v\0\0", b"\xff\x1b\n"),
];

#[test]
fn names_are_found(rt: HostRuntime) -> Result<(), Fail> {
    let mut reports = Reports::new(rt.alloc());
    reports.add("DateStyle", "ISO, MDY")?;
    for (body, expected) in BODIES {
        let mut names = Vec::new(rt.alloc());
        put_dropped(body, &reports, &mut names)?;
        assert_eq!(&rt; names.as_slice(), expected);
    }
    Ok(())
}
