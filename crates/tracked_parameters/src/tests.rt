//! Tables of names, values and texts.

ghost use Rattle.std.specs.Prelude.{IfOk};
ghost use Rattle.tracked_parameters.specs.Values.{Fit};

use crate::{
    NameError, Reported, Setting, TrackedNames, Values, agrees, asked_for, login_parameters,
    read_status, settings_query,
};
use std::alloc::Global;
use std::process::Abort;
use std::test::Fail;

// Values of which this one is known, as the body of a ParameterStatus has it.
fn noted<'a>(alloc: Global, names: &TrackedNames, bodies: &'a [&'a [u8]]) -> Result<Values, Fail>
    ensures { IfOk result (λ values. Fit names.now values) }
{
    let mut values = Values::new(alloc, names)?;
    for body in bodies {
        if let Some(setting) = read_status(body) {
            values.note(names, setting)?;
        }
    }
    Ok(values)
}

// Whether this value was found.
fn is_value(found: Option<&[u8]>, expected: &[u8]) -> bool {
    match found {
        Some(value) => value == expected,
        None => false,
    }
}

// A connection without values gets this one of `application_name` by a query with this constant.
fn assert_query(
    rt: &impl Abort,
    alloc: Global,
    names: &TrackedNames,
    value: &[u8],
    inside: &[u8],
) -> Result<(), Fail> {
    let mut body = Vec::new(alloc);
    body.extend_from_slice(b"application_name\0")?;
    body.extend_from_slice(value)?;
    body.push(0)?;
    let wanted = noted(alloc, names, &[&body])?;
    let mut text = Vec::new(alloc);
    text.extend_from_slice(b"SET application_name = E'")?;
    text.extend_from_slice(inside)?;
    text.extend_from_slice(b"'\0")?;
    assert_message(rt, alloc, names, &wanted, &noted(alloc, names, &[])?, &text)
}

// The query has this text, its zero byte included.
fn assert_message(
    rt: &impl Abort,
    alloc: Global,
    names: &TrackedNames,
    wanted: &Values,
    present: &Values,
    text: &[u8],
) -> Result<(), Fail>
    requires wanted { Fit names.now wanted.now }
    requires present { Fit names.now present.now }
{
    assert!(rt; !agrees(wanted, present));
    let Some(query) = settings_query(alloc, names, wanted, present)? else {
        panic!(rt; "no query");
    };
    let Some((head, found)) = query.split_at_checked(5) else {
        panic!(rt; "no message");
    };
    assert_eq!(rt; head[0], b'Q');
    assert_eq!(rt;
        u32::from_be_bytes([head[1], head[2], head[3], head[4]]) as usize,
        found.len() + 4
    );
    assert_eq!(rt; found, text);
    Ok(())
}

#[test]
fn several(rt: HostRuntime) -> Result<(), Fail> {
    let alloc = rt.alloc();
    let mut names = TrackedNames::new(alloc)?;
    names.add("my.value")?;
    let wanted: [&[u8]; 4] = [
        b"my.VALUE\0on\0",
        b"TimeZone\0Europe/Berlin\0",
        b"client_encoding\0LATIN1\0",
        b"datestyle\0ISO, DMY\0",
    ];
    let present: [&[u8]; 3] = [
        b"client_encoding\0UTF8\0",
        b"DateStyle\0ISO, DMY\0",
        b"IntervalStyle\0postgres\0",
    ];
    let wanted = noted(alloc, &names, &wanted)?;
    let present = noted(alloc, &names, &present)?;
    let text = b"SET client_encoding = E'LATIN1'; SET TimeZone = E'Europe/Berlin'; \
        SET my.value = E'on'\0";
    assert_message(&rt, alloc, &names, &wanted, &present, text)
}

#[test]
fn none_differs(rt: HostRuntime) -> Result<(), Fail> {
    let alloc = rt.alloc();
    let names = TrackedNames::new(alloc)?;
    let bodies: [&[u8]; 2] = [b"DateStyle\0ISO, DMY\0", b"TimeZone\0UTC\0"];
    let present = noted(alloc, &names, &bodies)?;
    let wanted = noted(alloc, &names, &[b"TimeZone\0GMT\0", b"TIMEZONE\0UTC\0"])?;
    assert!(rt; agrees(&wanted, &present));
    assert!(rt; !agrees(&present, &wanted));
    assert!(rt; settings_query(alloc, &names, &wanted, &present)?.is_none());
    Ok(())
}

#[test]
fn adopted(rt: HostRuntime) -> Result<(), Fail> {
    let alloc = rt.alloc();
    let names = TrackedNames::new(alloc)?;
    let asked: [&[u8]; 3] = [
        b"DateStyle\0iso\0",
        b"TimeZone\0utc\0",
        b"application_name\0x\0",
    ];
    let there: [&[u8]; 3] = [
        b"DateStyle\0ISO, MDY\0",
        b"TimeZone\0UTC\0",
        b"IntervalStyle\0postgres\0",
    ];
    let mut wanted = noted(alloc, &names, &asked)?;
    let present = noted(alloc, &names, &there)?;
    wanted.adopt(&present)?;
    assert!(rt; is_value(wanted.get(&names, b"DateStyle"), b"ISO, MDY"));
    assert!(rt; is_value(wanted.get(&names, b"timezone"), b"UTC"));
    assert!(rt; is_value(wanted.get(&names, b"application_name"), b"x"));
    assert!(rt; wanted.get(&names, b"IntervalStyle").is_none());
    assert!(rt; !agrees(&wanted, &present));
    Ok(())
}

// Names that are refused beside the six, and why.
const REFUSED: &[(&str, NameError)] = &[
    ("", NameError::Form),
    ("1a", NameError::Form),
    ("a b", NameError::Form),
    ("a'b", NameError::Form),
    ("a\"b", NameError::Form),
    ("a;b", NameError::Form),
    ("a-b", NameError::Form),
    ("a\0", NameError::Form),
    ("\u{e4}", NameError::Form),
    ("TimeZone", NameError::Twice),
    ("timezone", NameError::Twice),
    ("CLIENT_ENCODING", NameError::Twice),
];

fn assert_refused(rt: &impl Abort, names: &mut TrackedNames, name: &str, error: NameError) {
    let before = names.len();
    assert_eq!(rt; names.add(name), Err(error));
    assert_eq!(rt; names.len(), before);
}

fn assert_name(rt: &impl Abort, names: &TrackedNames, place: usize, expected: &str) {
    let Some(name) = names.get(place) else {
        panic!(rt; "no name at {place}");
    };
    assert_eq!(rt; name, expected);
}

#[test]
fn names(rt: HostRuntime) -> Result<(), Fail> {
    let mut names = TrackedNames::new(rt.alloc())?;
    for (name, error) in REFUSED {
        assert_refused(&rt, &mut names, name, *error);
    }
    names.add("search_path")?;
    names.add("_my.Value2")?;
    assert_refused(&rt, &mut names, "_MY.value2", NameError::Twice);
    assert_name(&rt, &names, 0, "client_encoding");
    assert_name(&rt, &names, 5, "application_name");
    assert_name(&rt, &names, 7, "_my.Value2");
    assert!(rt; names.get(8).is_none());
    assert_eq!(rt; names.place_of(b"Standard_Conforming_Strings"), Some(4));
    Ok(())
}

// Bodies that aren't of the form.
const NO_STATUS: &[&[u8]] = &[b"", b"a", b"\0", b"a\0", b"a\0b", b"a\0b\0c", b"a\0b\0\0"];

#[test]
fn statuses(rt: HostRuntime) {
    for body in NO_STATUS {
        assert!(rt; read_status(body).is_none());
    }
    let Some(setting) = read_status(b"a\0bc\0") else {
        panic!(rt; "no status");
    };
    assert_eq!(rt; setting.name, b"a".as_slice());
    assert_eq!(rt; setting.value, b"bc".as_slice());
    assert!(rt; read_status(b"\0\0").is_some());
}

// What a server reports at a login, the time zone twice.
const REPORTED: [&[u8]; 5] = [
    b"server_version\x0015.18\0",
    b"DateStyle\0ISO, MDY\0",
    b"TimeZone\0UTC\0",
    b"in_hot_standby\0off\0",
    b"timezone\0Etc/UTC\0",
];

#[test]
fn login(rt: HostRuntime) -> Result<(), Fail> {
    let alloc = rt.alloc();
    let names = TrackedNames::new(alloc)?;
    let mut reported = Reported::new(alloc);
    for body in &REPORTED {
        if let Some(setting) = read_status(body) {
            reported.note(setting)?;
        }
    }
    let wanted = noted(
        alloc,
        &names,
        &[b"datestyle\0German\0", b"application_name\0x\0"],
    )?;
    let found = login_parameters(alloc, &reported, &names, &wanted)?;
    let expected = b"S\0\0\0\x19server_version\x0015.18\0\
        S\0\0\0\x15DateStyle\0German\0\
        S\0\0\0\x15timezone\0Etc/UTC\0\
        S\0\0\0\x17in_hot_standby\0off\0";
    assert_eq!(rt; found.as_slice(), expected.as_slice());
    Ok(())
}

#[test]
fn asked(rt: HostRuntime) -> Result<(), Fail> {
    let alloc = rt.alloc();
    let names = TrackedNames::new(alloc)?;
    let sent = [
        Setting {
            name: b"options",
            value: b"-cDateStyle=German --application-name=a\\ b --timezone=UTC",
        },
        Setting {
            name: b"user",
            value: b"client_encoding",
        },
        Setting {
            name: b"TIMEZONE",
            value: b"GMT",
        },
    ];
    let values = asked_for(alloc, &names, &sent)?;
    assert!(rt; is_value(values.get(&names, b"DateStyle"), b"German"));
    assert!(rt; is_value(values.get(&names, b"application_name"), b"a b"));
    assert!(rt; is_value(values.get(&names, b"TimeZone"), b"GMT"));
    assert!(rt; values.get(&names, b"client_encoding").is_none());
    Ok(())
}
