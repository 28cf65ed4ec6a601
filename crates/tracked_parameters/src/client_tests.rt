//! Clients at server connections.

ghost use Rattle.std.specs.Prelude.{◌≡◌, length};
ghost use Rattle.tracked_parameters.specs.Values.{Fit};

use crate::{ClientValues, ServerValues, TrackedNames, ValueError, Values, read_status};
use std::alloc::Global;
use std::process::Abort;

// What servers report at a login. An older one doesn't report the style of dates.
const LOGIN: &[&[u8]] = &[
    b"DateStyle\0ISO, MDY\0",
    b"application_name\0\0",
    b"server_version\x0015.18\0",
    b"TimeZone\0UTC\0",
];

const OLDER: &[&[u8]] = &[b"TimeZone\0GMT\0", b"application_name\0\0"];

fn names(rt: &impl Abort, alloc: Global) -> TrackedNames {
    match TrackedNames::new(alloc) {
        Ok(names) => names,
        Err(_) => panic!(rt; "out of memory"),
    }
}

// The server reports these, as bodies of ParameterStatus messages.
fn report<'a>(
    rt: &impl Abort,
    server: &mut ServerValues,
    names: &TrackedNames,
    bodies: &'a [&'a [u8]],
)
    requires { Fit names.now server.old.current }
    ensures { Fit names.now server.new.current }
{
    for body in bodies {
        if let Some(setting) = read_status(body) {
            assert_eq!(rt; server.note(names, setting), Ok(()));
        }
    }
}

fn new_server(rt: &impl Abort, alloc: Global, names: &TrackedNames) -> ServerValues
    ensures { Fit names.now result.current }
{
    match ServerValues::new(alloc, names) {
        Ok(server) => server,
        Err(_) => panic!(rt; "out of memory"),
    }
}

// A server connection whose login reported these.
fn logged_in<'a>(
    rt: &impl Abort,
    alloc: Global,
    names: &TrackedNames,
    bodies: &'a [&'a [u8]],
) -> ServerValues
    ensures { Fit names.now result.current }
{
    let mut server = new_server(rt, alloc, names);
    report(rt, &mut server, names, bodies);
    assert!(rt; server.login_done(alloc).is_ok());
    server
}

// What a client asks for: this, if it has the form of a ParameterStatus's body.
fn asked(rt: &impl Abort, alloc: Global, names: &TrackedNames, body: &[u8]) -> Values
    ensures { Fit names.now result }
{
    let mut values = match Values::new(alloc, names) {
        Ok(values) => values,
        Err(_) => panic!(rt; "out of memory"),
    };
    if let Some(setting) = read_status(body) {
        assert!(rt; values.note(names, setting).is_ok());
    }
    values
}

// A client that asks for these values, at a server connection.
fn client(rt: &impl Abort, alloc: Global, asked: &Values, server: &ServerValues) -> ClientValues
    requires { length asked.now ≡ length server.now.current }
    ensures { length result ≡ length server.now.current }
{
    assert!(rt; server.is_known());
    match ClientValues::new(alloc, asked, server) {
        Ok(client) => client,
        Err(_) => panic!(rt; "out of memory"),
    }
}

fn follow(rt: &impl Abort, client: &mut ClientValues, server: &ServerValues)
    requires { length client.old ≡ length server.now.current }
    ensures { length client.new ≡ length client.old }
{
    assert!(rt; server.is_known());
    assert!(rt; client.follow(server).is_ok());
}

// The client's settings at this connection have this text, its zero byte included.
fn assert_set(
    rt: &impl Abort,
    alloc: Global,
    names: &TrackedNames,
    client: &ClientValues,
    server: &ServerValues,
    text: &[u8],
)
    requires client { Fit names.now client.now }
    requires server { Fit names.now server.now.current }
{
    assert!(rt; server.is_known());
    let Ok(Some(query)) = client.query_for(alloc, names, server) else {
        panic!(rt; "no query");
    };
    let Some((head, found)) = query.split_at_checked(5) else {
        panic!(rt; "no message");
    };
    assert_eq!(rt; head[0], b'Q');
    assert_eq!(rt; found, text);
}

// Nothing is to be set there.
fn assert_none(
    rt: &impl Abort,
    alloc: Global,
    names: &TrackedNames,
    client: &ClientValues,
    server: &ServerValues,
)
    requires client { Fit names.now client.now }
    requires server { Fit names.now server.now.current }
{
    assert!(rt; server.is_known());
    assert!(rt; matches!(client.query_for(alloc, names, server), Ok(None)));
}

fn is_value(found: Option<&[u8]>, expected: &[u8]) -> bool {
    match found {
        Some(value) => value == expected,
        None => false,
    }
}

#[test]
fn others_values_are_set_back(rt: HostRuntime) {
    let alloc = rt.alloc();
    let names = names(&rt, alloc);
    let mut server = logged_in(&rt, alloc, &names, LOGIN);
    let zone = asked(&rt, alloc, &names, b"timezone\0Europe/Berlin\0");
    let first = client(&rt, alloc, &zone, &server);
    let text = b"SET TimeZone = E'Europe/Berlin'\0";
    assert_set(&rt, alloc, &names, &first, &server, text);
    report(&rt, &mut server, &names, &[b"TimeZone\0Europe/Berlin\0"]);
    assert_none(&rt, alloc, &names, &first, &server);
    let nothing = asked(&rt, alloc, &names, b"");
    let second = client(&rt, alloc, &nothing, &server);
    assert_set(
        &rt,
        alloc,
        &names,
        &second,
        &server,
        b"SET TimeZone = E'UTC'\0",
    );
}

#[test]
fn a_client_keeps_its_values(rt: HostRuntime) {
    let alloc = rt.alloc();
    let names = names(&rt, alloc);
    let mut server = logged_in(&rt, alloc, &names, LOGIN);
    let mut client = client(&rt, alloc, &asked(&rt, alloc, &names, b""), &server);
    report(&rt, &mut server, &names, &[b"datestyle\0German, DMY\0"]);
    report(&rt, &mut server, &names, &[b"TimeZone\0Asia/Tokyo\0"]);
    follow(&rt, &mut client, &server);
    assert_none(&rt, alloc, &names, &client, &server);
    server = logged_in(&rt, alloc, &names, OLDER);
    let text = b"SET TimeZone = E'Asia/Tokyo'\0";
    assert_set(&rt, alloc, &names, &client, &server, text);
    follow(&rt, &mut client, &server);
    assert!(rt; is_value(client.value_of(&names, b"TimeZone"), b"GMT"));
    server = logged_in(&rt, alloc, &names, LOGIN);
    let text = b"SET DateStyle = E'German, DMY'; SET TimeZone = E'GMT'\0";
    assert_set(&rt, alloc, &names, &client, &server, text);
}

#[test]
fn a_value_that_a_client_has_not(rt: HostRuntime) {
    let alloc = rt.alloc();
    let names = names(&rt, alloc);
    let mut server = logged_in(&rt, alloc, &names, OLDER);
    let zone = asked(&rt, alloc, &names, b"TimeZone\0UTC\0");
    let client = client(&rt, alloc, &zone, &server);
    assert!(rt; client.value_of(&names, b"DateStyle").is_none());
    server = logged_in(&rt, alloc, &names, LOGIN);
    assert_none(&rt, alloc, &names, &client, &server);
    report(&rt, &mut server, &names, &[b"DateStyle\0German, DMY\0"]);
    let text = b"SET DateStyle = E'ISO, MDY'\0";
    assert_set(&rt, alloc, &names, &client, &server, text);
}

#[test]
fn known(rt: HostRuntime) {
    let alloc = rt.alloc();
    let names = names(&rt, alloc);
    let mut server = new_server(&rt, alloc, &names);
    report(&rt, &mut server, &names, LOGIN);
    assert!(rt; !server.is_known());
    assert!(rt; server.login_done(alloc).is_ok());
    assert!(rt; server.is_known());
    report(&rt, &mut server, &names, &[b"TimeZone\0GMT\0"]);
    assert!(rt; server.login_done(alloc).is_ok());
    assert!(rt; is_value(server.value_of(&names, b"TimeZone"), b"GMT"));
    assert!(rt; is_value(server.login_value_of(&names, b"TIMEZONE"), b"UTC"));
    assert!(rt; server.value_of(&names, b"server_version").is_none());
    report(&rt, &mut server, &names, &[b"IntervalStyle\0postgres\0"]);
    assert!(rt; !server.is_known());
}

// What comes of a report of a client's name of so many bytes.
fn report_name(
    rt: &impl Abort,
    alloc: Global,
    names: &TrackedNames,
    server: &mut ServerValues,
    count: usize,
) -> Result<(), ValueError>
    requires { Fit names.now server.old.current }
    ensures { Fit names.now server.new.current }
{
    let mut body = Vec::new(alloc);
    assert!(rt; body.extend_from_slice(b"application_name\0").is_ok());
    for _place in 0..count {
        assert!(rt; body.push(b'x').is_ok());
    }
    assert!(rt; body.push(0).is_ok());
    let Some(setting) = read_status(&body) else {
        panic!(rt; "no status");
    };
    server.note(names, setting)
}

// The length of the longest value that is kept, and of the next one.
fn lengths() -> (usize, usize) {
    (10_000, 10_001)
}

#[test]
fn too_long(rt: HostRuntime) {
    let alloc = rt.alloc();
    let names = names(&rt, alloc);
    let mut server = logged_in(&rt, alloc, &names, LOGIN);
    let (longest, too_long) = lengths();
    let found = report_name(&rt, alloc, &names, &mut server, longest);
    assert_eq!(rt; found, Ok(()));
    assert!(rt; server.is_known());
    let found = report_name(&rt, alloc, &names, &mut server, too_long);
    assert_eq!(rt; found, Err(ValueError::TooLong));
    assert!(rt; !server.is_known());
    assert!(rt; server.value_of(&names, b"application_name").is_none());
    report(&rt, &mut server, &names, &[b"application_name\0y\0"]);
    assert!(rt; server.is_known());
    assert!(rt; is_value(server.value_of(&names, b"application_name"), b"y"));
}
