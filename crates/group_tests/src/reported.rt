//! Links whose servers report another value than clients get.
use crate::client::Client;
use crate::group::{ANY_PORT, Running, options};
use crate::host::TestHost;
use crate::log_lines::{expect_line, expect_no_line};
use crate::messages::{IDLE, LOST};
use crate::scripted::{Script, start};
use group_server::write_start;
use ini_config::Group;
use startup::Reports;
use std::alloc::{AllocError, Global};
use std::net::TcpListener;
use std::test::Fail;
use telemetry::{Level, Log};

// What clients get beside what every login tells, and its ParameterStatus.
pub(crate) const TOLD: &[(&str, &str)] = &[
    ("standard_conforming_strings", "on"),
    ("TimeZone", "UTC"),
];

const TOLD_MESSAGES: &[u8] = b"S\0\0\0\x23standard_conforming_strings\0on\0\
    S\0\0\0\x11TimeZone\0UTC\0";

// A login of a server that reports these values, and one of a server that reports another zone.
pub(crate) const LOGIN: &[u8] = b"R\0\0\0\x08\0\0\0\0\
    S\0\0\0\x23standard_conforming_strings\0on\0\
    S\0\0\0\x11TimeZone\0UTC\0\
    K\0\0\0\x0c\0\0\0\x01\0\0\0\x02\
    Z\0\0\0\x05I";

pub(crate) const PARIS_LOGIN: &[u8] = b"R\0\0\0\x08\0\0\0\0\
    S\0\0\0\x23standard_conforming_strings\0on\0\
    S\0\0\0\x1aTimeZone\0Europe/Paris\0\
    K\0\0\0\x0c\0\0\0\x01\0\0\0\x02\
    Z\0\0\0\x05I";

// The zone is set to Paris and back.
const PARIS: &[u8] = b"S\0\0\0\x1aTimeZone\0Europe/Paris\0";

const UTC: &[u8] = b"S\0\0\0\x11TimeZone\0UTC\0";

// CommandComplete of links, by which they differ.
const ONE: &[u8] = b"C\0\0\0\x08ONE\0";

const TWO: &[u8] = b"C\0\0\0\x08TWO\0";

const OPEN: &[u8] = b"Z\0\0\0\x05T";

// The line of a start without reports.
const MISSING: &str = "node=- warn report_missing parameter=standard_conforming_strings \
    advice=\"give --report standard_conforming_strings=on\"";

// A group of one node before this server, whose clients get this.
fn start_group<R: TestHost>(rt: &R, server: u16, told: &[(&str, &str)]) -> Result<u16, Fail> {
    Running::start_telling(rt, &[server], &[&[]], told)?.node(1)
}

// A client that gets this logs in.
fn log_in<R: TestHost>(rt: &R, port: u16, told: &[u8]) -> Result<Client, Fail> {
    Ok(Client::log_in_told(rt, port, told)?.0)
}

// The login tells a client the reports, between what every login tells and the key.
#[test]
fn clients_are_told(rt: HostRuntime) -> Result<(), Fail> {
    let listener = TcpListener::bind(&rt, ANY_PORT)?;
    let server = start(&rt, listener, &[])?;
    let port = start_group(&rt, server, TOLD)?;
    let _client = log_in(&rt, port, TOLD_MESSAGES)?;
    Ok(())
}

// A server whose login reports another value isn't used.
#[test]
fn another_value_at_the_login(rt: HostRuntime) -> Result<(), Fail> {
    const SCRIPTS: &[Script] = &[
        Script {
            login: PARIS_LOGIN,
            answers: &[],
        },
        Script {
            login: LOGIN,
            answers: &[b"C\0\0\0\x08TWO\0Z\0\0\0\x05I"],
        },
    ];
    let listener = TcpListener::bind(&rt, ANY_PORT)?;
    let server = start(&rt, listener, SCRIPTS)?;
    let port = start_group(&rt, server, TOLD)?;
    let mut client = log_in(&rt, port, TOLD_MESSAGES)?;
    client.ask(&rt, "first")?;
    client.expect_end(&rt, LOST)?;
    let mut client = log_in(&rt, port, TOLD_MESSAGES)?;
    client.expect_answer(&rt, "second", &[TWO, IDLE])
}

// A change that stands at the end of a transaction: the next client gets another link.
#[test]
fn a_change_that_stays(rt: HostRuntime) -> Result<(), Fail> {
    const SCRIPTS: &[Script] = &[
        Script {
            login: LOGIN,
            answers: &[
                b"C\0\0\0\x08ONE\0Z\0\0\0\x05T",
                b"S\0\0\0\x1aTimeZone\0Europe/Paris\0C\0\0\0\x08ONE\0Z\0\0\0\x05T",
                b"C\0\0\0\x08ONE\0Z\0\0\0\x05I",
                b"C\0\0\0\x08ONE\0Z\0\0\0\x05I",
            ],
        },
        Script {
            login: LOGIN,
            answers: &[b"C\0\0\0\x08TWO\0Z\0\0\0\x05I"],
        },
    ];
    let listener = TcpListener::bind(&rt, ANY_PORT)?;
    let server = start(&rt, listener, SCRIPTS)?;
    let port = start_group(&rt, server, TOLD)?;
    let mut client = log_in(&rt, port, TOLD_MESSAGES)?;
    client.expect_answer(&rt, "begin", &[ONE, OPEN])?;
    client.expect_answer(&rt, "set", &[PARIS, ONE, OPEN])?;
    client.expect_answer(&rt, "commit", &[ONE, IDLE])?;
    let mut other = log_in(&rt, port, TOLD_MESSAGES)?;
    other.expect_answer(&rt, "next", &[TWO, IDLE])
}

// One that was taken back at its end: the next client gets the same link.
#[test]
fn a_change_that_ends(rt: HostRuntime) -> Result<(), Fail> {
    const SCRIPTS: &[Script] = &[Script {
        login: LOGIN,
        answers: &[
            b"C\0\0\0\x08ONE\0Z\0\0\0\x05T",
            b"S\0\0\0\x1aTimeZone\0Europe/Paris\0C\0\0\0\x08ONE\0Z\0\0\0\x05T",
            b"S\0\0\0\x11TimeZone\0UTC\0C\0\0\0\x08ONE\0Z\0\0\0\x05I",
            b"C\0\0\0\x08ONE\0Z\0\0\0\x05I",
        ],
    }];
    let listener = TcpListener::bind(&rt, ANY_PORT)?;
    let server = start(&rt, listener, SCRIPTS)?;
    let port = start_group(&rt, server, TOLD)?;
    let mut client = log_in(&rt, port, TOLD_MESSAGES)?;
    client.expect_answer(&rt, "begin", &[ONE, OPEN])?;
    client.expect_answer(&rt, "set local", &[PARIS, ONE, OPEN])?;
    client.expect_answer(&rt, "commit", &[UTC, ONE, IDLE])?;
    let mut other = log_in(&rt, port, TOLD_MESSAGES)?;
    other.expect_answer(&rt, "next", &[ONE, IDLE])
}

// Where clients get nothing more, nothing is compared.
#[test]
fn nothing_is_told(rt: HostRuntime) -> Result<(), Fail> {
    const SCRIPTS: &[Script] = &[Script {
        login: PARIS_LOGIN,
        answers: &[
            b"S\0\0\0\x11TimeZone\0UTC\0C\0\0\0\x08ONE\0Z\0\0\0\x05I",
            b"C\0\0\0\x08ONE\0Z\0\0\0\x05I",
        ],
    }];
    let listener = TcpListener::bind(&rt, ANY_PORT)?;
    let server = start(&rt, listener, SCRIPTS)?;
    let port = start_group(&rt, server, &[])?;
    let mut client = log_in(&rt, port, b"")?;
    client.expect_answer(&rt, "set", &[UTC, ONE, IDLE])?;
    let mut other = log_in(&rt, port, b"")?;
    other.expect_answer(&rt, "next", &[ONE, IDLE])
}

// A start without the parameter that drivers need is in the log.
#[test]
fn a_missing_report_is_in_the_log(rt: HostRuntime) -> Result<(), Fail> {
    let alloc = rt.alloc();
    let group = Group::check(Vec::new(alloc))?;
    let log = Log::new(alloc, Level::Warn);
    let none = Reports::new(alloc);
    write_start(&rt, alloc, &log, &group, &options(6_432, None, &none))?;
    expect_line(&rt, &log, MISSING)?;
    expect_no_line(&rt, &log)?;
    let told = reports_of(alloc, TOLD)?;
    write_start(&rt, alloc, &log, &group, &options(6_432, None, &told))?;
    expect_no_line(&rt, &log)
}

// The reports that tell this.
pub(crate) fn reports_of(alloc: Global, told: &[(&str, &str)]) -> Result<Reports, AllocError> {
    let mut reports = Reports::new(alloc);
    for (name, value) in told {
        if reports.add(name, value).is_err() {
            return Err(AllocError);
        }
    }
    Ok(reports)
}
