//! What a group is served with.
use crate::limits::METRICS_READERS;
use ini_config::{Group, Settings};
use pg_frames::MessageLimit;
use sockets::{Needs, descriptor_limit};
use startup::Reports;
use std::alloc::{AllocError, Global};
use std::sync::Wait;
use std::time::Clock;
use telemetry::{Event, Level, Log, Value, put_fields};

// The parameter without which some drivers quote values wrongly.
const STRINGS: &str = "standard_conforming_strings";

/// What a group is served with.
#[derive(Clone, Copy)]
pub struct ServeOptions<'a> {
    /// The program's version.
    pub version: &'a str,
    /// The port of 127.0.0.1 that all nodes share.
    pub front: u16,
    /// The seed of the secrets of cancel keys.
    pub seed: [u8; 32],
    /// The number of this start.
    pub boot: u32,
    /// The parameters that logins report beside those that every login has.
    pub reports: &'a Reports,
    /// Whether the group drains when its input ends. Otherwise the input isn't read.
    pub until_eof: bool,
    /// The least important level that is logged.
    pub log: Level,
    /// The metrics port at 127.0.0.1, if there is one.
    pub metrics: Option<u16>,
    /// The maximum length of a message of a client or server.
    pub max_message: MessageLimit,
    /// How many seconds a server is tried again that takes no connections.
    pub server_wait: u32,
}

// What the log says if no boot number was given.
const GIVE_BOOT: &str = "give another --boot at each start";

// What the log says if there are too few descriptors.
const RAISE_LIMIT: &str = "raise the limit of open files (ulimit -n)";

// What the log says if logins don't report `STRINGS`.
const GIVE_REPORT: &str = "give --report standard_conforming_strings=on";

/// Logs that a group has begun to listen, and the addresses of its nodes.
pub fn write_start<R: Wait + Clock>(
    rt: &R,
    alloc: Global,
    log: &Log,
    group: &Group,
    options: &ServeOptions<'_>,
) -> Result<(), AllocError> {
    let mut names = String::new(alloc);
    let front = Value::Address("127.0.0.1", options.front);
    let boot = Value::Number(u64::from(options.boot));
    let version = Value::Text(options.version);
    let fields = [("version", version), ("front", front), ("boot", boot)];
    put_fields(alloc, &mut names, &fields)?;
    put_reports(alloc, &mut names, options.reports)?;
    log.write_of(rt, None, Event::Started, names.as_str(), &[]);
    if options.boot == 0 {
        let advice = ("advice", Value::Text(GIVE_BOOT));
        log.write(rt, None, Event::BootUnset, &[advice]);
    }
    if !is_reported(options.reports, STRINGS) {
        let missing = ("parameter", Value::Text(STRINGS));
        let advice = ("advice", Value::Text(GIVE_REPORT));
        log.write(rt, None, Event::ReportMissing, &[missing, advice]);
    }
    write_limit(rt, log, group, options);
    for settings in group.nodes() {
        write_node(rt, log, settings);
    }
    Ok(())
}

/// Returns how many descriptors the metrics port needs.
pub fn own_descriptors(options: &ServeOptions<'_>) -> usize {
    match options.metrics {
        Some(_) => METRICS_READERS + 1,
        None => 0,
    }
}

// Logs the limit of the process's descriptors, if its settings need more.
fn write_limit<R: Wait + Clock>(rt: &R, log: &Log, group: &Group, options: &ServeOptions<'_>) {
    let limit = descriptor_limit();
    let needed = Needs::of(group)
        .descriptors()
        .saturating_add(own_descriptors(options));
    if limit < needed {
        let fields = [
            ("limit", Value::Number(limit as u64)),
            ("needed", Value::Number(needed as u64)),
            ("advice", Value::Text(RAISE_LIMIT)),
        ];
        log.write(rt, None, Event::LimitLow, &fields);
    }
}

// Logs the address of a node.
fn write_node<R: Wait + Clock>(rt: &R, log: &Log, settings: &Settings) {
    let address = Value::Address(settings.listen_addr(), settings.listen_port());
    let node = settings.peer_id().get();
    log.write(rt, Some(node), Event::NodeListens, &[("address", address)]);
}

// Appends what logins report.
fn put_reports(alloc: Global, text: &mut String, reports: &Reports) -> Result<(), AllocError> {
    let reported = reports_text(alloc, reports)?;
    put_fields(alloc, text, &[("reports", Value::Text(reported.as_str()))])
}

// Returns whether logins report this parameter.
fn is_reported(reports: &Reports, name: &str) -> bool {
    for place in 0..reports.len() {
        if let Some(report) = reports.get(place) {
            if report.name == name {
                return true;
            }
        }
    }
    false
}

// Returns the names and values of reports, separated by spaces.
fn reports_text(alloc: Global, reports: &Reports) -> Result<String, AllocError> {
    let mut text = String::new(alloc);
    for place in 0..reports.len() {
        if let Some(report) = reports.get(place) {
            if place > 0 {
                text.push(' ')?;
            }
            text.push_str(report.name)?;
            text.push('=')?;
            text.push_str(report.value)?;
        }
    }
    Ok(text)
}

/// Returns a copy of these reports.
pub fn copy_of(alloc: Global, reports: &Reports) -> Result<Reports, AllocError> {
    let mut copy = Reports::new(alloc);
    for place in 0..reports.len() {
        if let Some(report) = reports.get(place) {
            if copy.add(report.name, report.value).is_err() {
                return Err(AllocError);
            }
        }
    }
    Ok(copy)
}
