//! The texts of all refusals.
use super::*;
use startup::ReportError;
use std::fmt::Display;

const FIRST_PACKETS: [(StartupError, &str); 9] = [
    (StartupError::TooShort, "the packet's length is below 8"),
    (
        StartupError::TooLong,
        "the packet's length is above its limit",
    ),
    (StartupError::BadVersion, "the packet's code is unknown"),
    (
        StartupError::BadText,
        "the start-up parameters are malformed or not allowed",
    ),
    (StartupError::NoUser, "no user is named"),
    (
        StartupError::BadCancelLength,
        "a cancel request's length is neither 16 nor 32",
    ),
    (
        StartupError::Repeated,
        "this negotiation was asked for before",
    ),
    (StartupError::Truncated, "the input ended within the packet"),
    (StartupError::Memory, "out of memory"),
];

const REPORTS: [(ReportError, &str); 6] = [
    (ReportError::Name, "the name is empty or has a zero byte"),
    (ReportError::Value, "the value has a zero byte"),
    (
        ReportError::Fixed,
        "server_encoding and client_encoding are always reported as UTF8",
    ),
    (ReportError::Twice, "the name is given twice"),
    (
        ReportError::TooLong,
        "the parameters are too long: their messages have more than 8000 bytes",
    ),
    (ReportError::Memory, "out of memory"),
];

#[test]
fn of_first_packets(rt: HostRuntime) -> Result<(), Fail> {
    for (refusal, text) in FIRST_PACKETS {
        expect_text(&rt, &refusal, text)?;
    }
    Ok(())
}

#[test]
fn of_reports(rt: HostRuntime) -> Result<(), Fail> {
    for (refusal, text) in REPORTS {
        expect_text(&rt, &refusal, text)?;
    }
    Ok(())
}

// The refusal is written as this text.
fn expect_text<T: Display>(
    rt: &(impl Abort + Alloc<A = Global>),
    refusal: &T,
    text: &str,
) -> Result<(), Fail> {
    let written = format!(in rt.alloc(); "{refusal}")?;
    assert_eq!(rt; written.as_str(), text);
    Ok(())
}
