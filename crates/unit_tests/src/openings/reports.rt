//! Logins that report further parameters, and parameters that are refused.
use super::*;
use startup::ReportError;

// Two ParameterStatus and ReadyForQuery.
const TWO: &[u8; 66] = b"S\0\0\0\x17DateStyle\0ISO, MDY\0\
    S\0\0\0\x23standard_conforming_strings\0on\0\
    Z\0\0\0\x05I";

const TWO_WITH_KEY: &[u8; 79] = b"S\0\0\0\x17DateStyle\0ISO, MDY\0\
    S\0\0\0\x23standard_conforming_strings\0on\0\
    K\0\0\0\x0c\0\x08\0\0\0\0\0\x07\
    Z\0\0\0\x05I";

// Refused beside `DateStyle`: the first reason that is there.
const REFUSED_REPORTS: &[(&str, &str, ReportError)] = &[
    ("", "on", ReportError::Name),
    ("", "o\0n", ReportError::Name),
    ("Time\0Zone", "UTC", ReportError::Name),
    ("\0", "UTC", ReportError::Name),
    ("TimeZone", "UTC\0", ReportError::Value),
    ("client_encoding", "\0", ReportError::Value),
    ("server_encoding", "UTF8", ReportError::Fixed),
    ("client_encoding", "UTF8", ReportError::Fixed),
    ("DateStyle", "ISO, MDY", ReportError::Twice),
    ("DateStyle", "German", ReportError::Twice),
];

fn two(alloc: Global) -> Result<Reports, ReportError> {
    let mut reports = Reports::new(alloc);
    reports.add("DateStyle", "ISO, MDY")?;
    reports.add("standard_conforming_strings", "on")?;
    Ok(reports)
}

fn assert_report(rt: &impl Abort, reports: &Reports, place: usize, name: &str, value: &str) {
    let Some(found) = reports.get(place) else {
        panic!(rt; "no report at {place}");
    };
    assert_eq!(rt; found.name, name);
    assert_eq!(rt; found.value, value);
}

#[test]
fn reported(rt: HostRuntime) -> Result<(), Fail> {
    let reports = two(rt.alloc())?;
    assert_eq!(rt; reports.len(), 2);
    assert!(rt; !reports.is_empty());
    assert_report(&rt, &reports, 0, "DateStyle", "ISO, MDY");
    assert_report(&rt, &reports, 1, "standard_conforming_strings", "on");
    assert!(rt; reports.get(2).is_none());
    ends_login(&rt, None, &reports, TWO.as_slice())?;
    let key = AnyKey::from_short_bytes([0, 8, 0, 0, 0, 0, 0, 7]);
    ends_login(&rt, Some(key), &reports, TWO_WITH_KEY.as_slice())?;
    Ok(())
}

fn assert_refused(rt: &impl Abort, reports: &mut Reports, name: &str, value: &str, e: ReportError) {
    let before = reports.len();
    assert_eq!(rt; reports.add(name, value), Err(e));
    assert_eq!(rt; reports.len(), before);
}

#[test]
fn refused_reports(rt: HostRuntime) -> Result<(), Fail> {
    let mut reports = two(rt.alloc())?;
    for (name, value, error) in REFUSED_REPORTS {
        assert_refused(&rt, &mut reports, name, value, *error);
    }
    // It comes a second time, behind the one that every login has.
    reports.add("server_version", "15.18")?;
    assert_report(&rt, &reports, 2, "server_version", "15.18");
    Ok(())
}

// A text of this length.
fn text(alloc: Global, length: usize) -> Result<String, AllocError> {
    let mut text = String::new(alloc);
    for _ in 0..length {
        text.push('x')?;
    }
    Ok(text)
}

// A message has seven bytes beside its name and its value, and all together may have 8,000.
#[test]
fn longest_reports(rt: HostRuntime) -> Result<(), Fail> {
    let mut one = Reports::new(rt.alloc());
    let above = text(rt.alloc(), 7993)?;
    assert_refused(&rt, &mut one, "a", above.as_str(), ReportError::TooLong);
    let at = text(rt.alloc(), 7992)?;
    one.add("a", at.as_str())?;
    assert_refused(&rt, &mut one, "b", "", ReportError::TooLong);
    // Of three messages the first two have 60 bytes.
    let mut several = two(rt.alloc())?;
    let above = text(rt.alloc(), 7933)?;
    assert_refused(&rt, &mut several, "a", above.as_str(), ReportError::TooLong);
    let at = text(rt.alloc(), 7932)?;
    several.add("a", at.as_str())?;
    assert_eq!(rt; several.len(), 3);
    Ok(())
}
