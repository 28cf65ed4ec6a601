//! The parameters of a start-up packet that have no effect.
use startup::{Report, Reports};
use std::alloc::AllocError;

// The parameters that have an effect, or whose loss changes no result.
const UNTOLD: [&[u8]; 3] = [b"user", b"database", b"application_name"];

// The parameter whose value is fixed, and the names of this value.
const ENCODING: &[u8] = b"client_encoding";

const UTF8: [&[u8]; 2] = [b"UTF8", b"UTF-8"];

/// Appends the names of the parameters that have no effect, with commas between them: of those whose
/// value isn't what clients get by these reports. The body of a start-up packet is what follows its
/// code: names and values, each ended by a zero byte, and another zero byte (PostgreSQL manual,
/// "Message Formats"). A malformed body is read up to its first fault.
pub fn put_dropped(body: &[u8], reports: &Reports, names: &mut Vec<u8>) -> Result<(), AllocError> {
    let mut rest = body;
    for _ in 0..body.len() {
        let Some(parameter) = split_parameter(rest) else {
            return Ok(());
        };
        if !parameter.is_untold() && !parameter.is_reported(reports) {
            put_name(parameter.name, names)?;
        }
        rest = parameter.rest;
    }
    Ok(())
}

// A parameter of a start-up packet.
#[derive(Clone, Copy)]
struct Parameter<'a> {
    name: &'a [u8],
    value: &'a [u8],
    // The bytes after its value.
    rest: &'a [u8],
}

impl<'a> Parameter<'a> {
    // Whether it has an effect, or the value that each client gets, or changes no result.
    fn is_untold(&self) -> bool {
        if self.name == ENCODING {
            return UTF8
                .iter()
                .any(|utf8| utf8.eq_ignore_ascii_case(self.value));
        }
        UNTOLD.contains(&self.name)
    }

    // Whether it has the value of a report of its name, which may be written in other letters.
    fn is_reported(&self, reports: &Reports) -> bool {
        for place in 0..reports.len() {
            if let Some(report) = reports.get(place) {
                if self.is_that(&report) {
                    return true;
                }
            }
        }
        false
    }

    fn is_that(&self, report: &Report<'_>) -> bool {
        self.name.eq_ignore_ascii_case(report.name.as_bytes())
            && self.value == report.value.as_bytes()
    }
}

// Splits off a parameter.
fn split_parameter(bytes: &[u8]) -> Option<Parameter<'_>> {
    let (name, rest) = split_text(bytes)?;
    if name.is_empty() {
        return None;
    }
    let (value, rest) = split_text(rest)?;
    Some(Parameter { name, value, rest })
}

/// Appends a name, after a comma if it isn't the first.
pub fn put_name(name: &[u8], names: &mut Vec<u8>) -> Result<(), AllocError> {
    if !names.is_empty() {
        names.push(b',')?;
    }
    names.extend_from_slice(name)
}

// Splits off a text that a zero byte ends. Returns the text and the bytes after the zero byte.
fn split_text(bytes: &[u8]) -> Option<(&[u8], &[u8])> {
    let end = bytes.iter().position(|byte| *byte == 0)?;
    let (text, rest) = bytes.split_at_checked(end)?;
    Some((text, rest.get(1..)?))
}
