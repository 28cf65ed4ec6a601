//! The text of a line of the log.
use crate::limits::LONGEST_VALUE;
use crate::log::event::{Event, Level};
use jiff::Timestamp;
use std::alloc::{AllocError, Global};
use std::io;
use std::net::SocketAddr;
use std::time::Clock;
use ucd_category::{GeneralCategory, GeneralCategoryGroup};

/// A value of a line.
#[derive(Clone, Copy)]
pub enum Value<'a> {
    /// A text.
    Text(&'a str),
    /// A text that may not be UTF-8.
    Bytes(&'a [u8]),
    /// A number.
    Number(u64),
    /// A host and a port.
    Address(&'a str, u16),
    /// The address of a connection's peer, if it is known.
    Peer(Option<SocketAddr>),
    /// An error.
    Error(&'a io::Error),
}

/// A value of a line, with its name.
pub type Field<'a> = (&'a str, Value<'a>);

/// Returns the line of an event, without a line break. `names` are fields that are already text, each
/// after a space.
pub fn line_of<R: Clock>(
    rt: &R,
    alloc: Global,
    node: Option<u16>,
    event: Event,
    names: &str,
    fields: &[Field<'_>],
) -> Result<String, AllocError> {
    let mut text = start_of(rt, alloc, node, event.level(), event.name())?;
    text.push_str(names)?;
    put_fields(alloc, &mut text, fields)?;
    Ok(text)
}

/// Returns the line that says how many lines of an event were left out. It has the event's level.
pub fn left_out_line<R: Clock>(
    rt: &R,
    alloc: Global,
    event: Event,
    count: u64,
) -> Result<String, AllocError> {
    let mut text = start_of(rt, alloc, None, event.level(), "lines_left_out")?;
    let fields = [
        ("of", Value::Text(event.name())),
        ("count", Value::Number(count)),
    ];
    put_fields(alloc, &mut text, &fields)?;
    Ok(text)
}

// Returns the start of a line, before its fields: the time, the node, the level and the event.
fn start_of<R: Clock>(
    rt: &R,
    alloc: Global,
    node: Option<u16>,
    level: Level,
    name: &str,
) -> Result<String, AllocError> {
    let level = level.name();
    let time = time_text(rt, alloc)?;
    match node {
        Some(node) => format!(in alloc; "{time} node={node} {level} {name}"),
        None => format!(in alloc; "{time} node=- {level} {name}"),
    }
}

// Returns the time by RFC 3339, in UTC and with milliseconds; or `-` if the clock can't be read.
fn time_text<R: Clock>(rt: &R, alloc: Global) -> Result<String, AllocError> {
    match Timestamp::now(rt) {
        Ok(now) => format!(in alloc; "{now:.3}"),
        Err(_) => String::from_str(alloc, "-"),
    }
}

/// Appends fields, each after a space.
pub fn put_fields(
    alloc: Global,
    text: &mut String,
    fields: &[Field<'_>],
) -> Result<(), AllocError> {
    for (name, value) in fields {
        text.push(' ')?;
        text.push_str(name)?;
        text.push('=')?;
        put_value(alloc, text, *value)?;
    }
    Ok(())
}

// Appends a value.
fn put_value(alloc: Global, text: &mut String, value: Value<'_>) -> Result<(), AllocError> {
    match value {
        Value::Text(value) => put_text(text, value),
        Value::Bytes(value) => put_text(text, String::from_utf8_lossy(alloc, value)?.as_str()),
        Value::Number(value) => text.push_str(value.to_string(alloc)?.as_str()),
        Value::Address(host, port) => {
            put_text(text, format!(in alloc; "{host}:{port}")?.as_str())
        }
        Value::Peer(Some(address)) => put_text(text, format!(in alloc; "{address}")?.as_str()),
        Value::Peer(None) => put_text(text, "-"),
        Value::Error(error) => put_text(text, format!(in alloc; "{error}")?.as_str()),
    }
}

// Appends a text: in quotes unless it is short and consists of printable ASCII characters other than
// `"`, `=` and `\`.
fn put_text(text: &mut String, value: &str) -> Result<(), AllocError> {
    if is_plain(value) {
        return text.push_str(value);
    }
    text.push('"')?;
    for (count, character) in value.chars().enumerate() {
        if count >= LONGEST_VALUE {
            text.push_str("..")?;
            break;
        }
        put_character(text, character)?;
    }
    text.push('"')
}

fn is_plain(value: &str) -> bool {
    let is_quoted = |byte: &u8| !byte.is_ascii_graphic() || matches!(byte, b'"' | b'=' | b'\\');
    !value.is_empty() && value.len() <= LONGEST_VALUE && !value.as_bytes().iter().any(is_quoted)
}

// Appends a character of a quoted text. One that isn't seen is escaped.
fn put_character(text: &mut String, character: char) -> Result<(), AllocError> {
    match character {
        '"' | '\\' => {
            text.push('\\')?;
            text.push(character)
        }
        '\n' => text.push_str("\\n"),
        '\r' => text.push_str("\\r"),
        '\t' => text.push_str("\\t"),
        _ if is_unseen(character) => {
            let number = u32::from(character);
            write!(text, "\\u{{{number:x}}}")
        }
        _ => text.push(character),
    }
}

// Whether a character isn't seen, as a control character, or changes how others are: one that turns
// the direction of a text, or that a terminal may take for the end of a line (Unicode's general
// categories C, Zl and Zp).
fn is_unseen(character: char) -> bool {
    let category = GeneralCategory::for_char(character);
    GeneralCategoryGroup::Other.contains(category)
        || matches!(
            category,
            GeneralCategory::LineSeparator | GeneralCategory::ParagraphSeparator
        )
}
