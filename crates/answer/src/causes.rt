//! The causes of faults in the lines of settings files, in words (own).
use crate::entry_causes::{Entry, entry_cause};
use ini_config::{IniCode, LineFault, Subject, WholeFault, trimmed};
use std::alloc::{AllocError, Global};

// How many bytes a line may have.
const MAX_LINE: usize = 8_000;

/// A settings text, and how far it has been read.
#[derive(Clone, Copy)]
pub(crate) struct Reading<'a> {
    // What hasn't been read yet.
    rest: &'a str,
    // How many lines have been read.
    count: usize,
    // Whether the last section among them is `[peers]`.
    is_in_peers: bool,
}

impl<'a> Reading<'a> {
    /// Nothing has been read.
    pub(crate) fn new(text: &'a str) -> Reading<'a> {
        Reading {
            rest: text,
            count: 0,
            is_in_peers: false,
        }
    }

    // The line with this number, without the blanks at its ends, if it isn't read yet. All lines
    // before it are read, too.
    fn line(&mut self, number: usize) -> &'a str {
        let mut line = "";
        for _ in self.count..number {
            line = self.next_line();
        }
        self.count = number;
        line
    }

    fn next_line(&mut self) -> &'a str {
        let (line, rest) = cut_line(self.rest);
        self.rest = rest;
        let line = trimmed(line);
        if is_section(line) {
            self.is_in_peers = line == "[peers]";
        }
        line
    }
}

// The first line, without its end, and what is behind it.
fn cut_line<'a>(text: &'a str) -> (&'a str, &'a str) {
    match text.split_once('\n') {
        Some((line, rest)) => (without_return(line), rest),
        None => (text, ""),
    }
}

fn without_return(line: &str) -> &str {
    match line.strip_suffix('\r') {
        Some(shorter) => shorter,
        None => line,
    }
}

fn is_section(line: &str) -> bool {
    line.starts_with('[') && line.ends_with(']')
}

/// Words on the cause of a fault in a line that isn't read yet; none where its sentence tells it.
pub(crate) fn line_cause(
    alloc: Global,
    reading: &mut Reading<'_>,
    fault: &LineFault<'_>,
) -> Result<String, AllocError> {
    let line = reading.line(fault.line);
    let code = fault.code;
    match fault.subject {
        Subject::Line => String::from_str(alloc, bare_line_words(code, line)),
        Subject::Section(_) => String::from_str(alloc, section_words(code, line)),
        Subject::Key(name) => key_cause(alloc, code, name, line),
        Subject::Entry(name) => {
            let is_peer = reading.is_in_peers;
            entry_cause(
                alloc,
                code,
                Entry {
                    name,
                    line,
                    is_peer,
                },
            )
        }
    }
}

/// Words on the cause of a fault of a file as a whole.
pub(crate) fn whole_cause(fault: WholeFault) -> &'static str {
    match fault {
        WholeFault::PoolMode => "allowed: pool_mode = transaction",
        WholeFault::AuthType => "allowed: auth_type = trust",
        WholeFault::ListenAddr => "allowed: one address, as listen_addr = 127.0.0.1",
        WholeFault::Links => "each has its pool_size, or else default_pool_size",
    }
}

// The cause of a fault in a line without a name.
fn bare_line_words(code: IniCode, line: &str) -> &'static str {
    match code {
        IniCode::NotInProfile => "a line that begins with '%', as %include, is not supported",
        IniCode::BadLine => bad_line_words(line),
        _ => "",
    }
}

fn bad_line_words(line: &str) -> &'static str {
    if is_unreadable(line) {
        return UNREADABLE;
    }
    match line.split_once('=') {
        Some((name, _)) => {
            if trimmed(name).is_empty() {
                "nothing stands before its '='"
            } else {
                "no section stands before it"
            }
        }
        None => {
            if line.starts_with('[') {
                "a section is [NAME]"
            } else {
                "it has no '='"
            }
        }
    }
}

const UNREADABLE: &str = "a line has no zero byte, and at most 8000 bytes";

fn is_unreadable(line: &str) -> bool {
    line.len() > MAX_LINE || line.as_bytes().contains(&0)
}

fn section_words(code: IniCode, line: &str) -> &'static str {
    match code {
        IniCode::UnknownSection => "allowed: [pgbouncer], [databases], [peers]",
        IniCode::BadLine => { if is_unreadable(line) { UNREADABLE } else { "" } }
        _ => "",
    }
}

// The cause of a fault in a line of `[pgbouncer]`.
fn key_cause(alloc: Global, code: IniCode, name: &str, line: &str) -> Result<String, AllocError> {
    match code {
        IniCode::BadLine => String::from_str(alloc, form_words(name, line)),
        IniCode::BadNumber | IniCode::OutOfRange | IniCode::NotInProfile => {
            refused_value(alloc, value_in(line), allowed_for(name))
        }
        _ => Ok(String::new(alloc)),
    }
}

/// What is wrong with the form of a line with a name, its value's form aside.
pub(crate) fn form_words(name: &str, line: &str) -> &'static str {
    if is_unreadable(line) {
        return UNREADABLE;
    }
    if value_in(line).is_empty() {
        return "nothing stands behind its '='";
    }
    if is_name(name) {
        return "";
    }
    if name.as_bytes().contains(&b'-') {
        "a name may have no hyphen, only letters, digits and '_'"
    } else {
        "a name has only letters, digits and '_'"
    }
}

fn is_name(name: &str) -> bool {
    name.as_bytes()
        .iter()
        .all(|byte| byte.is_ascii_alphanumeric() || *byte == b'_')
}

/// What stands behind the first `=` of a line.
pub(crate) fn value_in(line: &str) -> &str {
    match line.split_once('=') {
        Some((_, value)) => trimmed(value),
        None => "",
    }
}

// The values that a key of `[pgbouncer]` may have.
fn allowed_for(name: &str) -> &'static str {
    match name {
        "pool_mode" => "transaction",
        "auth_type" => "trust",
        "listen_addr" => "one address, no list, as 127.0.0.1 or 0.0.0.0",
        "peer_id" => "0 to 16383",
        "max_client_conn" => "1 to 65536",
        _ => "1 to 65535",
    }
}

/// Tells which values are allowed in place of this one.
pub(crate) fn refused_value(
    alloc: Global,
    value: &str,
    allowed: &str,
) -> Result<String, AllocError> {
    format!(in alloc; "'{value}' is refused; allowed: {allowed}")
}
