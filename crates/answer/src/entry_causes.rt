//! The causes of faults in entries of `[databases]` and `[peers]`, in words (own).
use crate::causes::{form_words, refused_value, value_in};
use ini_config::{IniCode, number_in};
use std::alloc::{AllocError, Global};

/// An entry at fault.
#[derive(Clone, Copy)]
pub(crate) struct Entry<'a> {
    /// Its name.
    pub name: &'a str,
    /// Its line, without the blanks at its ends.
    pub line: &'a str,
    /// Whether it is one of `[peers]`.
    pub is_peer: bool,
}

// The keys that a pair of an entry may have.
const KEYS: [&str; 5] = ["host", "port", "user", "dbname", "pool_size"];

// A pair of an entry.
#[derive(Clone, Copy)]
struct Pair<'a> {
    key: &'a str,
    value: &'a str,
}

/// Words on the cause of an entry's fault; none where its sentence tells it.
pub(crate) fn entry_cause(
    alloc: Global,
    code: IniCode,
    entry: Entry<'_>,
) -> Result<String, AllocError> {
    let words = words_of(alloc, value_in(entry.line))?;
    match code {
        IniCode::BadLine => bad_form(alloc, entry, &words),
        IniCode::UnknownKey => unknown_key(alloc, entry, &words),
        IniCode::BadNumber | IniCode::OutOfRange => bad_number(alloc, code, entry, &words),
        IniCode::Repeated => repeated(alloc, &words),
        IniCode::Missing => missing(alloc, entry, &words),
        IniCode::NotInProfile => not_supported(alloc, entry, &words),
        _ => Ok(String::new(alloc)),
    }
}

// The words between spaces and tabs.
fn words_of<'a>(alloc: Global, value: &'a str) -> Result<Vec<&'a str>, AllocError> {
    let mut words = Vec::new(alloc);
    for part in value.split('\t') {
        push_words(&mut words, part)?;
    }
    Ok(words)
}

fn push_words<'a>(words: &mut Vec<&'a str>, part: &'a str) -> Result<(), AllocError> {
    for word in part.split(' ') {
        if !word.is_empty() {
            words.push(word)?;
        }
    }
    Ok(())
}

// What stands before and behind the first `=` of a word.
fn pair_of<'a>(word: &'a str) -> Pair<'a> {
    match word.split_once('=') {
        Some((key, value)) => Pair { key, value },
        None => Pair {
            key: word,
            value: "",
        },
    }
}

// The name has no form of a name, or a word isn't a pair.
fn bad_form(alloc: Global, entry: Entry<'_>, words: &[&str]) -> Result<String, AllocError> {
    let form = form_words(entry.name, entry.line);
    if !form.is_empty() {
        return String::from_str(alloc, form);
    }
    for word in words {
        let pair = pair_of(word);
        if pair.key.is_empty() || pair.value.is_empty() {
            return bad_pair(alloc, word, entry.line);
        }
    }
    Ok(String::new(alloc))
}

fn bad_pair(alloc: Global, word: &str, line: &str) -> Result<String, AllocError> {
    if line.as_bytes().contains(&b',') {
        format!(in alloc; "'{word}' is no KEY=VALUE; a list of hosts is not supported, give one")
    } else {
        format!(in alloc; "'{word}' is no KEY=VALUE")
    }
}

fn unknown_key(alloc: Global, entry: Entry<'_>, words: &[&str]) -> Result<String, AllocError> {
    for word in words {
        let key = pair_of(word).key;
        if !is_known(entry, key) {
            return refused_value(alloc, key, allowed_in(entry));
        }
    }
    Ok(String::new(alloc))
}

fn is_known(entry: Entry<'_>, key: &str) -> bool {
    match key {
        "host" | "port" | "pool_size" => true,
        "user" | "dbname" => !entry.is_peer,
        _ => false,
    }
}

fn allowed_in(entry: Entry<'_>) -> &'static str {
    if entry.is_peer {
        "host, port, pool_size"
    } else {
        "host, port, user, dbname, pool_size"
    }
}

// The number of a peer is refused, or that in a pair, or there are too many entries.
fn bad_number(
    alloc: Global,
    code: IniCode,
    entry: Entry<'_>,
    words: &[&str],
) -> Result<String, AllocError> {
    if entry.is_peer && is_refused(16_383, entry.name, code) {
        let number = Pair {
            key: "peer_id",
            value: entry.name,
        };
        return refused_pair(alloc, number, "1 to 16383");
    }
    for word in words {
        let pair = pair_of(word);
        if is_number(pair.key) && is_refused(65_535, pair.value, code) {
            return refused_pair(alloc, pair, "1 to 65535");
        }
    }
    match code {
        IniCode::OutOfRange => String::from_str(alloc, "a section has at most 64 entries"),
        _ => Ok(String::new(alloc)),
    }
}

fn is_number(key: &str) -> bool {
    key == "port" || key == "pool_size"
}

// Whether a text is no number from 1 to `most`, for this reason.
fn is_refused(most: u32, text: &str, code: IniCode) -> bool {
    match number_in(1, most, text) {
        Ok(_) => false,
        Err(found) => found == code,
    }
}

fn refused_pair(alloc: Global, pair: Pair<'_>, allowed: &str) -> Result<String, AllocError> {
    let key = pair.key;
    let value = pair.value;
    format!(in alloc; "'{value}' is refused as {key}; allowed: {allowed}")
}

// A pair is there twice, or the entry.
fn repeated(alloc: Global, words: &[&str]) -> Result<String, AllocError> {
    for key in &KEYS {
        if count_of(key, words) > 1 {
            return format!(in alloc; "it has {key} twice");
        }
    }
    String::from_str(alloc, "an entry of this name stands before it")
}

fn count_of(key: &str, words: &[&str]) -> usize {
    let mut count = 0_usize;
    for word in words {
        if pair_of(word).key == key {
            count = count.saturating_add(1);
        }
    }
    count
}

// The pairs that an entry has to have.
fn missing(alloc: Global, entry: Entry<'_>, words: &[&str]) -> Result<String, AllocError> {
    let mut text = String::new(alloc);
    for key in &["host", "port", "user"] {
        if is_required(entry, key) && count_of(key, words) == 0 {
            text.push_str(if text.is_empty() {
                "it has no "
            } else {
                " and no "
            })?;
            text.push_str(key)?;
        }
    }
    Ok(text)
}

fn is_required(entry: Entry<'_>, key: &str) -> bool {
    !(entry.is_peer && key == "user")
}

// A reserved name, a quote, or a host that is a path.
fn not_supported(alloc: Global, entry: Entry<'_>, words: &[&str]) -> Result<String, AllocError> {
    if !entry.is_peer && entry.name == "*" {
        return String::from_str(alloc, "each database needs a line of its own");
    }
    if !entry.is_peer && entry.name == "pgbouncer" {
        return String::from_str(alloc, "the console has this name");
    }
    if entry.line.as_bytes().contains(&b'\'') {
        return String::from_str(alloc, "a value may have no quote (')");
    }
    for word in words {
        let pair = pair_of(word);
        if pair.key == "host" && pair.value.starts_with('/') {
            return refused_pair(alloc, pair, "a name or an address, no path of a socket");
        }
    }
    Ok(String::new(alloc))
}
