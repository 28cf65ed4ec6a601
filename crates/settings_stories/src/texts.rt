//! The texts of a story: what its escapes stand for, and how a reply is written.
use std::alloc::{AllocError, Global};

/// A reply of one line.
pub(crate) fn told(alloc: Global, words: &str) -> Result<String, AllocError> {
    format!(in alloc; " -> {words}")
}

/// Appends a text this many times.
pub(crate) fn append_times(count: u16, text: &str, out: &mut String) -> Result<(), AllocError> {
    for number in 1..=u32::from(count) {
        append(text, number, out)?;
    }
    Ok(())
}

/// Appends a text, with what its escapes stand for: `\i` is this number.
pub(crate) fn append(text: &str, number: u32, out: &mut String) -> Result<(), AllocError> {
    let mut escaped = false;
    for character in text.chars() {
        if escaped {
            append_escape(character, number, out)?;
            escaped = false;
        } else if character == '\\' {
            escaped = true;
        } else {
            out.push(character)?;
        }
    }
    Ok(())
}

// Appends what this letter behind a backslash stands for.
fn append_escape(letter: char, number: u32, out: &mut String) -> Result<(), AllocError> {
    match letter {
        's' => out.push(' '),
        't' => out.push('\t'),
        'r' => out.push('\r'),
        'n' => out.push('\n'),
        '0' => out.push('\0'),
        'i' => write!(out, "{number}"),
        other => out.push(other),
    }
}
