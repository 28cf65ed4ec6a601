//! What a call wrote, as a story shows it.
use std::alloc::{AllocError, Global};

/// What a call wrote, and its status.
#[derive(Drop)]
pub struct Written {
    /// To standard output.
    pub out: Vec<u8>,
    /// To standard error.
    pub err: Vec<u8>,
    /// The status that the program ends with.
    pub status: u8,
}

impl Written {
    /// Nothing yet.
    pub(crate) fn new(alloc: Global) -> Written {
        Written {
            out: Vec::new(alloc),
            err: Vec::new(alloc),
            status: 0,
        }
    }

    /// Appends standard output, standard error with a mark before each line, and the status where
    /// it isn't 0.
    pub(crate) fn append_to(&self, alloc: Global, text: &mut Vec<u8>) -> Result<(), AllocError> {
        text.extend_from_slice(&self.out)?;
        end_line(&self.out, text)?;
        mark_lines(&self.err, text)?;
        end_line(&self.err, text)?;
        if self.status != 0 {
            let status = self.status;
            let line = format!(in alloc; "status {status}\n")?;
            text.extend_from_slice(line.as_bytes())?;
        }
        Ok(())
    }
}

// Appends lines, each behind a mark.
fn mark_lines(bytes: &[u8], text: &mut Vec<u8>) -> Result<(), AllocError> {
    let mut is_start = true;
    for byte in bytes {
        if is_start {
            text.extend_from_slice(mark(*byte))?;
        }
        text.push(*byte)?;
        is_start = *byte == b'\n';
    }
    Ok(())
}

// The mark of a line that begins with this byte.
fn mark(byte: u8) -> &'static [u8] {
    if byte == b'\n' { b"!" } else { b"! " }
}

// Appends a backslash and a line's end where the last line has no end.
fn end_line(bytes: &[u8], text: &mut Vec<u8>) -> Result<(), AllocError> {
    match bytes.last() {
        None => Ok(()),
        Some(last) => {
            if *last == b'\n' {
                Ok(())
            } else {
                text.extend_from_slice(b"\\\n")
            }
        }
    }
}

/// The first line with its end, and what is behind it.
pub(crate) fn cut_first_line(text: &[u8]) -> (&[u8], &[u8]) {
    match text.iter().position(|byte| *byte == b'\n') {
        Some(place) => text.split_at(place.saturating_add(1).min(text.len())),
        None => (text, b""),
    }
}

/// How many lines there are.
pub(crate) fn count_lines(text: &[u8]) -> usize {
    let mut count = 0_usize;
    for byte in text {
        if *byte == b'\n' {
            count = count.saturating_add(1);
        }
    }
    count
}
