//! The words of a call.
use std::alloc::{AllocError, Global};

/// The words with spaces between. What is between two single quotes is a word of its own.
pub(crate) fn words_of<'a>(alloc: Global, line: &'a str) -> Result<Vec<&'a str>, AllocError> {
    let mut words = Vec::new(alloc);
    let mut is_quoted = false;
    for part in line.split('\'') {
        if is_quoted {
            words.push(part)?;
        } else {
            push_plain(&mut words, part)?;
        }
        is_quoted = !is_quoted;
    }
    Ok(words)
}

// Adds the words between spaces.
fn push_plain<'a>(words: &mut Vec<&'a str>, part: &'a str) -> Result<(), AllocError> {
    for word in part.split(' ') {
        if !word.is_empty() {
            words.push(word)?;
        }
    }
    Ok(())
}
