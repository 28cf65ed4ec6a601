//! The words of messages that were written to a stream.
use crate::book::Book;
use crate::kinds::Kind;
use std::alloc::AllocError;

// Appends the words of what was written. What isn't a whole message is given as bytes.
pub(crate) fn put_words(
    book: &Book,
    kinds: &[Kind],
    bytes: &[u8],
    out: &mut String,
) -> Result<(), AllocError> {
    let mut rest = bytes;
    for _message in 0..bytes.len() {
        if rest.is_empty() {
            return Ok(());
        }
        if rest.len() != bytes.len() {
            out.push_str(", ")?;
        }
        rest = put_message(book, kinds, rest, out)?;
    }
    Ok(())
}

// Appends the first message's words. Returns the bytes behind it.
fn put_message<'a>(
    book: &Book,
    kinds: &[Kind],
    bytes: &'a [u8],
    out: &mut String,
) -> Result<&'a [u8], AllocError> {
    if let Some((name, rest)) = book.longest(bytes) {
        out.push_str(name)?;
        return Ok(rest);
    }
    let Some((kind, body, rest)) = cut(kinds, bytes) else {
        out.push_str("bytes")?;
        return put_bytes(bytes, bytes.len(), out);
    };
    out.push_str(kind.name)?;
    put_body(kind, body, out)?;
    Ok(rest)
}

// The first message, its body and the bytes behind it.
fn cut<'a>(kinds: &[Kind], bytes: &'a [u8]) -> Option<(Kind, &'a [u8], &'a [u8])> {
    let (first, behind) = bytes.split_first()?;
    let (letter, rest) = if *first == 0 {
        (0, bytes)
    } else {
        (*first, behind)
    };
    let (head, rest) = rest.split_at_checked(4)?;
    let (body, rest) = rest.split_at_checked(number(head).checked_sub(4)?)?;
    for kind in kinds {
        if kind.letter == letter
            && let Some(fields) = body.strip_prefix(kind.code)
        {
            return Some((*kind, fields, rest));
        }
    }
    None
}

// The number in these bytes, the greatest first.
fn number(bytes: &[u8]) -> usize {
    let mut number = 0usize;
    for byte in bytes {
        number = number.wrapping_mul(256).wrapping_add(usize::from(*byte));
    }
    number
}

fn put_body(kind: Kind, body: &[u8], out: &mut String) -> Result<(), AllocError> {
    let mut rest = put_fields(kind.fields, body, out)?;
    for _field in 0..body.len() {
        if rest.is_empty() {
            return Ok(());
        }
        rest = put_fields(kind.repeated, rest, out)?;
    }
    Ok(())
}

// Appends fields, as far as there are bytes for them. Returns the bytes behind them.
fn put_fields<'a>(fields: &str, bytes: &'a [u8], out: &mut String) -> Result<&'a [u8], AllocError> {
    let mut rest = bytes;
    for field in fields.as_bytes() {
        if !rest.is_empty() {
            rest = put_field(*field, rest, out)?;
        }
    }
    Ok(rest)
}

fn put_field<'a>(field: u8, bytes: &'a [u8], out: &mut String) -> Result<&'a [u8], AllocError> {
    match field {
        b's' => put_string(bytes, out),
        b'c' => put_text(bytes, 1, out),
        b'2' => put_bytes(bytes, 2, out),
        b'4' => put_bytes(bytes, 4, out),
        b'v' => put_value(bytes, out),
        _ => put_bytes(bytes, bytes.len(), out),
    }
}

// A text up to a zero byte.
fn put_string<'a>(bytes: &'a [u8], out: &mut String) -> Result<&'a [u8], AllocError> {
    let end = bytes.iter().take_while(|byte| **byte != 0).count();
    let (text, behind) = bytes.split_at(end.min(bytes.len()));
    let Some((_zero, rest)) = behind.split_first() else {
        return put_bytes(bytes, bytes.len(), out);
    };
    if !is_plain(text) {
        return put_bytes(bytes, end.saturating_add(1), out);
    }
    out.push_str(" \"")?;
    push_text(text, out)?;
    out.push_str("\"")?;
    Ok(rest)
}

// A text of at most this many bytes.
fn put_text<'a>(bytes: &'a [u8], count: usize, out: &mut String) -> Result<&'a [u8], AllocError> {
    let (text, rest) = bytes.split_at(count.min(bytes.len()));
    if !is_plain(text) {
        return put_bytes(bytes, count, out);
    }
    out.push_str(" '")?;
    push_text(text, out)?;
    out.push_str("'")?;
    Ok(rest)
}

// A length, and as many bytes.
fn put_value<'a>(bytes: &'a [u8], out: &mut String) -> Result<&'a [u8], AllocError> {
    let length = number(bytes.split_at(bytes.len().min(4)).0);
    let rest = put_bytes(bytes, 4, out)?;
    put_text(rest, length, out)
}

// At most this many bytes, in hexadecimal digits.
fn put_bytes<'a>(bytes: &'a [u8], count: usize, out: &mut String) -> Result<&'a [u8], AllocError> {
    let (shown, rest) = bytes.split_at(count.min(bytes.len()));
    if !shown.is_empty() {
        out.push_str(" ")?;
    }
    for byte in shown {
        write!(out, "{byte:02x}")?;
    }
    Ok(rest)
}

fn is_plain(text: &[u8]) -> bool {
    text.iter()
        .all(|byte| matches!(*byte, b' '..=b'~') && *byte != b'"')
}

// Appends a text of ASCII characters.
fn push_text(text: &[u8], out: &mut String) -> Result<(), AllocError> {
    for byte in text {
        out.push(char::from(*byte))?;
    }
    Ok(())
}
