//! The messages of an answer.
ghost use Rattle.std.specs.Prelude.{◌≡◌, ◌<◌, ◌^◌, ◌++◌, map, length, IfOk, OnOk};
ghost use Rattle.console.specs.Rows as answer;

use pg_frames::{Body, Frame};
use startup::{ErrorCode, Severity, write_error};
use std::alloc::{AllocError, Global};

// What follows a column's name in its description: the zero byte that ends the name; table 0 and
// column 0; type 25, which is `text`; size -1 and modifier -1; format 0, which is text.
const TEXT_COLUMN: &[u8; 19] = b"\0\0\0\0\0\0\0\0\0\0\x19\xff\xff\xff\xff\xff\xff\0\0";

// The length of a message's type byte and length field.
const HEADER_LEN: usize = 5;

/// RowDescription of columns of these names.
pub(crate) fn row_description(alloc: Global, names: &[&str]) -> Result<Frame, AllocError>
    requires { length names.now < 2 ^ 16 }
    ensures { IfOk result
        (λ frame. frame ≡ answer.row_description (map (λ name. name.now) names.now)) }
{
    let mut body = Vec::new(alloc);
    body.extend_from_slice(&(names.len() as u16).to_be_bytes())?;
    for name in names {
        put_column(&mut body, name)?;
    }
    Ok(Frame {
        kind: b'T',
        body: Body::from(body),
    })
}

// Appends the description of a column.
fn put_column(body: &mut Vec<u8>, name: &str) -> Result<(), AllocError>
    ensures { OnOk result (body.new.items ≡ body.old.items ++ answer.column name.now) }
{
    body.extend_from_slice(name.as_bytes())?;
    body.extend_from_slice(TEXT_COLUMN)
}

/// DataRow of these texts. Fails for a text of 4 GiB or more, too.
pub(crate) fn data_row(alloc: Global, texts: &[&str]) -> Result<Frame, AllocError>
    requires { length texts.now < 2 ^ 16 }
    ensures { IfOk result (λ frame. frame ≡ answer.data_row (map (λ text. text.now) texts.now)) }
{
    let mut body = Vec::new(alloc);
    body.extend_from_slice(&(texts.len() as u16).to_be_bytes())?;
    for text in texts {
        put_value(&mut body, text)?;
    }
    Ok(Frame {
        kind: b'D',
        body: Body::from(body),
    })
}

// Appends a value: its length, and its bytes.
fn put_value(body: &mut Vec<u8>, text: &str) -> Result<(), AllocError>
    ensures { OnOk result (body.new.items ≡ body.old.items ++ answer.value text.now) }
{
    let Ok(len) = u32::try_from(text.len()) else {
        return Err(AllocError);
    };
    body.extend_from_slice(&len.to_be_bytes())?;
    body.extend_from_slice(text.as_bytes())
}

/// CommandComplete.
pub(crate) fn command_complete(alloc: Global) -> Result<Frame, AllocError>
    ensures { IfOk result (λ frame. frame ≡ answer.command_complete) }
{
    let body = Body::from_slice(alloc, b"SHOW\0")?;
    Ok(Frame { kind: b'C', body })
}

/// ReadyForQuery, idle.
pub(crate) fn ready_for_query(alloc: Global) -> Result<Frame, AllocError>
    ensures { IfOk result (λ frame. frame ≡ answer.ready_for_query) }
{
    let body = Body::from_slice(alloc, b"I")?;
    Ok(Frame { kind: b'Z', body })
}

/// ErrorResponse to a text that is no query.
pub(crate) fn not_in_profile(alloc: Global) -> Result<Frame, AllocError>
    ensures { IfOk result (λ frame. frame ≡ answer.not_in_profile) }
{
    let error = ErrorCode::FeatureNotSupported;
    let mut message = Vec::new(alloc);
    if write_error(Severity::Error, error.code(), error.message(), &mut message).is_err() {
        return Err(AllocError);
    }
    let body = Body::from_slice(alloc, &message.as_slice()[HEADER_LEN..])?;
    Ok(Frame { kind: b'E', body })
}
