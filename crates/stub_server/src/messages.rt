//! The messages of an answer, and their text.
ghost use Rattle.std.specs.Prelude.{◌≡◌, IfOk};
ghost use Rattle.pg_frames.specs.FrameText.{texts};
ghost use Rattle.stub_server.specs.Answers as answer;

use crate::Transaction;
use pg_frames::{Body, Frame, put_frame};
use startup::{ErrorCode, Severity, write_error};
use std::alloc::{AllocError, Global};

// The body of RowDescription: one column, `echo`; table 0 and column 0; type 25, which is `text`;
// size -1 and modifier -1; format 0, which is text.
const ECHO_COLUMN: &[u8; 25] = b"\0\x01echo\0\0\0\0\0\0\0\0\0\0\x19\xff\xff\xff\xff\xff\xff\0\0";

// The length of a message's type byte and length field.
const HEADER_LEN: usize = 5;

// A message of this type, with a copy of these bytes.
fn message(alloc: Global, kind: u8, body: &[u8]) -> Result<Frame, AllocError>
    ensures { IfOk result (λ frame. frame ≡ answer.frame kind body.now) }
{
    let body = Body::from_slice(alloc, body)?;
    Ok(Frame { kind, body })
}

/// RowDescription of the one column.
pub(crate) fn row_description(alloc: Global) -> Result<Frame, AllocError>
    ensures { IfOk result (λ frame. frame ≡ answer.row_description) }
{
    message(alloc, b'T', ECHO_COLUMN)
}

/// DataRow of one value. Fails for a value of 4 GiB or more, too.
pub(crate) fn data_row(alloc: Global, value: &[u8]) -> Result<Frame, AllocError>
    ensures { IfOk result (λ frame. frame ≡ answer.data_row value.now) }
{
    let Ok(len) = u32::try_from(value.len()) else {
        return Err(AllocError);
    };
    let mut body = Vec::new(alloc);
    body.extend_from_slice(b"\0\x01")?;
    body.extend_from_slice(&len.to_be_bytes())?;
    body.extend_from_slice(value)?;
    Ok(Frame {
        kind: b'D',
        body: Body::from(body),
    })
}

/// CommandComplete of this tag, which ends with a zero byte.
pub(crate) fn command_complete(alloc: Global, tag: &[u8]) -> Result<Frame, AllocError>
    ensures { IfOk result (λ frame. frame ≡ answer.frame 67 tag.now) }
{
    message(alloc, b'C', tag)
}

/// ErrorResponse: a query failed.
pub(crate) fn error_response(alloc: Global, error: ErrorCode) -> Result<Frame, AllocError>
    ensures { IfOk result (λ frame. frame ≡ answer.error_response error) }
{
    let mut text = Vec::new(alloc);
    if write_error(Severity::Error, error.code(), error.message(), &mut text).is_err() {
        return Err(AllocError);
    }
    message(alloc, b'E', &text.as_slice()[HEADER_LEN..])
}

/// ReadyForQuery.
pub(crate) fn ready_for_query(alloc: Global, transaction: Transaction) -> Result<Frame, AllocError>
    ensures { IfOk result (λ frame. frame ≡ answer.ready_for_query transaction) }
{
    message(alloc, b'Z', &[transaction.status()])
}

/// The text of messages, one after another. Fails if memory runs out, or for a message that isn't
/// of the format.
pub(crate) fn texts_of(alloc: Global, messages: &[Frame]) -> Result<Vec<u8>, AllocError>
    ensures { IfOk result (λ out. out.items ≡ texts messages.now) }
{
    let mut out = Vec::new(alloc);
    for message in messages {
        if put_frame(message, &mut out).is_err() {
            return Err(AllocError);
        }
    }
    Ok(out)
}
