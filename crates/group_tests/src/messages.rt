//! Messages of the protocol, worked out by hand from the PostgreSQL manual's message formats.
use std::alloc::{AllocError, Global};

// StartupMessage of a client that asks for the database `shop`, of one that does so by the protocol
// of long keys, of one that asks for the database `work`, and of one that asks for the console.
pub(crate) const STARTUP: &[u8] = b"\0\0\0\x20\0\x03\0\0user\0ann\0database\0shop\0\0";

pub(crate) const LONG_STARTUP: &[u8] = b"\0\0\0\x20\0\x03\0\x02user\0ann\0database\0shop\0\0";

pub(crate) const WORK_STARTUP: &[u8] = b"\0\0\0\x20\0\x03\0\0user\0ann\0database\0work\0\0";

pub(crate) const CONSOLE_STARTUP: &[u8] = b"\0\0\0\x25\0\x03\0\0user\0ann\0database\0pgbouncer\0\0";

// A login up to its key: AuthenticationOk and three ParameterStatus.
pub(crate) const GREETING: &[u8] = b"R\0\0\0\x08\0\0\0\0\
    S\0\0\0\x16server_version\x0016\0\
    S\0\0\0\x19server_encoding\0UTF8\0\
    S\0\0\0\x19client_encoding\0UTF8\0";

// BackendKeyData, up to the eight bytes of a short key or the 24 of a long one.
pub(crate) const KEY: &[u8] = b"K\0\0\0\x0c";

pub(crate) const LONG_KEY: &[u8] = b"K\0\0\0\x1c";

// CancelRequest, up to the bytes of such a key.
pub(crate) const CANCEL: &[u8] = b"\0\0\0\x10\x04\xd2\x16\x2e";

pub(crate) const LONG_CANCEL: &[u8] = b"\0\0\0\x20\x04\xd2\x16\x2e";

// A key of node 1 that no client has: slot 5, secret 1 and 3 hops.
pub(crate) const UNKNOWN_KEY: &[u8] = b"\0\x04\0\x14\0\0\0\x07";

// Parse of a statement with the name `a`: an empty query, and no types of parameters.
pub(crate) const PARSE_NAMED: &[u8] = b"P\0\0\0\x09a\0\0\0\0";

// ReadyForQuery: no transaction is open, and one is.
pub(crate) const IDLE: &[u8] = b"Z\0\0\0\x05I";

pub(crate) const OPEN: &[u8] = b"Z\0\0\0\x05T";

// CommandComplete of `begin` and of `commit`.
pub(crate) const BEGIN: &[u8] = b"C\0\0\0\x0aBEGIN\0";

pub(crate) const COMMIT: &[u8] = b"C\0\0\0\x0bCOMMIT\0";

// ErrorResponse: the query was canceled.
pub(crate) const CANCELED: &[u8] = b"E\0\0\0\x2aSERROR\0VERROR\0C57014\0Mquery canceled\0\0";

// ErrorResponse of a session that ends: the client's message isn't taken, isn't supported, and the
// link was lost.
pub(crate) const VIOLATION: &[u8] = b"E\0\0\0\x2eSFATAL\0VFATAL\0C08P01\0Mprotocol violation\0\0";

pub(crate) const UNSUPPORTED: &[u8] =
    b"E\0\0\0\x2fSFATAL\0VFATAL\0C0A000\0Mnot in this profile\0\0";

pub(crate) const LOST: &[u8] = b"E\0\0\0\x32SFATAL\0VFATAL\0C08006\0Mserver connection lost\0\0";

// The answer to `echo hi`, without ReadyForQuery.
pub(crate) const HI: &[u8] =
    b"T\0\0\0\x1d\0\x01echo\0\0\0\0\0\0\0\0\0\0\x19\xff\xff\xff\xff\xff\xff\0\0\
    D\0\0\0\x0c\0\x01\0\0\0\x02hi\
    C\0\0\0\x0dSELECT 1\0";

// What follows the name of a column in RowDescription: table 0 and column 0; type 25, which is
// `text`; size -1 and modifier -1; format 0, which is text.
const COLUMN: &[u8] = b"\0\0\0\0\0\0\0\0\0\x19\xff\xff\xff\xff\xff\xff\0\0";

// CommandComplete of the console.
const SHOW: &[u8] = b"C\0\0\0\x09SHOW\0";

// Bytes, one after another.
pub(crate) fn joined(alloc: Global, parts: &[&[u8]]) -> Result<Vec<u8>, AllocError> {
    let mut out = Vec::new(alloc);
    for part in parts {
        out.extend_from_slice(part)?;
    }
    Ok(out)
}

// The Query of a text.
pub(crate) fn query(alloc: Global, text: &str) -> Result<Vec<u8>, AllocError> {
    let body = joined(alloc, &[text.as_bytes(), b"\0"])?;
    let mut out = Vec::new(alloc);
    put_message(&mut out, b'Q', body.as_slice())?;
    Ok(out)
}

// Appends a message of this type and body.
pub(crate) fn put_message(out: &mut Vec<u8>, kind: u8, body: &[u8]) -> Result<(), AllocError> {
    out.push(kind)?;
    put_length(out, body.len().saturating_add(4))?;
    out.extend_from_slice(body)
}

// Appends an Int32.
fn put_length(out: &mut Vec<u8>, length: usize) -> Result<(), AllocError> {
    out.extend_from_slice(&(length as u64).to_be_bytes()[4..])
}

// Appends an Int16.
fn put_count(out: &mut Vec<u8>, count: usize) -> Result<(), AllocError> {
    out.extend_from_slice(&(count as u64).to_be_bytes()[6..])
}

// Appends RowDescription of columns with these names.
pub(crate) fn put_description(
    alloc: Global,
    out: &mut Vec<u8>,
    names: &[&str],
) -> Result<(), AllocError> {
    let mut body = Vec::new(alloc);
    put_count(&mut body, names.len())?;
    for name in names {
        body.extend_from_slice(name.as_bytes())?;
        body.push(0)?;
        body.extend_from_slice(COLUMN)?;
    }
    put_message(out, b'T', body.as_slice())
}

// Appends DataRow of these values.
pub(crate) fn put_row(alloc: Global, out: &mut Vec<u8>, values: &[&str]) -> Result<(), AllocError> {
    let mut body = Vec::new(alloc);
    put_count(&mut body, values.len())?;
    for value in values {
        put_length(&mut body, value.len())?;
        body.extend_from_slice(value.as_bytes())?;
    }
    put_message(out, b'D', body.as_slice())
}

// Appends what follows the rows of a console's answer.
pub(crate) fn put_end(out: &mut Vec<u8>) -> Result<(), AllocError> {
    out.extend_from_slice(SHOW)?;
    out.extend_from_slice(IDLE)
}
