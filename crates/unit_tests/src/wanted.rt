//! How much of a connection's first packets is read, in pieces of every size.
use startup::{First, Opening, Wanted};
use std::alloc::{AllocError, Global};
use std::process::Abort;
use std::test::Fail;

// Packets of the PostgreSQL manual, "Message Formats": a CancelRequest with a key of 8 bytes, and
// one with a key of 24; an SSLRequest; a GSSENCRequest; a StartupMessage of protocol 3.0.
const CANCEL: &[u8] = b"\0\0\0\x10\x04\xd2\x16\x2e\0\0\0\x03\0\x0f\x42\x43";

const LONG_CANCEL: &[u8] = b"\0\0\0\x20\x04\xd2\x16\x2e123456789012345678901234";

const SSL: &[u8] = b"\0\0\0\x08\x04\xd2\x16\x2f";

const GSS: &[u8] = b"\0\0\0\x08\x04\xd2\x16\x30";

const STARTUP: &[u8] = b"\0\0\0\x12\0\x03\0\0user\0app\0\0";

// What was found of a connection's bytes.
#[derive(Clone, Copy, Debug, PartialEq, Eq)]
enum Found {
    // A StartupMessage.
    Startup,
    // A CancelRequest, of which all but the last byte was read.
    Cancel,
    // A request for encryption.
    Encryption,
    // A fault.
    Fault,
    // Nothing yet.
    Nothing,
}

// What is found of these bytes if a read gives at most `most`, and how many are left unread.
fn read(alloc: Global, bytes: &[u8], most: usize) -> Result<(usize, Found), AllocError> {
    let mut opening = Opening::new(alloc);
    let mut read = Vec::new(alloc);
    let mut rest = bytes;
    for _ in 0..bytes.len() + 1 {
        let wanted = match opening.read(read.as_slice(), false) {
            Ok(First::Startup { .. }) => return Ok((rest.len(), Found::Startup)),
            Ok(First::Cancel { .. }) => return Ok((rest.len(), Found::Fault)),
            Ok(First::Ssl | First::Gss) => return Ok((rest.len(), Found::Encryption)),
            Ok(First::More) => Wanted::after(read.as_slice()),
            Err(_) => return Ok((rest.len(), Found::Fault)),
        };
        let Wanted::Read(wanted) = wanted else {
            return Ok((rest.len(), Found::Cancel));
        };
        let (taken, others) = rest.split_at(wanted.min(most).min(rest.len()));
        read.extend_from_slice(taken)?;
        rest = others;
    }
    Ok((rest.len(), Found::Nothing))
}

fn expect(
    rt: &impl Abort,
    alloc: Global,
    bytes: &[u8],
    expected: (usize, Found),
) -> Result<(), Fail> {
    for most in 1..40 {
        assert_eq!(rt; read(alloc, bytes, most)?, expected);
    }
    Ok(())
}

#[test]
fn the_last_byte_of_a_cancel_request_stays_unread(rt: HostRuntime) -> Result<(), Fail> {
    expect(&rt, rt.alloc(), CANCEL, (1, Found::Cancel))?;
    expect(&rt, rt.alloc(), LONG_CANCEL, (1, Found::Cancel))
}

#[test]
fn a_start_up_packet_is_read_to_its_end(rt: HostRuntime) -> Result<(), Fail> {
    expect(&rt, rt.alloc(), STARTUP, (0, Found::Startup))?;
    let followed = b"\0\0\0\x12\0\x03\0\0user\0app\0\0Q\0\0\0\x04";
    expect(&rt, rt.alloc(), followed, (5, Found::Startup))
}

#[test]
fn what_follows_a_request_for_encryption_is_left(rt: HostRuntime) -> Result<(), Fail> {
    for request in [SSL, GSS] {
        expect(&rt, rt.alloc(), request, (0, Found::Encryption))?;
    }
    let both = b"\0\0\0\x08\x04\xd2\x16\x2f\0\0\0\x10\x04\xd2\x16\x2e\0\0\0\x03\0\x0f\x42\x43";
    expect(&rt, rt.alloc(), both, (16, Found::Encryption))
}

#[test]
fn another_length_or_code_is_refused(rt: HostRuntime) -> Result<(), Fail> {
    let short = b"\0\0\0\x0c\x04\xd2\x16\x2e\0\0\0\x03";
    expect(&rt, rt.alloc(), short, (4, Found::Fault))?;
    let old = b"\0\0\0\x12\0\x02\0\0user\0app\0\0";
    expect(&rt, rt.alloc(), old, (10, Found::Fault))
}
