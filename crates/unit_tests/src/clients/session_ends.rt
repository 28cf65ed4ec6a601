//! Streams and links that fail, a request that is dropped, and the texts of errors.
use super::*;
use crate::checks::{assert_bytes, assert_same};

fn assert_client_fault(rt: &impl Abort, client: &mut Client, expected: Done<'_>) {
    assert_done(rt, &client.on_client_fault(), expected);
    assert_same(rt, client.holds_lease(), false);
}

fn assert_link_fault(rt: &impl Abort, client: &mut Client, expected: Done<'_>) {
    assert!(rt; client.holds_lease());
    assert_done(rt, &client.on_link_fault(), expected);
    assert_same(rt, client.may_read(), true);
}

// Streams that aren't cut into frames, and a link that is lost.
#[test]
fn faults(rt: HostRuntime) -> Result<(), Fail> {
    assert_client_fault(&rt, &mut new(rt.alloc()), End(VIOLATION));
    assert_client_fault(&rt, &mut in_transaction(&rt)?, Close(VIOLATION));
    assert_link_fault(&rt, &mut asking(&rt)?, Close(LOST));
    Ok(())
}

// A request that is dropped leaves the session as it was before it.
#[test]
fn dropped(rt: HostRuntime) -> Result<(), Fail> {
    let mut client = asking(&rt)?;
    client.drop_request();
    assert!(rt; !client.holds_lease());
    assert_client(&rt, &mut client, frame(rt.alloc(), BEGIN)?, Need(BEGIN));
    Ok(())
}

// The FATAL 3D000 and an ERROR, byte for byte.
#[test]
fn errors(rt: HostRuntime) -> Result<(), Fail> {
    let unknown = Reply::error(rt.alloc(), Severity::Fatal, ErrorCode::InvalidCatalogName)?;
    let text = b"E\0\0\0\x2cSFATAL\0VFATAL\0C3D000\0Mno such database\0\0";
    assert_bytes(&rt, unknown.as_slice(), text.as_slice());
    let canceled = Reply::error(rt.alloc(), Severity::Error, ErrorCode::QueryCanceled)?;
    let text = b"E\0\0\0\x2aSERROR\0VERROR\0C57014\0Mquery canceled\0\0";
    assert_bytes(&rt, canceled.as_slice(), text.as_slice());
    Ok(())
}
