//! The fields of an error, and which of a server's last messages is one.
use link_state::first_error;
use startup::error_field;
use std::process::Abort;
use std::test::Fail;

// The body of an ErrorResponse (PostgreSQL manual, "Error and Notice Message Fields").
const BODY: &[u8] = b"SFATAL\0VFATAL\0C53300\0Mtoo many clients\0\0";

// A ParameterStatus, a NoticeResponse and an ErrorResponse (PostgreSQL manual, "Message Formats").
const STATUS: &[u8] = b"S\0\0\0\x08a\0b\0";

const NOTICE: &[u8] = b"N\0\0\0\x0aSLOG\0\0";

const ERROR: &[u8] = b"E\0\0\0\x13SFATAL\0C57P01\0\0";

const SECOND: &[u8] = b"E\0\0\0\x13SFATAL\0C08006\0\0";

fn assert_field(rt: &impl Abort, body: &[u8], kind: u8, expected: &[u8]) {
    let found = error_field(body, kind);
    assert_eq!(rt; found, Some(expected));
}

#[test]
fn each_field_is_found(rt: HostRuntime) {
    assert_field(&rt, BODY, b'S', b"FATAL");
    assert_field(&rt, BODY, b'V', b"FATAL");
    assert_field(&rt, BODY, b'C', b"53300");
    assert_field(&rt, BODY, b'M', b"too many clients");
    assert_eq!(&rt; error_field(BODY, b'D'), None);
}

// A field is found once its zero byte came.
#[test]
fn a_body_in_parts(rt: HostRuntime) {
    let (severity, _rest) = BODY.split_at(15);
    assert_field(&rt, severity, b'V', b"FATAL");
    assert_eq!(&rt; error_field(severity, b'C'), None);
    let (code, _rest) = BODY.split_at(20);
    assert_eq!(&rt; error_field(code, b'C'), None);
    let (code, _rest) = BODY.split_at(21);
    assert_field(&rt, code, b'C', b"53300");
}

// The first of several fields of one type counts, and none behind the zero byte that ends them.
#[test]
fn other_bodies(rt: HostRuntime) {
    assert_field(&rt, b"MA\0Cx\0MB\0\0", b'M', b"A");
    assert_field(&rt, b"D\0\0", b'D', b"");
    assert_eq!(&rt; error_field(b"", b'M'), None);
    assert_eq!(&rt; error_field(b"\0MA\0\0", b'M'), None);
    assert_eq!(&rt; error_field(b"\0A\0", 0), None);
}

// In each prefix of these bytes no error is found before the first is complete, and then this one.
fn assert_found_when_complete(rt: &impl Abort, bytes: &[u8], complete_at: usize) {
    for end in 0..=bytes.len() {
        let found = first_error(bytes.split_at(end.min(bytes.len())).0);
        let expected = if end < complete_at { None } else { Some(ERROR) };
        assert_eq!(rt; found, expected, "{end}");
    }
}

#[test]
fn the_first_error_is_found(rt: HostRuntime) -> Result<(), Fail> {
    let mut bytes = Vec::new(rt.alloc());
    for message in [STATUS, NOTICE, ERROR, SECOND] {
        bytes.extend_from_slice(message)?;
    }
    let complete_at = STATUS.len() + NOTICE.len() + ERROR.len();
    assert_found_when_complete(&rt, bytes.as_slice(), complete_at);
    Ok(())
}

#[test]
fn malformed_messages_have_no_error(rt: HostRuntime) {
    assert_eq!(&rt; first_error(b"E\0\0\0\x03SF"), None);
    assert_eq!(&rt; first_error(b"S\0\0\0\0E\0\0\0\x04"), None);
    assert_eq!(&rt; first_error(b"S\xff\xff\xff\xffE\0\0\0\x04"), None);
}
