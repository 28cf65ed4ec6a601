//! Why sessions end with an error of their own.
use super::*;
use crate::checks::{assert_bytes, assert_same};
use client_state::Refusal;
use pg_frames::MessageLimit;

// Sends these frames, whatever is done about them, and returns why the session ended.
fn refusal_of(
    rt: &(impl Abort + AllocGlobal),
    frames: &[&[u8]],
) -> Result<Option<Refusal>, AllocError> {
    let mut client = new(rt.alloc());
    for text in frames {
        let frame = frame(rt.alloc(), text)?;
        assert!(rt; client.may_read());
        let _act = client.on_client(&frame);
    }
    Ok(client.refusal())
}

// Frames of a client, and why the last of them is refused.
const FRAMES: &[(&[&[u8]], Refusal)] = &[
    (&[b"P\0\0\0\x06s\0"], Refusal::NamedStatement),
    (&[b"P\0\0\0\x05s"], Refusal::Malformed),
    (&[b"B\0\0\0\x07\0s\0"], Refusal::NamedStatement),
    (&[b"B\0\0\0\x07p\0\0"], Refusal::Portal),
    (&[b"B\0\0\0\x08p\0s\0"], Refusal::Portal),
    (&[b"B\0\0\0\x06p\0"], Refusal::Malformed),
    (&[b"D\0\0\0\x07Ss\0"], Refusal::NamedStatement),
    (&[b"D\0\0\0\x07Pp\0"], Refusal::Portal),
    (&[b"C\0\0\0\x07Ss\0"], Refusal::NamedStatement),
    (&[b"C\0\0\0\x07Pp\0"], Refusal::Portal),
    (&[b"C\0\0\0\x07Xp\0"], Refusal::Malformed),
    (&[b"D\0\0\0\x06Pp"], Refusal::Malformed),
    (&[b"D\0\0\0\x04"], Refusal::Malformed),
    (&[b"E\0\0\0\x0ap\0\0\0\0\0"], Refusal::Portal),
    (&[b"E\0\0\0\x04"], Refusal::Malformed),
    (&[b"H\0\0\0\x04"], Refusal::Flush),
    (&[b"F\0\0\0\x0e\0\0\0\0\0\0\0\0\0\0"], Refusal::FunctionCall),
    (&[b"d\0\0\0\x04"], Refusal::Copy),
    (&[b"c\0\0\0\x04"], Refusal::Copy),
    (&[b"f\0\0\0\x05\0"], Refusal::Copy),
    (&[b"Q\0\0\0\x05x"], Refusal::Malformed),
    (&[b"S\0\0\0\x05\0"], Refusal::Malformed),
    (&[b"p\0\0\0\x04"], Refusal::UnknownType),
    (&[b"Z\0\0\0\x05I"], Refusal::UnknownType),
    (
        &[b"P\0\0\0\x05\0", b"Q\0\0\0\x0dselect 1\0"],
        Refusal::OutOfPlace,
    ),
    (
        &[b"P\0\0\0\x05\0", b"P\0\0\0\x06s\0"],
        Refusal::NamedStatement,
    ),
];

#[test]
fn client_frames(rt: HostRuntime) -> Result<(), Fail> {
    for (frames, expected) in FRAMES {
        assert_same(&rt, refusal_of(&rt, frames)?, Some(*expected));
    }
    Ok(())
}

// Sessions that go on, and one that its client leaves, are refused nothing.
#[test]
fn nothing(rt: HostRuntime) -> Result<(), Fail> {
    assert_same(&rt, refusal_of(&rt, &[])?, None);
    assert_same(&rt, refusal_of(&rt, &[BEGIN])?, None);
    assert_same(&rt, refusal_of(&rt, &[b"P\0\0\0\x05\0"])?, None);
    assert_same(&rt, refusal_of(&rt, &[b"X\0\0\0\x04"])?, None);
    Ok(())
}

// Messages of an extended query of 8,191 and 10 bytes, at a limit of 8,192.
#[test]
fn group(rt: HostRuntime) -> Result<(), Fail> {
    let Some(limit) = MessageLimit::new(8_192) else {
        return Err(Fail::from("no limit"));
    };
    let mut client = Client::with_limit(rt.alloc(), limit, DatabaseNo(3));
    let mut body = Vec::new(rt.alloc());
    body.resize(8_186, 0)?;
    let parse = Frame {
        kind: b'P',
        body: Body::from(body),
    };
    assert_client(&rt, &mut client, parse, ToClient(b""));
    let execute = frame(rt.alloc(), b"E\0\0\0\x09\0\0\0\0\0")?;
    assert_client(&rt, &mut client, execute, End(VIOLATION));
    assert_same(&rt, client.refusal(), Some(Refusal::TooLong(8_201)));
    Ok(())
}

// The head of a message of a link, and why it is refused while a request is outstanding.
const HEADS: &[(u8, usize, Option<Refusal>)] = &[
    (b'D', 6, None),
    (b'Z', 5, None),
    (b'G', 7, Some(Refusal::Copy)),
    (b'H', 7, Some(Refusal::Copy)),
    (b'W', 7, Some(Refusal::Copy)),
    (b'A', 11, Some(Refusal::Notification)),
    (b'Z', 6, Some(Refusal::LinkMessage)),
    (b'R', 8, Some(Refusal::LinkMessage)),
    (b'd', 4, Some(Refusal::LinkMessage)),
];

fn assert_head(rt: &impl Abort, client: &mut Client, kind: u8, len: usize, why: Option<Refusal>) {
    assert!(rt; client.holds_lease());
    let _act = client.on_link_head(kind, len);
    assert_same(rt, client.refusal(), why);
}

fn assert_status(rt: &impl Abort, client: &mut Client, status: u8, why: Option<Refusal>) {
    assert!(rt; client.holds_lease());
    let _act = client.on_ready(status);
    assert_same(rt, client.refusal(), why);
}

#[test]
fn link_frames(rt: HostRuntime) -> Result<(), Fail> {
    for (kind, len, why) in HEADS {
        assert_head(&rt, &mut asking(&rt)?, *kind, *len, *why);
    }
    let unasked = Some(Refusal::OutOfPlace);
    assert_head(&rt, &mut in_transaction(&rt)?, b'Z', 5, unasked);
    assert_status(&rt, &mut in_transaction(&rt)?, b'I', unasked);
    assert_status(&rt, &mut asking(&rt)?, b'I', None);
    assert_status(&rt, &mut asking(&rt)?, b'T', None);
    assert_status(&rt, &mut asking(&rt)?, b'i', Some(Refusal::LinkMessage));
    Ok(())
}

// Streams that aren't cut into messages.
#[test]
fn faults(rt: HostRuntime) -> Result<(), Fail> {
    let mut client = new(rt.alloc());
    let _act = client.on_client_fault();
    assert_same(&rt, client.refusal(), Some(Refusal::Malformed));
    let mut client = asking(&rt)?;
    assert!(rt; client.holds_lease());
    let _act = client.on_link_fault();
    assert_same(&rt, client.refusal(), Some(Refusal::LinkLost));
    Ok(())
}

const NAMES: &[(Refusal, &str)] = &[
    (Refusal::NamedStatement, "named_statement"),
    (Refusal::Portal, "portal"),
    (Refusal::Flush, "flush"),
    (Refusal::FunctionCall, "function_call"),
    (Refusal::Copy, "copy"),
    (Refusal::TooLong(8_193), "too_long"),
    (Refusal::Malformed, "malformed"),
    (Refusal::OutOfPlace, "out_of_place"),
    (Refusal::UnknownType, "unknown_type"),
    (Refusal::Notification, "notification"),
    (Refusal::LinkLost, "link_lost"),
    (Refusal::LinkMessage, "link_message"),
];

#[test]
fn names(rt: HostRuntime) {
    for (refusal, name) in NAMES {
        assert_bytes(&rt, refusal.name().as_bytes(), name.as_bytes());
    }
}

// The codes of replies.
#[test]
fn codes(rt: HostRuntime) -> Result<(), Fail> {
    assert_same(&rt, Reply::nothing().error_code(), None);
    assert_same(&rt, Reply::ready(b'I').error_code(), None);
    let code = ErrorCode::QueryCanceled;
    let error = Reply::error(rt.alloc(), Severity::Error, code)?;
    assert_same(&rt, error.error_code(), Some(code));
    Ok(())
}
