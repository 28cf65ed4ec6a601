//! Frames of a session's link.
use super::*;
use crate::checks::assert_same;

// What a session makes of the head of a link's frame.
#[derive(Clone, Copy, Debug, PartialEq, Eq)]
pub enum HeadDone<'a> {
    PassOn,
    Ready,
    Close(&'a [u8]),
}

fn head_done_by(act: &HeadAct) -> HeadDone<'_> {
    match act {
        HeadAct::PassOn => HeadDone::PassOn,
        HeadAct::Ready => HeadDone::Ready,
        HeadAct::Close(reply) => HeadDone::Close(reply.as_slice()),
    }
}

// The act on a head, and the text that it writes.
fn assert_head_done(rt: &impl Abort, act: &HeadAct, expected: HeadDone<'_>) {
    assert_eq!(rt; head_done_by(act), expected);
}

pub(super) fn assert_head(
    rt: &impl Abort,
    client: &mut Client,
    kind: u8,
    length: usize,
    expected: HeadDone<'_>,
) {
    assert!(rt; client.holds_lease());
    let asking = !client.may_read();
    assert_head_done(rt, &client.on_link_head(kind, length), expected);
    let closed = matches!(expected, HeadDone::Close(_));
    assert_same(rt, client.holds_lease(), !closed);
    assert_same(rt, client.may_read(), closed || !asking);
}

// A head of the link, and the act on it, with a request outstanding and with none alike.
const HEADS: &[(u8, usize, HeadDone<'static>)] = &[
    (b'Z', 4, HeadDone::Close(LOST)),
    (b'Z', 6, HeadDone::Close(LOST)),
    (b'T', 6, HeadDone::PassOn),
    (b'D', 6, HeadDone::PassOn),
    (b'D', 1_048_576, HeadDone::PassOn),
    (b'C', 10, HeadDone::PassOn),
    (b'I', 4, HeadDone::PassOn),
    (b'E', 13, HeadDone::PassOn),
    (b'N', 5, HeadDone::PassOn),
    (b'S', 8, HeadDone::PassOn),
    (b'1', 4, HeadDone::PassOn),
    (b'2', 4, HeadDone::PassOn),
    (b'3', 4, HeadDone::PassOn),
    (b'n', 4, HeadDone::PassOn),
    (b's', 4, HeadDone::PassOn),
    (b't', 6, HeadDone::PassOn),
    (b'G', 7, HeadDone::Close(LEFT_OUT)),
    (b'H', 7, HeadDone::Close(LEFT_OUT)),
    (b'W', 7, HeadDone::Close(LEFT_OUT)),
    (b'R', 8, HeadDone::Close(LOST)),
    (b'K', 12, HeadDone::Close(LOST)),
    (b'A', 11, HeadDone::Close(LOST)),
    (b'V', 8, HeadDone::Close(LOST)),
    (b'v', 12, HeadDone::Close(LOST)),
    (b'd', 4, HeadDone::Close(LOST)),
    (b'c', 4, HeadDone::Close(LOST)),
    (b'f', 4, HeadDone::Close(LOST)),
    (b'z', 5, HeadDone::Close(LOST)),
    (b'B', 4, HeadDone::Close(LOST)),
    (b'P', 4, HeadDone::Close(LOST)),
    (b'4', 4, HeadDone::Close(LOST)),
    (b'0', 4, HeadDone::Close(LOST)),
];

#[test]
fn heads(rt: HostRuntime) -> Result<(), Fail> {
    for (kind, length, expected) in HEADS {
        assert_head(&rt, &mut asking(&rt)?, *kind, *length, *expected);
        assert_head(&rt, &mut in_transaction(&rt)?, *kind, *length, *expected);
    }
    Ok(())
}

// A ReadyForQuery is read where a request is outstanding.
#[test]
fn ready_head(rt: HostRuntime) -> Result<(), Fail> {
    assert_head(&rt, &mut asking(&rt)?, b'Z', 5, HeadDone::Ready);
    assert_head(
        &rt,
        &mut in_transaction(&rt)?,
        b'Z',
        5,
        HeadDone::Close(LOST),
    );
    Ok(())
}

// A status, and the acts on it with a request outstanding.
const STATUSES: [(u8, Done<'static>); 6] = [
    (b'I', Release(b"Z\0\0\0\x05I")),
    (b'T', ToClient(b"Z\0\0\0\x05T")),
    (b'E', ToClient(b"Z\0\0\0\x05E")),
    (b'i', Close(LOST)),
    (b'\0', Close(LOST)),
    (b'A', Close(LOST)),
];

fn assert_status(rt: &impl Abort, client: &mut Client, status: u8, expected: Done<'_>) {
    assert_ready(rt, client, status, expected);
    assert_same(rt, client.holds_lease(), matches!(expected, ToClient(_)));
    assert_same(rt, client.may_read(), true);
}

#[test]
fn statuses(rt: HostRuntime) -> Result<(), Fail> {
    for (status, expected) in STATUSES {
        assert_status(&rt, &mut asking(&rt)?, status, expected);
        assert_status(&rt, &mut in_transaction(&rt)?, status, Close(LOST));
    }
    Ok(())
}
