//! Requests at another limit than the one where none is given.
use super::*;
use pg_frames::MessageLimit;

// 4 MiB.
const BYTES: u32 = 4_194_304;

fn new_within(alloc: Global) -> Result<Client, Fail> {
    match MessageLimit::new(BYTES) {
        Some(limit) => Ok(Client::with_limit(alloc, limit, DatabaseNo(3))),
        None => Err(Fail::from("no limit")),
    }
}

// A frame of this type whose text has this many bytes: letters, if any, and a zero byte at its end.
fn frame_of(alloc: Global, kind: u8, filler: u8, size: usize) -> Result<Frame, AllocError> {
    let mut body = Vec::new(alloc);
    body.resize(size.saturating_sub(6), filler)?;
    body.push(0)?;
    Ok(Frame {
        kind,
        body: Body::from(body),
    })
}

// How long the request is that a client asks with this frame, or none.
fn asked(client: &mut Client, frame: Frame) -> usize {
    if !client.may_read() {
        return 0;
    }
    match done_by(&client.on_client(&frame)) {
        Need(text) => text.len(),
        _ => 0,
    }
}

// The length field of a Query counts itself and not the type: it is 4,194,304 and one more.
#[test]
fn queries(rt: HostRuntime) -> Result<(), Fail> {
    let greatest = frame_of(rt.alloc(), b'Q', b'x', 4_194_305)?;
    assert_eq!(rt; asked(&mut new_within(rt.alloc())?, greatest), 4_194_305);
    let longer = frame_of(rt.alloc(), b'Q', b'x', 4_194_306)?;
    assert_client(&rt, &mut new_within(rt.alloc())?, longer, End(VIOLATION));
    Ok(())
}

// A group of 4,194,304 bytes before its Sync, in two messages, and one of a byte more.
#[test]
fn groups(rt: HostRuntime) -> Result<(), Fail> {
    let mut client = new_within(rt.alloc())?;
    let first = frame_of(rt.alloc(), b'P', 0, 4_194_296)?;
    assert_client(&rt, &mut client, first, ToClient(b""));
    let second = frame(rt.alloc(), b"P\0\0\0\x07\0\0\0")?;
    assert_client(&rt, &mut client, second, ToClient(b""));
    let sync = frame(rt.alloc(), b"S\0\0\0\x04")?;
    assert_eq!(rt; asked(&mut client, sync), 4_194_309);
    let mut client = new_within(rt.alloc())?;
    let first = frame_of(rt.alloc(), b'P', 0, 4_194_297)?;
    assert_client(&rt, &mut client, first, ToClient(b""));
    let second = frame(rt.alloc(), b"P\0\0\0\x07\0\0\0")?;
    assert_client(&rt, &mut client, second, End(VIOLATION));
    Ok(())
}

// The limit of a session of 8,192 bytes is less than that of one where none is given.
#[test]
fn least(rt: HostRuntime) -> Result<(), Fail> {
    let limit = MessageLimit::new(8_192).ok_or("no limit")?;
    let mut client = Client::with_limit(rt.alloc(), limit, DatabaseNo(3));
    let longer = frame_of(rt.alloc(), b'Q', b'x', 8_194)?;
    assert_client(&rt, &mut client, longer, End(VIOLATION));
    let mut client = Client::with_limit(rt.alloc(), limit, DatabaseNo(3));
    let greatest = frame_of(rt.alloc(), b'Q', b'x', 8_193)?;
    assert_eq!(rt; asked(&mut client, greatest), 8_193);
    Ok(())
}
