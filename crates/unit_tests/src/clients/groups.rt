//! Groups of an extended query's messages.
use super::*;

// The frames of a group are gathered, and what the last of them asks for is done with all of them.
pub(super) fn assert_group(
    rt: &(impl Abort + AllocGlobal),
    client: &mut Client,
    parts: &[&[u8]],
    last: &[u8],
    asks: Asks,
) -> Result<(), AllocError> {
    let leased = client.holds_lease();
    let mut text = Vec::new(rt.alloc());
    for part in parts {
        text.extend_from_slice(part)?;
        assert_client(rt, client, frame(rt.alloc(), part)?, ToClient(b""));
    }
    text.extend_from_slice(last)?;
    let expected = asks.act(leased, text.as_slice());
    assert_client(rt, client, frame(rt.alloc(), last)?, expected);
    Ok(())
}

// Frames that are gathered, the one after them, and what that asks for.
const GROUPS: [(&[&[u8]], &[u8], Asks); 9] = [
    (
        &[
            b"P\0\0\0\x10\0select 1\0\0\0",
            b"B\0\0\0\x0c\0\0\0\0\0\0\0\0",
            b"D\0\0\0\x06P\0",
            b"E\0\0\0\x09\0\0\0\0\0",
        ],
        b"S\0\0\0\x04",
        Asks::Request,
    ),
    (&[], b"S\0\0\0\x04", Asks::Request),
    (&[b"C\0\0\0\x06S\0"], b"S\0\0\0\x04", Asks::Request),
    (&[b"C\0\0\0\x06S\0"], b"S\0\0\0\x05\0", Asks::Violation),
    (
        &[b"P\0\0\0\x05\0"],
        b"Q\0\0\0\x0dselect 1\0",
        Asks::Violation,
    ),
    (&[b"P\0\0\0\x05\0"], b"X\0\0\0\x04", Asks::Leave),
    (&[b"P\0\0\0\x05\0"], b"H\0\0\0\x04", Asks::LeftOut),
    (&[b"P\0\0\0\x05\0"], b"P\0\0\0\x06s\0", Asks::LeftOut),
    (&[b"P\0\0\0\x05\0"], b"p\0\0\0\x04", Asks::Violation),
];

#[test]
fn groups(rt: HostRuntime) -> Result<(), Fail> {
    for (parts, last, asks) in GROUPS {
        assert_group(&rt, &mut new(rt.alloc()), parts, last, asks)?;
    }
    Ok(())
}

// A Parse with no name whose text has this many bytes.
fn parse(alloc: Global, size: usize) -> Result<Frame, AllocError> {
    let mut body = Vec::new(alloc);
    body.resize(size.saturating_sub(5), 0)?;
    Ok(Frame {
        kind: b'P',
        body: Body::from(body),
    })
}

const LIMIT: usize = 1_048_576;

// A client that has gathered a Parse of this size.
fn gathered(rt: &(impl Abort + AllocGlobal), size: usize) -> Result<Client, AllocError> {
    let mut client = new(rt.alloc());
    assert_client(rt, &mut client, parse(rt.alloc(), size)?, ToClient(b""));
    Ok(client)
}

// A frame behind a Parse of this size.
fn assert_behind(
    rt: &(impl Abort + AllocGlobal),
    size: usize,
    frame: Frame,
    expected: Done<'_>,
) -> Result<(), AllocError> {
    assert_client(rt, &mut gathered(rt, size)?, frame, expected);
    Ok(())
}

// A Sync asks for what was gathered, of this size, and for itself.
fn assert_whole(rt: &impl Abort, client: &mut Client, sync: Frame, size: usize) {
    assert!(rt; client.may_read());
    let act = client.on_client(&sync);
    let needed = match done_by(&act) {
        Need(text) => text.len(),
        _ => 0,
    };
    assert_eq!(rt; needed, size.saturating_add(5));
}

// A group of 1,048,576 bytes before its Sync is taken, and one byte more isn't; names are judged
// after that.
#[test]
fn limit(rt: HostRuntime) -> Result<(), Fail> {
    assert_behind(&rt, LIMIT - 6, parse(rt.alloc(), 6)?, ToClient(b""))?;
    let named = frame(rt.alloc(), b"P\0\0\0\x06s\0")?;
    assert_behind(&rt, LIMIT - 6, named, End(VIOLATION))?;
    let longer = parse(rt.alloc(), LIMIT + 1)?;
    assert_client(&rt, &mut new(rt.alloc()), longer, End(VIOLATION));
    let sync = frame(rt.alloc(), b"S\0\0\0\x04")?;
    assert_whole(&rt, &mut gathered(&rt, LIMIT)?, sync, LIMIT);
    Ok(())
}
