//! Requests that one read brings whole.
use super::*;
use client_state::is_request;
use pg_frames::MessageLimit;

// How many letters the texts of the queries have at most.
const LONGEST: u8 = 100;

// Where the text of a Query begins.
const TEXT: usize = 5;

// A Query whose text has this many letters, and a zero byte at its end.
fn query(alloc: Global, letters: u8) -> Result<Vec<u8>, AllocError> {
    let mut bytes = Vec::new(alloc);
    bytes.push(b'Q')?;
    bytes.resize(4, 0)?;
    bytes.push(letters.saturating_add(5))?;
    bytes.resize(TEXT + letters as usize, b'x')?;
    bytes.push(0)?;
    Ok(bytes)
}

// Whether these bytes are a whole request, at the limit where no other is given.
fn is_whole(bytes: &[u8]) -> bool {
    is_request(MessageLimit::DEFAULT, bytes)
}

// At which bytes of its text this Query is still one with a zero byte there.
fn zero_places(query: &mut [u8]) -> usize {
    let mut found: usize = 0;
    for at in TEXT..query.len() {
        let was = query[at];
        query[at] = 0;
        if is_whole(query) {
            found = found.saturating_add(1);
        }
        query[at] = was;
    }
    found
}

// A text of each length, with one more zero byte at each place, and without its last.
#[test]
fn zero_bytes(rt: HostRuntime) -> Result<(), Fail> {
    for letters in 0..=LONGEST {
        let mut text = query(rt.alloc(), letters)?;
        assert!(rt; is_whole(text.as_slice()));
        assert_eq!(rt; zero_places(text.as_mut_slice()), 1);
        text.truncate(TEXT + letters as usize);
        text.push(b'x')?;
        assert!(rt; !is_whole(text.as_slice()));
    }
    Ok(())
}

// Bytes before the end and behind it, and a message of another type.
#[test]
fn other_bytes(rt: HostRuntime) -> Result<(), Fail> {
    assert!(rt; is_whole(b"Q\0\0\0\x08abc\0"));
    assert!(rt; !is_whole(b""));
    assert!(rt; !is_whole(b"Q\0\0\0"));
    assert!(rt; !is_whole(b"Q\0\0\0\x08abc"));
    assert!(rt; !is_whole(b"Q\0\0\0\x08abc\0Q"));
    assert!(rt; !is_whole(b"Q\0\0\0\x04"));
    assert!(rt; !is_whole(b"P\0\0\0\x08abc\0"));
    Ok(())
}

// Parse, Bind, Describe and Execute, and their Sync.
const GROUP: &[u8] =
    b"P\0\0\0\x10\0select 1\0\0\0B\0\0\0\x0c\0\0\0\0\0\0\0\0D\0\0\0\x06P\0E\0\0\0\x09\0\0\0\0\0S\0\0\0\x04";

// A group, each beginning of it, and one with a byte behind it.
#[test]
fn cut_groups(rt: HostRuntime) -> Result<(), Fail> {
    assert!(rt; is_whole(GROUP));
    for len in 0..GROUP.len() {
        assert!(rt; !is_whole(GROUP.split_at(len).0));
    }
    let mut more = Vec::new(rt.alloc());
    more.extend_from_slice(GROUP)?;
    more.push(b'S')?;
    assert!(rt; !is_whole(more.as_slice()));
    Ok(())
}

// Behind a Close: a second one, with a name, of neither kind, with a text too short; messages that
// aren't gathered; and a Sync with a body.
#[test]
fn other_groups(rt: HostRuntime) -> Result<(), Fail> {
    assert!(rt; is_whole(b"S\0\0\0\x04"));
    assert!(rt; is_whole(b"C\0\0\0\x06S\0S\0\0\0\x04"));
    assert!(rt; is_whole(b"C\0\0\0\x06S\0C\0\0\0\x06P\0S\0\0\0\x04"));
    assert!(rt; !is_whole(b"C\0\0\0\x06S\0C\0\0\0\x07Ps\0S\0\0\0\x04"));
    assert!(rt; !is_whole(b"C\0\0\0\x06S\0C\0\0\0\x06Q\0S\0\0\0\x04"));
    assert!(rt; !is_whole(b"C\0\0\0\x06S\0C\0\0\0\x05PS\0\0\0\x04"));
    assert!(rt; !is_whole(b"C\0\0\0\x06S\0H\0\0\0\x04S\0\0\0\x04"));
    assert!(rt; !is_whole(b"C\0\0\0\x06S\0Q\0\0\0\x08abc\0"));
    assert!(rt; !is_whole(b"C\0\0\0\x06S\0X\0\0\0\x04"));
    assert!(rt; !is_whole(b"C\0\0\0\x06S\0S\0\0\0\x05\0"));
    assert!(rt; !is_whole(b"C\0\0\0\x06S\0S\0\0\0\x04S\0\0\0\x04"));
    Ok(())
}

// A Parse whose text has this many bytes, and its Sync.
fn parse_and_sync(alloc: Global, size: u32) -> Result<Vec<u8>, AllocError> {
    let mut bytes = Vec::new(alloc);
    bytes.push(b'P')?;
    bytes.extend_from_slice(&size.saturating_sub(1).to_be_bytes())?;
    bytes.resize(size as usize, 0)?;
    bytes.extend_from_slice(b"S\0\0\0\x04")?;
    Ok(bytes)
}

// The longest group within a limit, and one of a byte more.
#[test]
fn longest_group(rt: HostRuntime) -> Result<(), Fail> {
    let limit = MessageLimit::new(8_192).ok_or("no limit")?;
    let longest = parse_and_sync(rt.alloc(), 8_192)?;
    assert!(rt; is_request(limit, longest.as_slice()));
    let longer = parse_and_sync(rt.alloc(), 8_193)?;
    assert!(rt; !is_request(limit, longer.as_slice()));
    Ok(())
}
