//! Streams cut at every place, the errors at their smallest text, and each call with enough memory.
use crate::checks::{assert_bytes, assert_same};
use pg_frames::{
    Body, Cutter, Cutting, Flow, Frame, FrameError, OwnedPiece, Parts, Piece, cut, cut_in_parts,
    put_frame,
};
use std::alloc::{AllocError, Global};
use std::process::Abort;
use std::test::Fail;

mod flow;
mod limits;
mod transcripts;

// Four frames of 5, 9, 17 and 9 bytes: a Sync, a Query, a CommandComplete and a Query.
const STREAM: [u8; 40] = [
    b'S', 0, 0, 0, 4, // no body
    b'Q', 0, 0, 0, 8, b'a', b'b', b'c', 0, //
    b'C', 0, 0, 0, 16, b'C', b'R', b'E', b'A', b'T', b'E', b' ', b'T', b'A', b'B', b'L', 0, //
    b'Q', 0, 0, 0, 8, b'x', b'y', b'z', 0,
];

// The frame has this type and this body.
fn assert_frame(rt: &impl Abort, frame: &Frame, kind: u8, body: &[u8]) {
    assert_same(rt, frame.kind, kind);
    assert_bytes(rt, frame.body.as_slice(), body);
}

fn assert_frames(rt: &impl Abort, frames: &[Frame], expected: &[(u8, &[u8])]) {
    assert_same(rt, frames.len(), expected.len());
    for (frame, (kind, body)) in frames.iter().zip(expected) {
        assert_frame(rt, frame, *kind, body);
    }
}

fn assert_stream(rt: &impl Abort, cutting: &Cutting) {
    assert_eq!(rt; cutting.fault, None);
    let expected: [(u8, &[u8]); 4] = [
        (b'S', b""),
        (b'Q', b"abc\0"),
        (b'C', b"CREATE TABL\0"),
        (b'Q', b"xyz\0"),
    ];
    assert_frames(rt, cutting.frames.as_slice(), &expected);
}

#[test]
fn at_most_three_pieces(rt: HostRuntime) -> Result<(), Fail> {
    for first in 0..=STREAM.len() {
        for second in first..=STREAM.len() {
            let pieces = [&STREAM[..first], &STREAM[first..second], &STREAM[second..]];
            assert_stream(&rt, &cut(rt.alloc(), &pieces)?);
        }
    }
    Ok(())
}

// The text in pieces of this size.
fn in_pieces(alloc: Global, text: &[u8], size: usize) -> Result<Vec<&[u8]>, AllocError> {
    let mut pieces = Vec::new(alloc);
    for piece in text.chunks(size.max(1)) {
        pieces.push(piece)?;
    }
    Ok(pieces)
}

#[test]
fn single_bytes(rt: HostRuntime) -> Result<(), Fail> {
    let pieces = in_pieces(rt.alloc(), &STREAM, 1)?;
    assert_stream(&rt, &cut(rt.alloc(), pieces.as_slice())?);
    Ok(())
}

// A text, the types of its frames, their bodies one after another, and its fault.
const TEXTS: &[(&[u8], &[u8], &[u8], Option<FrameError>)] = &[
    (b"X\0\0\0\x04", b"X", b"", None),
    (b"X\0\0\0\x03", b"", b"", Some(FrameError::BadLength)),
    (b"X\0\0\0\0", b"", b"", Some(FrameError::BadLength)),
    (b"X\0\0\0", b"", b"", None),
    (b"Q\0\x10\0\x01", b"", b"", Some(FrameError::TooLong)),
    (b"Q\xff\xff\xff\xff", b"", b"", Some(FrameError::TooLong)),
    (b"Q\0\x10\0\0", b"", b"", None),
    (b"\0", b"", b"", Some(FrameError::BadType)),
    (b"/\0\0\0\x03", b"", b"", Some(FrameError::BadType)),
    (b"{", b"", b"", Some(FrameError::BadType)),
    (b"0\0\0\0\x059", b"0", b"9", None),
    (
        b"Q\0\0\0\x04z\0\0\0\x04 ",
        b"Qz",
        b"",
        Some(FrameError::BadType),
    ),
    (
        b"A\0\0\0\x05\0Z\0\0\0\x03X",
        b"A",
        b"\0",
        Some(FrameError::BadLength),
    ),
];

// The frames have these types, and these bodies one after another.
fn assert_found(
    rt: &(impl Abort + AllocGlobal),
    frames: &[Frame],
    kinds: &[u8],
    bodies: &[u8],
) -> Result<(), AllocError> {
    let mut found_kinds = Vec::new(rt.alloc());
    let mut found_bodies = Vec::new(rt.alloc());
    for frame in frames {
        found_kinds.push(frame.kind)?;
        found_bodies.extend_from_slice(frame.body.as_slice())?;
    }
    assert_bytes(rt, found_kinds.as_slice(), kinds);
    assert_bytes(rt, found_bodies.as_slice(), bodies);
    Ok(())
}

// Cuts the text after every byte.
fn assert_text(
    rt: &(impl Abort + AllocGlobal),
    text: &[u8],
    kinds: &[u8],
    bodies: &[u8],
    fault: Option<FrameError>,
) -> Result<(), AllocError> {
    for at in 0..=text.len() {
        let cutting = cut(rt.alloc(), &[&text[..at], &text[at..]])?;
        assert_eq!(rt; cutting.fault, fault, "{text:?} at {at}");
        assert_found(rt, cutting.frames.as_slice(), kinds, bodies)?;
    }
    Ok(())
}

#[test]
fn small_texts(rt: HostRuntime) -> Result<(), Fail> {
    for (text, kinds, bodies, fault) in TEXTS {
        assert_text(&rt, text, kinds, bodies, *fault)?;
    }
    Ok(())
}

// The frame with this head and this body, of which nothing is left then.
fn taken(
    rt: &(impl Abort + AllocGlobal),
    (kind, length): (u8, usize),
    body: &mut Vec<u8>,
) -> Frame {
    assert_same(rt, body.len().saturating_add(4), length);
    let whole = std::mem::replace(body, Vec::new(rt.alloc()));
    Frame {
        kind,
        body: Body::from(whole),
    }
}

// The whole frames whose parts these are.
fn whole_frames(rt: &(impl Abort + AllocGlobal), parts: &Parts) -> Result<Vec<Frame>, AllocError> {
    let mut frames = Vec::new(rt.alloc());
    let mut head = (0, 0);
    let mut body = Vec::new(rt.alloc());
    for piece in parts.pieces.iter() {
        match piece {
            OwnedPiece::Head { kind, length } => head = (*kind, *length),
            OwnedPiece::Part(part) => body.extend_from_slice(part.as_slice())?,
            OwnedPiece::Tail => frames.push(taken(rt, head, &mut body))?,
        }
    }
    Ok(frames)
}

fn padded(alloc: Global, front: &[u8], len: usize) -> Result<Vec<u8>, AllocError> {
    let mut text = Vec::from_slice(alloc, front)?;
    text.resize(len, 0)?;
    Ok(text)
}

// The greatest length field, with its last byte and without it.
#[test]
fn length_field(rt: HostRuntime) -> Result<(), Fail> {
    let whole = padded(rt.alloc(), b"Q\0\x10\0\0", 1_048_577)?;
    let cutting = cut(rt.alloc(), &[whole.as_slice()])?;
    assert_eq!(rt; cutting.fault, None);
    assert_eq!(rt; cutting.frames.len(), 1);
    for frame in cutting.frames.iter() {
        assert_eq!(rt; frame.body.len(), 1_048_572);
    }
    let part = padded(rt.alloc(), b"Q\0\x10\0\0", 1_048_576)?;
    let cutting = cut(rt.alloc(), &[part.as_slice()])?;
    assert_eq!(rt; cutting.fault, None);
    assert!(rt; cutting.frames.is_empty());
    Ok(())
}

fn assert_bad_type(rt: &impl Abort, cutter: &mut Cutter, text: &[u8]) {
    assert_same(rt, cutter.feed(text), Err(FrameError::BadType));
}

// The next frame has this type and this body.
fn assert_next(rt: &impl Abort, cutter: &mut Cutter, kind: u8, body: &[u8]) -> Result<(), Fail> {
    let frame = cutter.next()?.ok_or("a frame")?;
    assert_same(rt, frame.kind, kind);
    assert_same(rt, frame.body.is_empty(), body.is_empty());
    assert_bytes(rt, frame.body.into_vec().as_slice(), body);
    Ok(())
}

// The frames before a fault come out, and the fault stays, whatever is fed then.
#[test]
fn fault_stays(rt: HostRuntime) -> Result<(), Fail> {
    let mut cutter = Cutter::new(rt.alloc());
    let text = b"X\0\0\0\x04Z\0\0\0\x05I\0".as_slice();
    assert_bad_type(&rt, &mut cutter, text);
    assert_bytes(&rt, cutter.pending(), text);
    assert_bad_type(&rt, &mut cutter, b"X\0\0\0\x04");
    assert_next(&rt, &mut cutter, b'X', b"")?;
    assert_bad_type(&rt, &mut cutter, b"");
    assert_next(&rt, &mut cutter, b'Z', b"I")?;
    assert!(rt; cutter.next()?.is_none());
    assert_bytes(&rt, cutter.pending(), b"\0");
    assert_bad_type(&rt, &mut cutter, b"X\0\0\0\x04");
    Ok(())
}

// What comes of writing a frame with this type and this body.
fn put(
    rt: &impl AllocGlobal,
    out: &mut Vec<u8>,
    kind: u8,
    body: &[u8],
) -> Result<Result<(), FrameError>, AllocError> {
    let body = Body::from_slice(rt.alloc(), body)?;
    Ok(put_frame(&Frame { kind, body }, out))
}

// The longest frame is written whole, and nothing of one that is longer.
fn assert_longest(rt: &(impl Abort + AllocGlobal), out: &mut Vec<u8>) -> Result<(), Fail> {
    let body = padded(rt.alloc(), b"", 1_048_573)?;
    let too_long = put(rt, out, b'Q', body.as_slice())?;
    assert_same(rt, too_long, Err(FrameError::TooLong));
    let mut longest = Vec::new(rt.alloc());
    let body = padded(rt.alloc(), b"", 1_048_572)?;
    put(rt, &mut longest, b'Q', body.as_slice())??;
    let expected = padded(rt.alloc(), b"Q\0\x10\0\0", 1_048_577)?;
    assert!(rt; longest.as_slice() == expected.as_slice());
    Ok(())
}

#[test]
fn written(rt: HostRuntime) -> Result<(), Fail> {
    let mut out = [7].to_vec(rt.alloc())?;
    put(&rt, &mut out, b'Q', b"abc\0")??;
    put(&rt, &mut out, b'X', b"")??;
    let text = b"\x07Q\0\0\0\x08abc\0X\0\0\0\x04".as_slice();
    assert_bytes(&rt, out.as_slice(), text);
    let no_type = put(&rt, &mut out, b' ', b"abc\0")?;
    assert_same(&rt, no_type, Err(FrameError::BadType));
    assert_longest(&rt, &mut out)?;
    assert_bytes(&rt, out.as_slice(), text);
    Ok(())
}

#[test]
fn refusals(rt: HostRuntime) -> Result<(), Fail> {
    let refusals = [
        (FrameError::BadLength, 10, "a length field below 4"),
        (FrameError::TooLong, 11, "a length field above the limit"),
        (
            FrameError::BadType,
            12,
            "a type byte that is no letter or digit",
        ),
        (FrameError::Memory, 13, "out of memory"),
    ];
    for (refusal, number, text) in refusals {
        assert_eq!(rt; refusal.number(), number);
        assert_eq!(rt; refusal.to_string(rt.alloc())?.as_str(), text);
    }
    Ok(())
}
