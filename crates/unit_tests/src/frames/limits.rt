//! Frames at other limits than the one where none is given.
use super::*;
use pg_frames::{MessageLimit, cut_in_parts_within, cut_within, put_frame_within};

fn limit(bytes: u32) -> Result<MessageLimit, Fail> {
    match MessageLimit::new(bytes) {
        Some(limit) => Ok(limit),
        None => Err(Fail::from("no limit")),
    }
}

#[test]
fn ranges(rt: HostRuntime) {
    assert!(rt; MessageLimit::new(8_191).is_none());
    assert!(rt; MessageLimit::new(1_073_741_824).is_none());
    assert!(rt; MessageLimit::new(u32::MAX).is_none());
    for bytes in [8_192, 1_048_576, 1_073_741_823] {
        assert_eq!(rt;
            MessageLimit::new(bytes).map(|limit| limit.get()),
            Some(bytes)
        );
    }
    assert_eq!(rt; MessageLimit::DEFAULT.get(), 1_048_576);
}

// A limit, a head, how many bytes there are with it, and how many whole frames and which fault they
// have.
const TEXTS: [(u32, &[u8], usize, usize, Option<FrameError>); 6] = [
    (8_192, b"Q\0\0\x20\0", 8_193, 1, None),
    (8_192, b"Q\0\0\x20\x01", 8_194, 0, Some(FrameError::TooLong)),
    (2_097_152, b"D\0\x20\0\0", 2_097_153, 1, None),
    (2_097_152, b"D\0\x20\0\x01", 5, 0, Some(FrameError::TooLong)),
    (1_073_741_823, b"D\x3f\xff\xff\xff", 5, 0, None),
    (
        1_073_741_823,
        b"D\x40\0\0\0",
        5,
        0,
        Some(FrameError::TooLong),
    ),
];

// How many frames end among these pieces.
fn tails(pieces: &[OwnedPiece]) -> usize {
    pieces
        .iter()
        .filter(|piece| matches!(piece, OwnedPiece::Tail))
        .count()
}

#[test]
fn limits(rt: HostRuntime) -> Result<(), Fail> {
    for (bytes, head, len, frames, fault) in TEXTS {
        let text = padded(rt.alloc(), head, len)?;
        let cutting = cut_within(rt.alloc(), limit(bytes)?, &[text.as_slice()])?;
        assert_eq!(rt; cutting.frames.len(), frames);
        assert_eq!(rt; cutting.fault, fault);
        let parts = cut_in_parts_within(rt.alloc(), limit(bytes)?, &[text.as_slice()])?;
        assert_eq!(rt; tails(parts.pieces.as_slice()), frames);
        assert_eq!(rt; parts.fault, fault);
    }
    Ok(())
}

#[test]
fn written(rt: HostRuntime) -> Result<(), Fail> {
    let limit = limit(8_192)?;
    let mut out = Vec::new(rt.alloc());
    let body = Body::from(padded(rt.alloc(), b"", 8_189)?);
    let longer = put_frame_within(limit, &Frame { kind: b'Q', body }, &mut out);
    assert_same(&rt, longer, Err(FrameError::TooLong));
    assert!(rt; out.is_empty());
    let body = Body::from(padded(rt.alloc(), b"", 8_188)?);
    put_frame_within(limit, &Frame { kind: b'Q', body }, &mut out)?;
    let expected = padded(rt.alloc(), b"Q\0\0\x20\0", 8_193)?;
    assert!(rt; out.as_slice() == expected.as_slice());
    Ok(())
}
