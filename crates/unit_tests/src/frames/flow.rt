//! Streams passed on in pieces.
use super::*;

fn assert_seen(
    rt: &(impl Abort + AllocGlobal),
    parts: &Parts,
    kinds: &[u8],
    bodies: &[u8],
    fault: Option<FrameError>,
) -> Result<(), AllocError> {
    let frames = whole_frames(rt, parts)?;
    assert_found(rt, frames.as_slice(), kinds, bodies)?;
    assert_eq!(rt; parts.fault, fault);
    Ok(())
}

// The four frames of the stream, cut after every byte and into single bytes.
#[test]
fn four_frames(rt: HostRuntime) -> Result<(), Fail> {
    let bodies = b"abc\0CREATE TABL\0xyz\0".as_slice();
    for at in 0..=STREAM.len() {
        let parts = cut_in_parts(rt.alloc(), &[&STREAM[..at], &STREAM[at..]])?;
        assert_seen(&rt, &parts, b"SQCQ", bodies, None)?;
    }
    let single = in_pieces(rt.alloc(), &STREAM, 1)?;
    let parts = cut_in_parts(rt.alloc(), single.as_slice())?;
    assert_seen(&rt, &parts, b"SQCQ", bodies, None)?;
    Ok(())
}

// The small texts, whole.
#[test]
fn faults(rt: HostRuntime) -> Result<(), Fail> {
    for (text, kinds, bodies, fault) in TEXTS {
        let parts = cut_in_parts(rt.alloc(), &[*text])?;
        assert_seen(&rt, &parts, kinds, bodies, *fault)?;
    }
    Ok(())
}

// The text has this head here.
fn assert_head_at(rt: &impl Abort, text: &[u8], at: usize, kind: u8, length: usize) {
    let field = (length as u64).to_be_bytes();
    let end = at.saturating_add(5);
    assert_eq!(rt; text.get(at).copied(), Some(kind));
    assert_eq!(rt; text.get(at.saturating_add(1)..end), Some(&field[4..]));
}

// Takes what can be handed out, which are the bytes of the text from here on, and returns where
// they end.
fn assert_handed(rt: &impl Abort, flow: &mut Flow, text: &[u8], start: usize) -> usize {
    let mut at = start;
    for _ in 0..u64::MAX {
        match flow.next() {
            None => return at,
            Some(Piece::Head { kind, length }) => {
                assert_head_at(rt, text, at, kind, length);
                at = at.saturating_add(5);
            }
            Some(Piece::Part(part)) => {
                let end = at.saturating_add(part.len());
                assert!(rt; !part.is_empty());
                assert!(rt; text.get(at..end) == Some(part));
                at = end;
            }
            Some(Piece::Tail) => assert!(rt; at == text.len(), "a tail at {at}"),
        }
    }
    at
}

// What was handed out is this part of the text, in one slice, and is forgotten then; what wasn't is
// what follows it.
fn assert_kept(rt: &impl Abort, flow: &mut Flow, passed: Option<&[u8]>, pending: Option<&[u8]>) {
    assert!(rt; passed == Some(flow.passed()));
    assert!(rt; pending == Some(flow.pending()));
    let count = flow.passed().len();
    flow.forget(count);
    assert!(rt; flow.passed().is_empty());
}

// Passes on a text in pieces of this size.
fn assert_passed(rt: &(impl Abort + AllocGlobal), text: &[u8], size: usize) -> Result<(), Fail> {
    let mut flow = Flow::new(rt.alloc())?;
    let mut at = 0;
    let mut fed = 0usize;
    for piece in text.chunks(size.max(1)) {
        if piece.len() > flow.room() {
            return Err(Fail::from("no room"));
        }
        assert_eq!(rt; flow.feed(piece), Ok(()));
        fed = fed.saturating_add(piece.len());
        let start = at;
        at = assert_handed(rt, &mut flow, text, start);
        assert_kept(rt, &mut flow, text.get(start..at), text.get(at..fed));
    }
    assert_eq!(rt; at, text.len());
    Ok(())
}

// The greatest DataRow, whose body has a byte of its own at each place.
fn greatest_row(alloc: Global) -> Result<Vec<u8>, AllocError> {
    let mut text = padded(alloc, b"D\0\x10\0\0", 1_048_577)?;
    let mut next = 0u8;
    for byte in text.as_mut_slice().iter_mut().skip(5) {
        *byte = next;
        next = if next == 250 {
            0
        } else {
            next.saturating_add(1)
        };
    }
    Ok(text)
}

#[test]
fn greatest_frame(rt: HostRuntime) -> Result<(), Fail> {
    let text = greatest_row(rt.alloc())?;
    for size in [1, 4_096, 16_384] {
        assert_passed(&rt, text.as_slice(), size)?;
    }
    Ok(())
}
