//! A whole stream, cut into frames.
ghost use Rattle.std.specs.Prelude.{◌≡◌, ◌<◌, ◌++◌, ◌∷◌, ℕ, List, IfOk, OnOk, None, slice_index};
ghost use Rattle.std.specs.List.{flat_map};
ghost use Rattle.pg_frames.specs.declared.frame.Frame.{Frame};
ghost use Rattle.pg_frames.specs.FrameText.{text, fault_at, IsFrame, Cuts, HasFault};

use crate::{Cutter, Frame, FrameError, MAX_MESSAGE, MessageLimit};
use std::alloc::{AllocError, Global};

/// The frames of a stream, and the fault in what follows them.
#[derive(Debug, Drop)]
pub struct Cutting {
    /// The frames, in their order.
    pub frames: Vec<Frame>,
    /// The fault at the front of what follows the frames, if there is one. It is never `Memory`.
    pub fault: Option<FrameError>,
}

/// Cuts a stream, which comes in these pieces, into frames. The limit is `MAX_MESSAGE`.
pub fn cut(alloc: Global, pieces: &[&[u8]]) -> Result<Cutting, AllocError>
    ensures cut { IfOk result (λ c. (rest : List ℕ)
        × Cuts MAX_MESSAGE (flat_map (λ piece. piece.now) pieces.now) c.frames.items rest
        × (c.fault ≡ fault_at MAX_MESSAGE rest)) }
    // The stream has no other frames and no other fault, however it was cut into pieces.
    ensures only { IfOk result (λ c. (frames : List Frame) (rest : List ℕ)
        → Cuts MAX_MESSAGE (flat_map (λ piece. piece.now) pieces.now) frames rest
        → (frames ≡ c.frames.items) × (fault_at MAX_MESSAGE rest ≡ c.fault)) }
{
    cut_within(alloc, MessageLimit::DEFAULT, pieces)
}

/// The same with another limit.
pub fn cut_within(
    alloc: Global,
    limit: MessageLimit,
    pieces: &[&[u8]],
) -> Result<Cutting, AllocError>
    ensures cut { IfOk result (λ c. (rest : List ℕ)
        × Cuts limit (flat_map (λ piece. piece.now) pieces.now) c.frames.items rest
        × (c.fault ≡ fault_at limit rest)) }
    ensures only { IfOk result (λ c. (frames : List Frame) (rest : List ℕ)
        → Cuts limit (flat_map (λ piece. piece.now) pieces.now) frames rest
        → (frames ≡ c.frames.items) × (fault_at limit rest ≡ c.fault)) }
{
    let mut cutter = Cutter::with_limit(alloc, limit);
    let mut frames = Vec::new(alloc);
    for piece in pieces {
        let fault = take_piece(&mut cutter, &mut frames, piece)?;
        if fault.is_some() {
            return Ok(Cutting { frames, fault });
        }
    }
    Ok(Cutting {
        frames,
        fault: None,
    })
}

// Feeds a piece, and takes the frames that are ready then.
fn take_piece(
    cutter: &mut Cutter,
    frames: &mut Vec<Frame>,
    piece: &[u8],
) -> Result<Option<FrameError>, AllocError>
    ensures taken { IfOk result (λ fault. HasFault cutter.old.limit cutter.old.bytes None
        → (more : List Frame)
        × Cuts cutter.old.limit (cutter.old.bytes ++ piece.now) more cutter.new.bytes
        × (frames.new.items ≡ frames.old.items ++ more)
        × (fault ≡ fault_at cutter.old.limit cutter.new.bytes)) }
    ensures limit { cutter.new.limit ≡ cutter.old.limit }
{
    let answer = cutter.feed(piece);
    hand_out(cutter, frames)?;
    match answer {
        Ok(()) => Ok(None),
        Err(fault) if fault == FrameError::Memory => Err(AllocError),
        Err(fault) => Ok(Some(fault)),
    }
}

// Takes the frames that are ready.
fn hand_out(cutter: &mut Cutter, frames: &mut Vec<Frame>) -> Result<(), AllocError>
    ensures handed { OnOk result ((more : List Frame)
        × Cuts cutter.old.limit cutter.old.bytes more cutter.new.bytes
        × (frames.new.items ≡ frames.old.items ++ more)) }
    ensures limit { cutter.new.limit ≡ cutter.old.limit }
{
    'ready: loop {
        match cutter.next() {
            Ok(Some(frame)) => frames.push(frame)?,
            Ok(None) => return Ok(()),
            Err(_) => return Err(AllocError),
        }
    }
}
