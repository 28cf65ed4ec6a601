//! A whole stream, as it is passed on in pieces.
ghost use Rattle.std.specs.Prelude.{◌≡◌, ◌+◌, ◌≤◌, ◌++◌, ◌∷◌, [], ℕ, List, IfOk, OnOk, None, Some, length, take, drop};
ghost use Rattle.std.specs.List.{flat_map};
ghost use Rattle.pg_frames.specs.declared.frame.Frame.{Frame};
ghost use Rattle.pg_frames.specs.declared.error.FrameError.{FrameError};
ghost use Rattle.pg_frames.specs.FrameText.{fault_at, Cuts};
ghost use Rattle.pg_frames.specs.Passage.{HasNoNext};
ghost use Rattle.pg_frames.specs.Parts.{HandsOut, SoFar, Drained, owned_of};

use crate::{Body, Flow, FrameError, MAX_MESSAGE, MessageLimit, Piece};
use std::alloc::{AllocError, Global};

/// A piece that was handed out, as data.
#[derive(Debug, Drop)]
pub enum OwnedPiece {
    /// The type byte, and the length field, which is 4 more than the body's length.
    Head {
        /// The type byte.
        kind: u8,
        /// The length field.
        length: usize,
    },
    /// The next bytes of the body, at least one.
    Part(Body),
    /// The end of the frame.
    Tail,
}

/// What is handed out of a stream, and the fault in what follows its frames.
#[derive(Debug, Drop)]
pub struct Parts {
    /// The pieces, in their order.
    pub pieces: Vec<OwnedPiece>,
    /// The fault at the front of what follows the whole frames, if there is one. It is never
    /// `Memory`.
    pub fault: Option<FrameError>,
}

/// Passes a stream, which comes in these pieces, through a flow, and returns what is handed out. The
/// limit is `MAX_MESSAGE`.
pub fn cut_in_parts(alloc: Global, stream: &[&[u8]]) -> Result<Parts, AllocError>
    ensures parts { IfOk result (λ parts. (frames : List Frame) × (rest : List ℕ)
        × Cuts MAX_MESSAGE (flat_map (λ piece. piece.now) stream.now) frames rest
        × HandsOut MAX_MESSAGE frames rest parts.pieces.items × (parts.fault ≡ fault_at MAX_MESSAGE rest)) }
    // It doesn't matter how the stream was cut into pieces.
    ensures only { IfOk result (λ parts. (frames : List Frame) (rest : List ℕ)
        → Cuts MAX_MESSAGE (flat_map (λ piece. piece.now) stream.now) frames rest
        → HandsOut MAX_MESSAGE frames rest parts.pieces.items × (fault_at MAX_MESSAGE rest ≡ parts.fault)) }
{
    cut_in_parts_within(alloc, MessageLimit::DEFAULT, stream)
}

/// The same with another limit.
pub fn cut_in_parts_within(
    alloc: Global,
    limit: MessageLimit,
    stream: &[&[u8]],
) -> Result<Parts, AllocError>
    ensures parts { IfOk result (λ parts. (frames : List Frame) × (rest : List ℕ)
        × Cuts limit (flat_map (λ piece. piece.now) stream.now) frames rest
        × HandsOut limit frames rest parts.pieces.items × (parts.fault ≡ fault_at limit rest)) }
    ensures only { IfOk result (λ parts. (frames : List Frame) (rest : List ℕ)
        → Cuts limit (flat_map (λ piece. piece.now) stream.now) frames rest
        → HandsOut limit frames rest parts.pieces.items × (fault_at limit rest ≡ parts.fault)) }
{
    let Ok(mut flow) = Flow::with_limit(alloc, limit) else {
        return Err(AllocError);
    };
    let mut pieces = Vec::new(alloc);
    for piece in stream {
        let fault = take_piece(alloc, &mut flow, &mut pieces, piece)?;
        if fault.is_some() {
            return Ok(Parts { pieces, fault });
        }
    }
    Ok(Parts {
        pieces,
        fault: None,
    })
}

// Feeds a piece as far as there is room, again and again, and takes what can be handed out then.
fn take_piece(
    alloc: Global,
    flow: &mut Flow,
    pieces: &mut Vec<OwnedPiece>,
    piece: &[u8],
) -> Result<Option<FrameError>, AllocError>
    requires { (limit : ℕ) × (stream : List ℕ) × Drained limit stream pieces.old.items flow.old None }
    ensures { IfOk result (λ fault. (limit : ℕ) (stream : List ℕ)
        → Drained limit stream pieces.old.items flow.old None
        → (taken : List ℕ) × (left : List ℕ) × (piece.now ≡ taken ++ left)
        × Drained limit (stream ++ taken) pieces.new.items flow.new fault
        × (fault ≡ None → left ≡ [])) }
{
    let mut rest = piece;
    while !rest.is_empty() {
        let (front, back) = rest.split_at(rest.len().min(flow.room()));
        let fault = take_some(alloc, flow, pieces, front)?;
        if fault.is_some() {
            return Ok(fault);
        }
        rest = back;
    }
    Ok(None)
}

// Feeds a piece for which there is room, and takes what can be handed out then.
fn take_some(
    alloc: Global,
    flow: &mut Flow,
    pieces: &mut Vec<OwnedPiece>,
    piece: &[u8],
) -> Result<Option<FrameError>, AllocError>
    requires { length flow.old.passed + (length flow.old.bytes + length piece.now) ≤ 16384 }
    ensures { IfOk result (λ fault. (limit : ℕ) (stream : List ℕ)
        → Drained limit stream pieces.old.items flow.old None
        → Drained limit (stream ++ piece.now) pieces.new.items flow.new fault) }
{
    let answer = flow.feed(piece);
    hand_out(alloc, flow, pieces)?;
    forget_all(flow);
    Ok(answer.err())
}

// Takes what can be handed out.
fn hand_out(alloc: Global, flow: &mut Flow, pieces: &mut Vec<OwnedPiece>) -> Result<(), AllocError>
    ensures { OnOk result ((limit : ℕ) (stream : List ℕ)
        → SoFar limit stream pieces.old.items flow.old
        → SoFar limit stream pieces.new.items flow.new
        × HasNoNext limit flow.new.left flow.new.bytes) }
{
    loop {
        let Some(piece) = flow.next() else {
            return Ok(());
        };
        let piece = to_owned(alloc, piece)?;
        pieces.push(piece)?;
    }
}

// Forgets what was handed out.
fn forget_all(flow: &mut Flow)
    ensures { flow.new ≡ record flow.old { passed = [] } }
{
    let count = flow.passed().len();
    flow.forget(count);
}

// A copy of the piece.
fn to_owned(alloc: Global, piece: Piece<'_>) -> Result<OwnedPiece, AllocError>
    ensures { IfOk result (λ owned. owned ≡ owned_of piece.entry) }
{
    Ok(match piece {
        Piece::Head { kind, length } => OwnedPiece::Head { kind, length },
        Piece::Part(bytes) => OwnedPiece::Part(Body::from_slice(alloc, bytes)?),
        Piece::Tail => OwnedPiece::Tail,
    })
}
