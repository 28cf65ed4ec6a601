//! Writing a frame.
ghost use Rattle.std.specs.Prelude.{◌≡◌, ◌≢◌, ◌↔◌, ◌+◌, ◌<◌, ◌++◌, ◌∷◌, ℕ, List, length, IsTrue, OnOk, OnErr, Err, IsOkUnless};
ghost use Rattle.pg_frames.specs.declared.frame.Frame.{Frame};
ghost use Rattle.pg_frames.specs.FrameText.{text, is_type, IsFrame, Cuts};

use crate::header::{FIELD_LEN, HEADER_LEN};
use crate::{Frame, FrameError, MAX_MESSAGE, MessageLimit};
use byteorder::{BigEndian, ByteOrder};

/// Appends the frame's text. A frame that isn't of the format is refused, its type first; an error
/// leaves the vector as it was. The limit is `MAX_MESSAGE`.
pub fn put_frame(frame: &Frame, out: &mut Vec<u8>) -> Result<(), FrameError>
    ensures ok { OnOk result (out.new.items ≡ out.old.items ++ text frame.now) }
    ensures of_format { OnOk result (IsFrame MAX_MESSAGE frame.now) }
    // It is read again, whatever follows.
    ensures again { OnOk result ((more : List ℕ) (frames : List Frame) (rest : List ℕ)
        → Cuts MAX_MESSAGE more frames rest
        → Cuts MAX_MESSAGE (text frame.now ++ more) (frame.now ∷ frames) rest) }
    ensures bad_type { (result ≡ Err FrameError.BadType) ↔ (IsTrue (is_type frame.now.kind) → ⊥) }
    ensures too_long { (result ≡ Err FrameError.TooLong)
        ↔ (IsTrue (is_type frame.now.kind) × (MAX_MESSAGE < 4 + length frame.now.body)) }
    ensures no_bad_length { result ≢ Err FrameError.BadLength }
    ensures err { OnErr result (out.new.items ≡ out.old.items) }
{
    put_frame_within(MessageLimit::DEFAULT, frame, out)
}

/// The same with another limit.
pub fn put_frame_within(
    limit: MessageLimit,
    frame: &Frame,
    out: &mut Vec<u8>,
) -> Result<(), FrameError>
    ensures ok { OnOk result (out.new.items ≡ out.old.items ++ text frame.now) }
    ensures of_format { OnOk result (IsFrame limit frame.now) }
    ensures again { OnOk result ((more : List ℕ) (frames : List Frame) (rest : List ℕ)
        → Cuts limit more frames rest
        → Cuts limit (text frame.now ++ more) (frame.now ∷ frames) rest) }
    ensures bad_type { (result ≡ Err FrameError.BadType) ↔ (IsTrue (is_type frame.now.kind) → ⊥) }
    ensures too_long { (result ≡ Err FrameError.TooLong)
        ↔ (IsTrue (is_type frame.now.kind) × (limit < 4 + length frame.now.body)) }
    ensures no_bad_length { result ≢ Err FrameError.BadLength }
    ensures err { OnErr result (out.new.items ≡ out.old.items) }
{
    if !frame.kind.is_ascii_alphanumeric() {
        return Err(FrameError::BadType);
    }
    if frame.body.len() > limit.get() as usize - FIELD_LEN {
        return Err(FrameError::TooLong);
    }
    let field = FIELD_LEN + frame.body.len();
    append(frame, field as u32, out)
}

// Makes the room first, so that running out of memory leaves the vector as it was.
#[tactic(auto, unfolding(crate::specs::FrameText::text))]
fn append(frame: &Frame, field: u32, out: &mut Vec<u8>) -> Result<(), FrameError>
    requires { field ≡ 4 + length frame.now.body }
    ensures ok { OnOk result (out.new.items ≡ out.old.items ++ text frame.now) }
    ensures err { OnErr result (out.new.items ≡ out.old.items) }
    ensures only_memory { IsOkUnless result FrameError.Memory }
{
    let mut number = [0; 4];
    BigEndian::write_u32(&mut number, field);
    let body = frame.body.as_slice();
    if out.reserve(HEADER_LEN + body.len()).is_err() {
        return Err(FrameError::Memory);
    }
    out.push(frame.kind).unwrap();
    out.extend_from_slice(&number).unwrap();
    out.extend_from_slice(body).unwrap();
    Ok(())
}
