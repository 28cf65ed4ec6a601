//! The front of a frame: its type byte and its length field, judged as soon as they have come.
ghost use Rattle.std.specs.Prelude.{◌≡◌, ◌<◌, ◌∷◌, IsTrue, IfErr, IfOk, IfNone, IfSome, OnOk, None, Some, length};
ghost use Rattle.pg_frames.specs.FrameText.{fault_at, is_type};
ghost use Rattle.pg_frames.specs.Header.{IsHeader};

use crate::{FrameError, MessageLimit};
use byteorder::{BigEndian, ByteOrder};

/// How many bytes the length field takes. It counts them.
pub const FIELD_LEN: usize = 4;

/// How many bytes the type and the length field take.
pub const HEADER_LEN: usize = 1 + FIELD_LEN;

/// The type byte and the length field of a frame of the format.
#[derive(Clone, Copy, Debug)]
pub struct Header {
    /// The type byte.
    pub kind: u8,
    /// The length field: 4 more than the body's length.
    pub length: usize,
}

/// The header at the front of the bytes, none where too few have come, or the fault there.
#[tactic(auto, unfolding(crate::specs::FrameText::fault_at))]
pub fn header_at(limit: MessageLimit, bytes: &[u8]) -> Result<Option<Header>, FrameError>
    ensures fault { IfErr result (λ fault. fault_at limit bytes.now ≡ Some fault) }
    ensures no_fault { OnOk result (fault_at limit bytes.now ≡ None) }
    ensures short { IfOk result (λ found. IfNone found (length bytes.now < 5)) }
    ensures header { IfOk result (λ found. IfSome found (IsHeader limit bytes.now)) }
{
    let Some((kind, after)) = bytes.split_first() else {
        return Ok(None);
    };
    if !kind.is_ascii_alphanumeric() {
        return Err(FrameError::BadType);
    }
    header_of(limit, *kind, after)
}

/// The header with this type, of whose frame these bytes follow, none where too few have come, or
/// the fault there.
#[tactic(auto, unfolding(crate::specs::FrameText::fault_at))]
pub fn header_of(limit: MessageLimit, kind: u8, after: &[u8]) -> Result<Option<Header>, FrameError>
    requires { IsTrue (is_type kind) }
    ensures fault { IfErr result (λ fault. fault_at limit (kind ∷ after.now) ≡ Some fault) }
    ensures no_fault { OnOk result (fault_at limit (kind ∷ after.now) ≡ None) }
    ensures short { IfOk result (λ found. IfNone found (length after.now < 4)) }
    ensures header { IfOk result (λ found. IfSome found (IsHeader limit (kind ∷ after.now))) }
{
    if after.len() < FIELD_LEN {
        return Ok(None);
    }
    let length = BigEndian::read_u32(after) as usize;
    if length < FIELD_LEN {
        return Err(FrameError::BadLength);
    }
    if length > limit.get() as usize {
        return Err(FrameError::TooLong);
    }
    Ok(Some(Header { kind, length }))
}
