//! The fields of an error that is read.
ghost use Rattle.std.specs.Prelude.{List, ℕ, IfSome, IfNone};
ghost use Rattle.startup.specs.Fields.{HasField, BeginsWith};

use crate::parameter::zero_at;

/// The text of the first field of this type in the body of an ErrorResponse or of a NoticeResponse,
/// if all of it is there (PostgreSQL manual, "Error and Notice Message Fields").
pub fn error_field(body: &[u8], kind: u8) -> Option<&[u8]>
    ensures found { IfSome result (λ text. HasField body.now kind text.now) }
    ensures none { IfNone result ((text : List ℕ) → HasField body.now kind text → ⊥) }
{
    let mut rest = body;
    while let Some((found, text, after)) = field_at(rest) {
        if found == kind {
            return Some(text);
        }
        rest = after;
    }
    None
}

// The type and the text of the field at the front of the bytes, and what follows it.
fn field_at(bytes: &[u8]) -> Option<(u8, &[u8], &[u8])>
    ensures found { IfSome result (λ read. BeginsWith bytes.now read.0 read.1.now read.2.now) }
    ensures none { IfNone result ((kind : ℕ) (text after : List ℕ)
        → BeginsWith bytes.now kind text after → ⊥) }
{
    let (kind, rest) = bytes.split_first()?;
    if *kind == 0 {
        return None;
    }
    let end = zero_at(rest)?;
    Some((*kind, &rest[..end], &rest[end + 1..]))
}
