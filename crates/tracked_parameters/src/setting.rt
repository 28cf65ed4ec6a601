//! A parameter and its value, as a server reports them.
ghost use Rattle.std.specs.Prelude.{◌≡◌, ◌++◌, ◌∷◌, ◌<◌, ◌==◌, List, ℕ, [], length, IfSome, IfNone};
ghost use Rattle.std.specs.List.{position_from};
ghost use Rattle.startup.specs.Replies.{Report};
ghost use Rattle.startup.specs.StartupMessage.{HasNoZero};
ghost use Rattle.tracked_parameters.specs.Status.{IsStatus, told};

/// A parameter and its value.
#[derive(Clone, Copy, Debug)]
pub struct Setting<'a> {
    pub name: &'a [u8],
    pub value: &'a [u8],
}

/// What a ParameterStatus with this body reports, none if the body isn't of its form (PostgreSQL
/// manual, "Message Formats").
pub fn read_status(body: &[u8]) -> Option<Setting<'_>>
    ensures found { IfSome result (λ setting. IsStatus body.now (told setting)) }
    ensures none { IfNone result ((report : Report) → IsStatus body.now report → ⊥) }
{
    let (name, rest) = text_at(body)?;
    let (value, after) = text_at(rest)?;
    if !after.is_empty() {
        return None;
    }
    Some(Setting { name, value })
}

// The text at the front, without the zero byte that ends it, and what follows.
fn text_at(bytes: &[u8]) -> Option<(&[u8], &[u8])>
    ensures found { IfSome result (λ found. HasNoZero found.0.now
        × (bytes.now ≡ found.0.now ++ 0 ∷ found.1.now)) }
    ensures none { IfNone result ((text after : List ℕ) → HasNoZero text
        → bytes.now ≡ text ++ 0 ∷ after → ⊥) }
{
    let end = zero_at(bytes)?;
    Some((&bytes[..end], &bytes[end + 1..]))
}

// The place of the first zero byte.
fn zero_at(bytes: &[u8]) -> Option<usize>
    ensures place { result ≡ position_from (λ byte. byte == 0) 0 bytes.now }
    ensures within { IfSome result (λ end. end < length bytes.now) }
{
    bytes.iter().position(|byte| *byte == 0)
}
