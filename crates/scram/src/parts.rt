//! The parts of a message: attributes, between commas.
ghost use Rattle.std.specs.Prelude.{◌≡◌, ◌≢◌, ◌<◌, ◌==◌, [], ◌∷◌, ◌++◌, List, ℕ, length, IfSome, IfNone, MatchOption};
ghost use Rattle.std.specs.List.{position_from};
ghost use Rattle.scram.specs.Messages.{Lacks, attribute, and_then};

/// The value of an attribute of this name, which is the whole text.
pub fn value_of(text: &[u8], name: u8) -> Option<&[u8]>
    ensures found { IfSome result (λ value. text.now ≡ attribute (name ∷ []) value.now) }
    ensures none { IfNone result ((value : List ℕ) → text.now ≢ attribute (name ∷ []) value) }
{
    if text.len() < 2 || text[0] != name || text[1] != b'=' {
        return None;
    }
    Some(&text[2..])
}

/// The value of an attribute of this name at the front of the text, and what follows the comma after
/// it.
pub fn attribute_at(text: &[u8], name: u8) -> Option<(&[u8], &[u8])>
    requires { name ≢ 44 }
    ensures found { IfSome result (λ read. Lacks 44 read.0.now
        × (text.now ≡ and_then (attribute (name ∷ []) read.0.now) read.1.now)) }
    ensures none { IfNone result ((value rest : List ℕ) → Lacks 44 value
        → text.now ≢ and_then (attribute (name ∷ []) value) rest) }
{
    let (front, rest) = cut_at(text, b',')?;
    let value = value_of(front, name)?;
    Some((value, rest))
}

/// What follows this beginning of the text.
pub fn after_prefix<'a>(text: &'a [u8], prefix: &[u8]) -> Option<&'a [u8]>
    ensures { MatchOption result ((rest : List ℕ) → text.now ≢ prefix.now ++ rest)
        (λ rest. text.now ≡ prefix.now ++ rest.now) }
{
    text.strip_prefix(prefix)
}

/// What stands before the first such byte, and what stands after it.
pub fn cut_at(text: &[u8], byte: u8) -> Option<(&[u8], &[u8])>
    ensures found { IfSome result (λ cut. Lacks byte cut.0.now
        × (text.now ≡ cut.0.now ++ byte ∷ cut.1.now)) }
    ensures none { IfNone result ((front rest : List ℕ) → Lacks byte front
        → text.now ≢ front ++ byte ∷ rest) }
{
    let end = place_of(text, byte)?;
    Some((&text[..end], &text[end + 1..]))
}

// The place of the first such byte.
fn place_of(text: &[u8], byte: u8) -> Option<usize>
    ensures place { result ≡ position_from (λ b. b == byte) 0 text.now }
    ensures within { IfSome result (λ end. end < length text.now) }
{
    text.iter().position(|b| *b == byte)
}
