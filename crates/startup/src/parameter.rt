//! The parameters of a StartupMessage, one by one.
ghost use Rattle.std.specs.Prelude.{◌≡◌, ◌≢◌, ◌<◌, ◌==◌, ◌∷◌, ◌++◌, List, ℕ, length, IfSome, IfNone};
ghost use Rattle.std.specs.List.{position_from};
ghost use Rattle.startup.specs.StartupMessage.{IsText, IsParameter, parameter, is_reserved};

/// A parameter that a client sets for its session.
#[derive(Clone, Copy, Debug)]
pub struct Parameter<'a> {
    pub name: &'a str,
    pub value: &'a str,
}

impl<'a> Parameter<'a> {
    ghost use Rattle.startup.specs.StartupMessage.{Parameter as Sent};
    ghost use Rattle.startup.specs.Parameter.{sent};

    /// The parameter at the front of the bytes, and what follows it.
    pub fn read(bytes: &'a [u8]) -> Option<(Parameter<'a>, &'a [u8])>
        ensures found { IfSome result (λ read. IsParameter (sent read.0)
            × (bytes.now ≡ parameter (sent read.0) ++ read.1.now)) }
        ensures none { IfNone result ((p : Sent) (after : List ℕ) → IsParameter p
            → bytes.now ≢ parameter p ++ after) }
    {
        let (name, rest) = text_at(bytes)?;
        if name.is_empty() {
            return None;
        }
        let (value, after) = text_at(rest)?;
        Some((Parameter { name, value }, after))
    }

    /// A protocol option, or the replication mode: a client may not set them here.
    pub fn is_reserved(self) -> bool
        ensures { result ≡ is_reserved self.entry.name.now }
    {
        self.name.as_bytes().starts_with(b"_pq_.") || self.name == "replication"
    }
}

// The text before the first zero byte, and what follows that byte.
fn text_at(bytes: &[u8]) -> Option<(&str, &[u8])>
    ensures found { IfSome result (λ read. IsText read.0.now
        × (bytes.now ≡ read.0.now ++ 0 ∷ read.1.now)) }
    ensures none { IfNone result ((text after : List ℕ) → IsText text
        → bytes.now ≢ text ++ 0 ∷ after) }
{
    let end = zero_at(bytes)?;
    match str::from_utf8(&bytes[..end]) {
        Ok(text) => Some((text, &bytes[end + 1..])),
        Err(_) => None,
    }
}

/// The place of the first zero byte.
pub fn zero_at(bytes: &[u8]) -> Option<usize>
    ensures place { result ≡ position_from (λ byte. byte == 0) 0 bytes.now }
    ensures within { IfSome result (λ end. end < length bytes.now) }
{
    bytes.iter().position(|byte| *byte == 0)
}
