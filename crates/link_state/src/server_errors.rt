//! The first error among a server's messages.
ghost use Rattle.std.specs.Prelude.{◌<◌, List, ℕ, length, IfSome, IfNone};
ghost use Rattle.link_state.specs.Watch.{BeginsNoMessage};
ghost use Rattle.link_state.specs.FirstError.{IsFirstError, StandsFirst};

use crate::incoming::{FIELD, HEAD, length_in};

/// The bytes of the first whole ErrorResponse among these messages (PostgreSQL manual, "Message
/// Formats").
pub fn first_error(messages: &[u8]) -> Option<&[u8]>
    ensures found { IfSome result (λ error. IsFirstError messages.now error.now) }
    ensures none { IfNone result ((error : List ℕ) → IsFirstError messages.now error → ⊥) }
{
    let mut rest = messages;
    while let Some((kind, message, after)) = message_at(rest) {
        if kind == b'E' {
            return Some(message);
        }
        rest = after;
    }
    None
}

// The type and the bytes of the message at the front of the bytes, if it is whole, and what follows
// it.
fn message_at(bytes: &[u8]) -> Option<(u8, &[u8], &[u8])>
    ensures found { IfSome result (λ read. StandsFirst bytes.now read.0 read.1.now read.2.now) }
    ensures none { IfNone result (BeginsNoMessage bytes.now) }
    ensures shorter { IfSome result (λ read. length read.2.now < length bytes.now) }
{
    if bytes.len() < HEAD {
        return None;
    }
    let length = length_in(bytes);
    if length < FIELD || length >= bytes.len() {
        return None;
    }
    let (message, after) = bytes.split_at(1 + length);
    Some((bytes[0], message, after))
}
