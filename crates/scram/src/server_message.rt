//! The messages that a client reads.
ghost use Rattle.std.specs.Prelude.{◌≡◌, List, ℕ, IfSome, IfNone};
ghost use Rattle.scram.specs.Client.{HasFirst};

use crate::parts::{attribute_at, value_of};

/// The values of a server-first-message, as they stand.
#[derive(Clone, Copy, Debug)]
pub struct ServerFirst<'a> {
    pub nonce: &'a [u8],
    pub salt: &'a [u8],
    pub count: &'a [u8],
}

impl<'a> ServerFirst<'a> {
    /// The attributes of a server-first-message: nonce, salt, count of iterations, and nothing else.
    pub fn read(text: &'a [u8]) -> Option<ServerFirst<'a>>
        ensures found { IfSome result (λ first. HasFirst text.now first.nonce.now first.salt.now
            first.count.now) }
        ensures none { IfNone result ((nonce salt count : List ℕ)
            → ¬ (HasFirst text.now nonce salt count)) }
    {
        let (nonce, rest) = attribute_at(text, b'r')?;
        let (salt, rest) = attribute_at(rest, b's')?;
        let count = value_of(rest, b'i')?;
        Some(ServerFirst { nonce, salt, count })
    }
}
