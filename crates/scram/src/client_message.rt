//! The messages that a server reads.
ghost use Rattle.std.specs.Prelude.{◌≡◌, ◌++◌, List, ℕ, IfErr, IfNone, IfOk, IfSome};
ghost use Rattle.scram.specs.Flag.{gs2_header};
ghost use Rattle.scram.specs.Headers.{TellsNoHeader};
ghost use Rattle.scram.specs.Server.{HasLast, IsBare};

use crate::flag::Gs2Flag;
use crate::nonce::is_nonce;
use crate::parts::{after_prefix, attribute_at, value_of};
use crate::server_error::ServerError;

/// The flag of the gs2-header at the front of the text, and what follows it.
pub fn header_of(text: &[u8]) -> Result<(Gs2Flag, &[u8]), ServerError>
    ensures ok { IfOk result (λ header. text.now ≡ gs2_header header.0 ++ header.1.now) }
    ensures err { IfErr result (λ error. TellsNoHeader text.now error) }
{
    if let Some(bare) = after_prefix(text, b"n,,") {
        return Ok((Gs2Flag::Unsupported, bare));
    }
    if let Some(bare) = after_prefix(text, b"y,,") {
        return Ok((Gs2Flag::Unadvertised, bare));
    }
    if after_prefix(text, b"p").is_some() {
        return Err(ServerError::ChannelBinding);
    }
    if after_prefix(text, b"n,a").is_some() || after_prefix(text, b"y,a").is_some() {
        return Err(ServerError::Authorization);
    }
    Err(ServerError::Malformed)
}

/// The nonce of a client-first-message-bare.
pub fn nonce_of(bare: &[u8]) -> Option<&[u8]>
    ensures found { IfSome result (λ nonce. (user : List ℕ) × IsBare bare.now user nonce.now) }
    ensures none { IfNone result ((user nonce : List ℕ) → ¬ (IsBare bare.now user nonce)) }
{
    let (_, rest) = attribute_at(bare, b'n')?;
    let nonce = value_of(rest, b'r')?;
    if !is_nonce(nonce) {
        return None;
    }
    Some(nonce)
}

/// The values of a client-final-message, as they stand.
#[derive(Clone, Copy, Debug)]
pub struct ClientLast<'a> {
    pub binding: &'a [u8],
    pub nonce: &'a [u8],
    pub proof: &'a [u8],
}

impl<'a> ClientLast<'a> {
    /// The attributes of a client-final-message: the channel's binding, the nonce, the proof, and
    /// nothing else.
    pub fn read(text: &'a [u8]) -> Option<ClientLast<'a>>
        ensures found { IfSome result (λ last. HasLast text.now last.binding.now last.nonce.now
            last.proof.now) }
        ensures none { IfNone result ((binding nonce proof : List ℕ)
            → ¬ (HasLast text.now binding nonce proof)) }
    {
        let (binding, rest) = attribute_at(text, b'c')?;
        let (nonce, rest) = attribute_at(rest, b'r')?;
        let proof = value_of(rest, b'p')?;
        Some(ClientLast {
            binding,
            nonce,
            proof,
        })
    }
}
