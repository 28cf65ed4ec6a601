//! The messages of an exchange, written.
ghost use Rattle.std.specs.Prelude.{◌≡◌, [], IfOk};
ghost use Rattle.scram.specs.Messages.{client_final as client_final_of, client_first as client_first_of, client_first_bare as client_first_bare_of, server_final as server_final_of, server_first as server_first_of, without_proof as without_proof_of};
ghost use Rattle.scram.specs.Values.{auth_message as auth_message_of};

use crate::encoding::push_base64;
use crate::flag::Gs2Flag;
use itoa::Buffer;
use std::alloc::{AllocError, Global};

/// client-first-message-bare, of no user's name.
pub fn client_first_bare(alloc: Global, nonce: &[u8]) -> Result<Vec<u8>, AllocError>
    ensures { IfOk result (λ text. text.items ≡ client_first_bare_of [] nonce.now) }
{
    let mut text = Vec::from_slice(alloc, b"n=,r=")?;
    text.extend_from_slice(nonce)?;
    Ok(text)
}

/// client-first-message, of no user's name, and of a client that can't bind a channel.
pub fn client_first(alloc: Global, nonce: &[u8]) -> Result<Vec<u8>, AllocError>
    ensures { IfOk result (λ text. text.items ≡ client_first_of Gs2Flag.Unsupported [] nonce.now) }
{
    let mut text = Vec::from_slice(alloc, b"n,,n=,r=")?;
    text.extend_from_slice(nonce)?;
    Ok(text)
}

/// server-first-message.
pub fn server_first(
    alloc: Global,
    nonce: &[u8],
    salt: &[u8],
    iterations: u32,
) -> Result<Vec<u8>, AllocError>
    ensures { IfOk result (λ text. text.items ≡ server_first_of nonce.now salt.now iterations) }
{
    let mut digits = Buffer::new();
    let mut text = Vec::from_slice(alloc, b"r=")?;
    text.extend_from_slice(nonce)?;
    text.extend_from_slice(b",s=")?;
    push_base64(&mut text, alloc, salt)?;
    text.extend_from_slice(b",i=")?;
    text.extend_from_slice(digits.format(iterations).as_bytes())?;
    Ok(text)
}

/// client-final-message-without-proof.
pub fn without_proof(alloc: Global, flag: Gs2Flag, nonce: &[u8]) -> Result<Vec<u8>, AllocError>
    ensures { IfOk result (λ text. text.items ≡ without_proof_of flag nonce.now) }
{
    let mut text = Vec::from_slice(alloc, b"c=")?;
    push_base64(&mut text, alloc, &flag.header())?;
    text.extend_from_slice(b",r=")?;
    text.extend_from_slice(nonce)?;
    Ok(text)
}

/// client-final-message.
pub fn client_final(
    alloc: Global,
    flag: Gs2Flag,
    nonce: &[u8],
    proof: &[u8; 32],
) -> Result<Vec<u8>, AllocError>
    ensures { IfOk result (λ text. text.items ≡ client_final_of flag nonce.now proof.now) }
{
    let mut text = without_proof(alloc, flag, nonce)?;
    text.extend_from_slice(b",p=")?;
    push_base64(&mut text, alloc, proof)?;
    Ok(text)
}

/// server-final-message, with a signature.
pub fn server_final(alloc: Global, signature: &[u8; 32]) -> Result<Vec<u8>, AllocError>
    ensures { IfOk result (λ text. text.items ≡ server_final_of signature.now) }
{
    let mut text = Vec::from_slice(alloc, b"v=")?;
    push_base64(&mut text, alloc, signature)?;
    Ok(text)
}

/// AuthMessage of client-first-message-bare, server-first-message and
/// client-final-message-without-proof.
pub fn auth_message(
    alloc: Global,
    bare: &[u8],
    first: &[u8],
    last: &[u8],
) -> Result<Vec<u8>, AllocError>
    ensures { IfOk result (λ text. text.items ≡ auth_message_of bare.now first.now last.now) }
{
    let mut text = Vec::from_slice(alloc, bare)?;
    text.push(b',')?;
    text.extend_from_slice(first)?;
    text.push(b',')?;
    text.extend_from_slice(last)?;
    Ok(text)
}
