//! Base64, with the standard alphabet and padding.
ghost use Rattle.std.specs.Prelude.{◌≡◌, ◌↔◌, ◌++◌, IfOk, IsTrue, OnOk};
ghost use Rattle.scram.specs.Base64.{base64};
ghost use Rattle.scram.specs.Decoded.{Decodes, DecodesDigest};
ghost use Rattle.scram.specs.Flag.{gs2_header};

use crate::bytes::same;
use crate::flag::Gs2Flag;
use base64::DecodeAllocError;
use base64::engine::general_purpose::STANDARD;
use std::alloc::{AllocError, Global};

/// Appends the base64 of the bytes.
pub fn push_base64(out: &mut Vec<u8>, alloc: Global, bytes: &[u8]) -> Result<(), AllocError>
    ensures { OnOk result (out.new.items ≡ out.old.items ++ base64 bytes.now) }
{
    let text = STANDARD.encode(alloc, bytes)?;
    out.extend_from_slice(text.as_bytes())?;
    Ok(())
}

/// The bytes that this text is the base64 of; none if it is no base64.
pub fn decoded(alloc: Global, text: &[u8]) -> Result<Option<Vec<u8>>, AllocError>
    ensures { IfOk result (λ answer. Decodes text.now answer) }
{
    match STANDARD.decode(alloc, text) {
        Ok(bytes) => Ok(Some(bytes)),
        Err(DecodeAllocError::OutOfMemory) => Err(AllocError),
        Err(DecodeAllocError::DecodeError(_)) => Ok(None),
    }
}

/// Whether the text is the base64 of these bytes. If it has its length, all of it is compared.
pub fn is_base64_of(text: &[u8], bytes: &[u8; 32]) -> bool
    ensures { IsTrue result ↔ (text.now ≡ base64 bytes.now) }
{
    let mut expected = [0; 44];
    let _ = STANDARD.encode_slice(bytes, &mut expected);
    same(text, &expected)
}

/// The 32 bytes that this text is the base64 of; none if it is that of no 32 bytes.
pub fn digest_in(alloc: Global, text: &[u8]) -> Result<Option<[u8; 32]>, AllocError>
    ensures { IfOk result (λ answer. DecodesDigest text.now answer) }
{
    let Some(bytes) = decoded(alloc, text)? else {
        return Ok(None);
    };
    if bytes.len() != 32 {
        return Ok(None);
    }
    let mut digest = [0; 32];
    digest.copy_from_slice(&bytes);
    Ok(Some(digest))
}

/// Whether the text is the base64 of the gs2-header with this flag.
pub fn is_header(alloc: Global, text: &[u8], flag: Gs2Flag) -> Result<bool, AllocError>
    ensures { IfOk result (λ is. IsTrue is ↔ (text.now ≡ base64 (gs2_header flag))) }
{
    let mut expected = Vec::new(alloc);
    push_base64(&mut expected, alloc, &flag.header())?;
    Ok(same(text, &expected))
}
