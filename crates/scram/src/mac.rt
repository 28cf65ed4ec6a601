//! HMAC and Hi with SHA-256.
ghost use Rattle.std.specs.Prelude.{◌≡◌, ◌≤◌, ◌-◌, ◌++◌, List, ℕ, map, bit_xor, length, replicate};
ghost use Rattle.scram.specs.Hmac.{key_block, hi as hi_of, hmac as hmac_of, u_of};
ghost use Rattle.scram.specs.Keyed.{IsKeyedBy};

use crate::bytes::xor;
use sha2::{Digest, Sha256};
use std::fmt;

/// A key of HMAC-SHA-256, whose blocks are taken in. `Debug` doesn't show it.
#[derive(Drop)]
pub struct HmacKey {
    inner: Sha256,
    outer: Sha256,
}

impl HmacKey {
    /// The key that these bytes are, of any length.
    pub fn new(key: &[u8]) -> HmacKey
        ensures { IsKeyedBy result key.now }
    {
        let block = block_of(key);
        HmacKey {
            inner: Sha256::new_with_prefix(padded(&block, 0x36)),
            outer: Sha256::new_with_prefix(padded(&block, 0x5C)),
        }
    }

    /// The HMAC of the text.
    pub fn hmac(&self, text: &[u8]) -> [u8; 32]
        ensures { (key : List ℕ) → IsKeyedBy self.now key → result ≡ hmac_of key text.now }
    {
        let mut inner = self.inner.clone().unwrap();
        inner.update(text);
        let mut outer = self.outer.clone().unwrap();
        outer.update(inner.finalize());
        outer.finalize()
    }
}

impl fmt::Debug for HmacKey {
    ghost use Rattle.std.specs.Prelude.{Some, codes};

    ghost debug_output = { λ _. Some (codes "HmacKey(..)") };

    fn fmt<W: fmt::Write>(&self, f: &mut fmt::Formatter<W>) -> fmt::Result {
        f.write_str("HmacKey(..)")
    }
}

/// HMAC-SHA-256 of the text under the key, which may be of any length.
pub fn hmac(key: &[u8], text: &[u8]) -> [u8; 32]
    ensures { result ≡ hmac_of key.now text.now }
{
    HmacKey::new(key).hmac(text)
}

/// Hi(str, salt, iterations) of RFC 5802: PBKDF2 with HMAC-SHA-256, one block of 32 bytes.
pub fn hi(str: &[u8], salt: &[u8], iterations: u32) -> [u8; 32]
    requires { 1 ≤ iterations }
    ensures { result ≡ hi_of str.now salt.now iterations }
{
    let key = HmacKey::new(str);
    let mut block = first_block(&key, salt);
    let mut all = block;
    for _ in 1..iterations {
        block = key.hmac(&block);
        all = xor(&all, &block);
    }
    all
}

// U 1 of Hi: HMAC of the salt and INT(1).
fn first_block(key: &HmacKey, salt: &[u8]) -> [u8; 32]
    ensures { (str : List ℕ) → IsKeyedBy key.now str → result ≡ u_of str salt.now 0 }
{
    let mut inner = key.inner.clone().unwrap();
    inner.update(salt);
    inner.update([0, 0, 0, 1]);
    let mut outer = key.outer.clone().unwrap();
    outer.update(inner.finalize());
    outer.finalize()
}

// The key, or its digest where it is longer than a block, and zeros after it.
fn block_of(key: &[u8]) -> [u8; 64]
    ensures { result ≡ key_block key.now }
{
    if key.len() > 64 {
        filled(&Sha256::digest(key))
    } else {
        filled(key)
    }
}

// These bytes, and zeros after them.
fn filled(short: &[u8]) -> [u8; 64]
    requires { length short.now ≤ 64 }
    ensures { result ≡ short.now ++ replicate (64 - length short.now) 0 }
{
    let mut block = [0; 64];
    block[..short.len()].copy_from_slice(short);
    block
}

// The block, each byte of it XOR this one.
fn padded(block: &[u8; 64], byte: u8) -> [u8; 64]
    ensures { result ≡ map (λ b. bit_xor b byte) block.now }
{
    let mut out = *block;
    for b in out.iter_mut() {
        *b ^= byte;
    }
    out
}
