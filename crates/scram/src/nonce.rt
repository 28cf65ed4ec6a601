//! Nonces.
ghost use Rattle.std.specs.Prelude.{◌≢◌, ◌↔◌, ◌≤◌, IsTrue};
ghost use Rattle.scram.specs.Messages.{IsNonce};
ghost use Rattle.scram.specs.Nonces.{Extends};

use crate::parts::after_prefix;

/// Whether these bytes may be a nonce: printable, without a comma, and not none.
pub fn is_nonce(bytes: &[u8]) -> bool
    ensures { IsTrue result ↔ IsNonce bytes.now }
{
    !bytes.is_empty() && bytes.iter().all(|byte| is_printable(*byte))
}

/// Whether a nonce begins with the client's own, and the server has added to it.
pub fn extends(nonce: &[u8], own: &[u8]) -> bool
    ensures { IsTrue result ↔ Extends own.now nonce.now }
{
    match after_prefix(nonce, own) {
        Some(added) => is_nonce(added),
        None => false,
    }
}

// Whether a byte may stand in a nonce.
const fn is_printable(byte: u8) -> bool
    ensures { IsTrue result ↔ ((33 ≤ byte) × (byte ≤ 126) × (byte ≢ 44)) }
{
    33 <= byte && byte <= 126 && byte != b','
}
