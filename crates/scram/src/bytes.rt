//! Texts of bytes, XORed and compared.
ghost use Rattle.std.specs.Prelude.{◌≡◌, ◌↔◌, IsTrue};
ghost use Rattle.scram.specs.Hmac.{xor_bytes};

/// The XOR of two texts of 32 bytes.
pub fn xor(a: &[u8; 32], b: &[u8; 32]) -> [u8; 32]
    ensures { result ≡ xor_bytes a.now b.now }
{
    let mut out = *a;
    for i in 0..32 {
        out[i] ^= b[i];
    }
    out
}

/// Whether they are the same. If they are of one length, each byte of both is read, whatever the
/// others are.
pub fn same(a: &[u8], b: &[u8]) -> bool
    ensures { IsTrue result ↔ (a.now ≡ b.now) }
{
    if a.len() != b.len() {
        return false;
    }
    let mut differences = 0;
    for i in 0..a.len() {
        differences |= a[i] ^ b[i];
    }
    differences == 0
}
