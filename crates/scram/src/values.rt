//! The values of an exchange: keys, signatures and proofs.
ghost use Rattle.std.specs.Prelude.{◌≡◌, ◌↔◌, ◌≤◌, IsTrue};
ghost use Rattle.scram.specs.Values.{Proves, client_key as client_key_of, client_proof as client_proof_of, server_key as server_key_of, stored_key as stored_key_of};

use crate::bytes::{same, xor};
use crate::mac::hmac;
use sha2::{Digest, Sha256};

/// ClientKey of a salted password.
pub fn client_key(salted: &[u8; 32]) -> [u8; 32]
    ensures { result ≡ client_key_of salted.now }
{
    hmac(salted, b"Client Key")
}

/// StoredKey of a salted password.
pub fn stored_key(salted: &[u8; 32]) -> [u8; 32]
    ensures { result ≡ stored_key_of salted.now }
{
    Sha256::digest(client_key(salted))
}

/// ServerKey of a salted password.
pub fn server_key(salted: &[u8; 32]) -> [u8; 32]
    ensures { result ≡ server_key_of salted.now }
{
    hmac(salted, b"Server Key")
}

/// ClientProof of a salted password, for an AuthMessage.
pub fn client_proof(salted: &[u8; 32], auth_message: &[u8]) -> [u8; 32]
    ensures proof { result ≡ client_proof_of salted.now auth_message.now }
    // Whoever keeps StoredKey of the same salted password accepts it.
    ensures right { Proves (stored_key_of salted.now) auth_message.now
        (client_proof_of salted.now auth_message.now) }
{
    let key = client_key(salted);
    let stored = Sha256::digest(key);
    xor(&key, &hmac(&stored, auth_message))
}

/// Whether a proof is right, for a StoredKey and an AuthMessage. All of it is compared in any case.
pub fn is_proof(stored: &[u8; 32], auth_message: &[u8], proof: &[u8; 32]) -> bool
    ensures { IsTrue result ↔ Proves stored.now auth_message.now proof.now }
{
    let key = xor(proof, &hmac(stored, auth_message));
    same(&Sha256::digest(key), stored)
}
