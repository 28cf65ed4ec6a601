//! The key that a server gave for a backend.
ghost use Rattle.std.specs.Prelude.{◌≡◌, ℕ, List};

use std::fmt;
use std::marker::Model;

/// The eight key bytes that a server gave for one of its backends (PostgreSQL manual,
/// BackendKeyData). They aren't shown by `Debug`.
#[derive(Clone, Copy, PartialEq, Eq, Hash)]
pub struct ServerKey(pub [u8; 8]);

impl Model for ServerKey {
    ghost Value = { List ℕ };

    ghost view = { λ k. k.0 };

    ghost inverse = { λ bytes. record { 0 = bytes } };
}

impl ServerKey {
    /// The bytes, as BackendKeyData and CancelRequest have them.
    pub const fn to_bytes(self) -> [u8; 8]
        ensures { result ≡ self }
    {
        self.0
    }
}

impl fmt::Debug for ServerKey {
    ghost use Rattle.std.specs.Prelude.{Some, codes};

    ghost debug_output = { λ _. Some (codes "ServerKey(..)") };

    fn fmt<W: fmt::Write>(&self, f: &mut fmt::Formatter<W>) -> fmt::Result {
        f.write_str("ServerKey(..)")
    }
}
