//! The secret of a client's slot.
ghost use Rattle.std.specs.Prelude.{◌≡◌, ℕ};

use std::fmt;
use std::marker::Model;

/// What a client has to know of its slot to cancel there. It isn't shown by `Debug`.
#[derive(Clone, Copy, PartialEq, Eq, PartialOrd, Ord, Hash)]
pub struct Secret(pub u32);

impl Model for Secret {
    ghost Value = { ℕ };

    ghost view = { λ s. s.0 };

    ghost inverse = { λ n. record { 0 = n } };
}

impl Secret {
    /// The number.
    pub const fn get(self) -> u32
        ensures { result ≡ self }
    {
        self.0
    }
}

impl fmt::Debug for Secret {
    ghost use Rattle.std.specs.Prelude.{Some, codes};

    ghost debug_output = { λ _. Some (codes "Secret(..)") };

    fn fmt<W: fmt::Write>(&self, f: &mut fmt::Formatter<W>) -> fmt::Result {
        f.write_str("Secret(..)")
    }
}
