//! How far a cancel request may still go.
ghost use Rattle.std.specs.Prelude.{◌≡◌, ◌<◌, ◌↔◌, ℕ, IsSome, IfSome};

use std::marker::Model;

/// How many more poolers a cancel request may pass through, 0 to 3 (own).
#[derive(Clone, Copy, Debug, PartialEq, Eq, PartialOrd, Ord, Hash)]
pub struct Hops {
    left: u8,
}

impl Model for Hops {
    ghost Value = { ℕ };

    ghost view = { λ h. h.left };

    ghost invariant = { λ h. h.left < 4 };

    ghost inverse = { λ n. record { left = n } };
}

impl Hops {
    /// What a key is issued with.
    pub const MAX: Hops = Hops { left: 3 };

    /// This many hops, and none past 3.
    pub const fn new(left: u8) -> Option<Hops>
        ensures valid { IsSome result ↔ (left < 4) }
        ensures value { IfSome result (λ h. h ≡ left) }
    {
        if left < 4 { Some(Hops { left }) } else { None }
    }

    /// The number, 0 to 3.
    pub const fn get(self) -> u8
        ensures value { result ≡ self }
        ensures range { result < 4 }
    {
        self.left
    }
}
