//! The number of a pooler in its group.
ghost use Rattle.std.specs.Prelude.{◌≡◌, ◌<◌, ◌^◌, ◌↔◌, ℕ, IsSome, IfSome};

use std::marker::Model;

/// The number of a pooler in its group, 0 to 16383 (PgBouncer's `peer_id`).
#[derive(Clone, Copy, Debug, PartialEq, Eq, PartialOrd, Ord, Hash)]
pub struct PeerNo {
    number: u16,
}

impl Model for PeerNo {
    ghost Value = { ℕ };

    ghost view = { λ p. p.number };

    ghost invariant = { λ p. p.number < 2 ^ 14 };

    ghost inverse = { λ n. record { number = n } };
}

impl PeerNo {
    /// The peer with this number, and none past 16383.
    pub const fn new(number: u16) -> Option<PeerNo>
        ensures valid { IsSome result ↔ (number < 2 ^ 14) }
        ensures value { IfSome result (λ p. p ≡ number) }
    {
        if number < 1 << 14 {
            Some(PeerNo { number })
        } else {
            None
        }
    }

    /// The number, 0 to 16383.
    pub const fn get(self) -> u16
        ensures value { result ≡ self }
        ensures range { result < 2 ^ 14 }
    {
        self.number
    }
}
