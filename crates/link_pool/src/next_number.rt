//! Numbers that are given from 0 on, one after the other, and never twice.
ghost use Rattle.std.specs.Prelude.{◌≡◌, ◌+◌, ◌^◌, ◌<◌, ◌≤◌, ◌↔◌, ℕ, IsNone, IfSome, OnSome, IfNone};

use std::marker::Model;

/// The number that is given next, 0 to 2^64; past 2^64 - 1 none is left.
#[derive(Debug, Drop)]
pub struct NextNumber {
    next: Option<u64>,
}

impl Model for NextNumber {
    ghost use Rattle.std.specs.Prelude.{ℕ, unwrap_or, ◌^◌};

    ghost Value = { ℕ };

    ghost view = { λ n. unwrap_or n.next (2 ^ 64) };
}

impl NextNumber {
    /// Begins with 0.
    pub const fn new() -> NextNumber
        ensures { result ≡ 0 }
    {
        NextNumber { next: Some(0) }
    }

    /// The number that is given next, and none past 2^64 - 1.
    pub fn peek(&self) -> Option<u64>
        ensures none_left { IsNone result ↔ (self.now ≡ 2 ^ 64) }
        ensures next { IfSome result (λ n. (n ≡ self.now) × (n < 2 ^ 64)) }
    {
        let next = self.next?;
        Some(next)
    }

    /// Gives the next number, and none past 2^64 - 1.
    pub fn give(&mut self) -> Option<u64>
        ensures none_left { IsNone result ↔ (self.old ≡ 2 ^ 64) }
        ensures given { IfSome result
            (λ n. (n ≡ self.old) × (n < 2 ^ 64) × (self.new ≡ self.old + 1)) }
        ensures unchanged { IfNone result (self.new ≡ self.old) }
    {
        let given = self.next?;
        self.next = given.checked_add(1);
        Some(given)
    }
}
