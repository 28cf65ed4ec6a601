//! How long a message may be.
ghost use Rattle.std.specs.Prelude.{◌≡◌, ◌≤◌, ◌↔◌, ℕ, IsSome, IfSome};

use std::marker::Model;

/// The limit where no other is given (own).
pub const MAX_MESSAGE: u32 = 1 << 20;

/// The greatest length field of a message, 8,192 to 1,073,741,823 (own).
#[derive(Clone, Copy, Debug, PartialEq, Eq)]
pub struct MessageLimit {
    bytes: u32,
}

impl Model for MessageLimit {
    ghost Value = { ℕ };

    ghost view = { λ l. l.bytes };

    ghost invariant = { λ l. (8192 ≤ l.bytes) × (l.bytes ≤ 1073741823) };

    ghost inverse = { λ n. record { bytes = n } };
}

impl MessageLimit {
    /// The limit where no other is given: `MAX_MESSAGE`.
    pub const DEFAULT: MessageLimit = MessageLimit { bytes: MAX_MESSAGE };

    /// This limit, and none below 8,192 or above 1,073,741,823.
    pub const fn new(bytes: u32) -> Option<MessageLimit>
        ensures valid { IsSome result ↔ ((8192 ≤ bytes) × (bytes ≤ 1073741823)) }
        ensures value { IfSome result (λ limit. limit ≡ bytes) }
    {
        if bytes < 8_192 || bytes > 1_073_741_823 {
            None
        } else {
            Some(MessageLimit { bytes })
        }
    }

    /// The greatest length field, 8,192 to 1,073,741,823.
    pub const fn get(self) -> u32
        ensures value { result ≡ self }
        ensures low { 8192 ≤ result }
        ensures high { result ≤ 1073741823 }
    {
        self.bytes
    }
}
