//! Why a cancel request goes nowhere.
ghost use Rattle.std.specs.Prelude.{◌≡◌};
ghost use Rattle.cancel_router.specs.Refusals.{number_of};

use thiserror::Error;

/// Why a cancel request goes nowhere. The requester gets no reply: its connection is closed without
/// a byte.
#[derive(Clone, Copy, Debug, PartialEq, Eq, Hash, Error)]
pub enum RouteRefusal {
    /// The request has passed through as many poolers as it may.
    #[error("the request has passed through as many poolers as it may")]
    Spent,
    /// The key opens no live slot.
    #[error("the key opens no live slot")]
    Unknown,
    /// The key's pooler isn't in the list of peers.
    #[error("the key's pooler is no peer")]
    NoPeer,
    /// The slot's client holds no link.
    #[error("the slot's client holds no link")]
    NoLink,
}

impl RouteRefusal {
    /// Its number among all refusals, 60 to 63.
    pub const fn number(self) -> u8
        ensures { result ≡ number_of self }
    {
        match self {
            RouteRefusal::Spent => 60,
            RouteRefusal::Unknown => 61,
            RouteRefusal::NoPeer => 62,
            RouteRefusal::NoLink => 63,
        }
    }
}
