//! What a board counts.
ghost use Rattle.std.specs.Prelude.{◌≡◌};
ghost use Rattle.stat_board.specs.Places.{place_of};

/// What is counted of cancel requests.
#[derive(Clone, Copy, Debug, PartialEq, Eq, Hash)]
pub enum Counter {
    /// Refused 60: the request has passed through as many poolers as it may.
    Spent,
    /// Refused 61: no live slot has this number and this secret.
    Unknown,
    /// Refused 62: the key's pooler isn't in the list of peers.
    NoPeer,
    /// Refused 63: the slot's client holds no link.
    NoLink,
    /// Sent on to a peer.
    Forwarded,
    /// Sent to a server.
    Sent,
    /// The server's connection ended cleanly.
    Ended,
    /// The server's connection failed.
    Failed,
}

// How many counters there are.
pub const COUNTERS: usize = 8;

impl Counter {
    /// The place of its word on a board, 0 to 7.
    pub const fn place(self) -> usize
        ensures { result ≡ place_of self }
    {
        match self {
            Counter::Spent => 0,
            Counter::Unknown => 1,
            Counter::NoPeer => 2,
            Counter::NoLink => 3,
            Counter::Forwarded => 4,
            Counter::Sent => 5,
            Counter::Ended => 6,
            Counter::Failed => 7,
        }
    }
}
