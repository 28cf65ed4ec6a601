//! Why arguments are refused.
ghost use Rattle.std.specs.Prelude.{◌≡◌};
ghost use Rattle.command_line.specs.declared.wrong.Wrong.TheVariants.{Memory};

use std::alloc::{AllocError, AllocFailed};

/// What a value is of.
#[derive(Clone, Copy, Debug, PartialEq, Eq)]
pub enum Place {
    /// The key of `key`.
    Key,
    /// The node's own number.
    Me,
    /// The number of a peer.
    Peer,
    /// The number of a peer that was given before.
    PeerAgain,
    /// One peer more than there may be.
    PeerTooMany,
    /// The secret of a client.
    Secret,
    /// The server's key of a client.
    ServerKey,
    /// One client more than there may be.
    ClientTooMany,
    /// The packet of `decide`.
    Packet,
    /// The port of `serve`.
    Front,
    /// The seed of `serve`.
    Seed,
    /// The file of `serve` that holds the seed.
    SeedFile,
    /// The number of a start of `serve`.
    Boot,
    /// A parameter that logins are to report, of `serve`.
    Report,
    /// One of which each login reports something fixed.
    ReportFixed,
    /// One that was given before.
    ReportAgain,
    /// One with which they are too long together.
    ReportTooLong,
    /// The longest message of `serve`.
    MaxMessage,
    /// How long a server is tried again, of `serve`.
    ServerWait,
    /// The port of the figures of `serve`.
    Metrics,
    /// The level of the log of `serve`.
    Log,
    /// The port of `stub`.
    Port,
}

/// Why arguments are refused, or that memory ran out.
#[derive(Clone, Copy, Debug)]
pub enum Wrong<'a> {
    /// They have no form of any command; `clap` has the message.
    Form,
    /// This value is invalid.
    Value(Place, &'a str),
    /// Memory ran out.
    Memory,
}

impl From<AllocError> for Wrong<'_> {
    ghost from_gives = { λ _ w. w ≡ Memory };

    fn from(_: AllocError) -> Self {
        Wrong::Memory
    }
}

impl<T: Drop> From<AllocFailed<T>> for Wrong<'_> {
    ghost from_gives = { λ _ w. w ≡ Memory };

    fn from(_: AllocFailed<T>) -> Self {
        Wrong::Memory
    }
}
