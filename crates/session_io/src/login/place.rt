//! Where in a server's messages the reader of a login is.
ghost use Rattle.std.specs.Prelude.{◌≡◌};
ghost use Rattle.session_io.specs.LoggingIn.{mark_of, after_tail};

use link_state::ServerKey;
use pg_frames::Piece;

/// Where in a server's messages the reader of a login is.
#[derive(Clone, Copy)]
pub enum LoginPlace {
    /// Between two messages.
    Between,
    /// Inside a message whose rest is passed over.
    Passing,
    /// Inside a message of whose body the login reads this many bytes.
    Reading(usize),
    /// Inside the message with which the link is up, with this key.
    Up(ServerKey),
}

/// What was taken of a server's messages.
#[derive(Clone, Copy)]
pub enum Taken {
    /// All that is there. The reader is at this place, and more is to come.
    More(LoginPlace),
    /// The messages up to the one with which the link is up, with this key.
    Done(ServerKey),
    /// The messages up to one with which the login fails.
    Stopped(Stop),
}

/// With what a login fails.
#[derive(Clone, Copy)]
pub enum Stop {
    /// With what is no answer to a login, or with the end of what came.
    Failed,
    /// With an authentication request of this code.
    Asks(u32),
    /// With an ErrorResponse with this length field, whose head was taken.
    Error(usize),
}

/// Which piece of a message was handed out. The bytes of its body aren't in it.
#[derive(Clone, Copy)]
pub enum Mark {
    /// The type byte and the length field.
    Head {
        /// The type byte.
        kind: u8,
        /// The length field.
        length: usize,
    },
    /// Some of the body.
    Part,
    /// The end of the message.
    Tail,
}

impl Mark {
    /// Which piece this is.
    pub fn of(piece: Piece<'_>) -> Mark
        ensures { result ≡ mark_of piece.entry }
    {
        match piece {
            Piece::Head { kind, length } => Mark::Head { kind, length },
            Piece::Part(_) => Mark::Part,
            Piece::Tail => Mark::Tail,
        }
    }
}

impl LoginPlace {
    /// What the end of a message means at this place.
    pub fn after_tail(self) -> Taken
        ensures { result ≡ after_tail self }
    {
        match self {
            LoginPlace::Passing => Taken::More(LoginPlace::Between),
            LoginPlace::Up(key) => Taken::Done(key),
            LoginPlace::Between | LoginPlace::Reading(_) => Taken::Stopped(Stop::Failed),
        }
    }
}
