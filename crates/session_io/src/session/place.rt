//! Where in a reply its reader is, and what it handed out.
ghost use Rattle.std.specs.Prelude.{◌≡◌, length};
ghost use Rattle.session_io.specs.Progress.{withheld};

use client_state::Reply;

/// Where in a reply its reader is.
#[derive(Clone, Copy)]
pub enum Place {
    /// Between two frames.
    Between,
    /// Inside a frame that is passed on.
    Inside,
    /// Inside its ReadyForQuery, whose head was read.
    AtReady,
    /// Inside its ReadyForQuery, whose status was read.
    Status(u8),
}

/// What was handed out of a reply.
#[derive(Drop)]
pub enum Handed {
    /// All that is there. The reader is at this place, and more is to come.
    More(Place),
    /// The reply up to its ReadyForQuery, with this status.
    Ready(u8),
    /// The reply up to the head of a frame that isn't passed on. This is to be written instead.
    Refused(Reply),
}

impl Place {
    /// How many bytes of the frame at this place aren't passed on before it is whole.
    pub fn withheld(&self) -> usize
        ensures { result ≡ length (withheld self.now) }
    {
        match self {
            Place::Between | Place::Inside => 0,
            Place::AtReady => 5,
            Place::Status(_) => 6,
        }
    }
}
