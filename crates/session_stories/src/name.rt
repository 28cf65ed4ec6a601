//! The names of streams.
use std::fmt;

// Whose stream it is: of a client, of one that comes while the first client has a link, of one that
// comes after a call has failed, or of a server or peer that was connected to.
#[derive(Clone, Copy, PartialEq, Eq)]
pub(crate) enum Who {
    Client,
    Guest,
    Later,
    Server,
}

impl Who {
    // Who is called so.
    pub(crate) fn read(word: &str) -> Option<Who> {
        match word {
            "client" => Some(Who::Client),
            "guest" => Some(Who::Guest),
            "later" => Some(Who::Later),
            "server" => Some(Who::Server),
            _ => None,
        }
    }

    fn word(self) -> &'static str {
        match self {
            Who::Client => "client",
            Who::Guest => "guest",
            Who::Later => "later",
            Who::Server => "server",
        }
    }
}

// A stream, by its number among those of its side, from 1 on.
#[derive(Clone, Copy, PartialEq, Eq)]
pub(crate) struct Name {
    pub(crate) who: Who,
    pub(crate) number: u32,
}

impl fmt::Display for Name {
    fn fmt<W: fmt::Write>(&self, f: &mut fmt::Formatter<W>) -> fmt::Result {
        let (word, number) = (self.who.word(), self.number);
        write!(f, "{word} {number}")
    }
}
