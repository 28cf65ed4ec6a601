//! The stream of a server connection.
ghost use Rattle.std.specs.Prelude.{◌≡◌, None, IfOk, OnOk, OnErr};
ghost use Rattle.std.specs.Arc.{arc_value};
ghost use Rattle.std.specs.Io.{ReadsAtMost};
ghost use Rattle.std.specs.Option.{option_map};
ghost use Rattle.tracked_links.specs.Heard.{bytes_given, names_of, values_of, heard_value, FitsNames, HearsBytes, EndsLogin, IsNew};

use crate::hearing::Hearing;
use peer_forward::{ReadCalls, WriteCalls};
use std::alloc::{AllocError, Global};
use std::io;
use std::marker::Model;
use std::sync::Arc;
use tracked_parameters::{ServerValues, TrackedNames};

/// The stream of a server connection, which hears what the server reports on it, if its parameters
/// are tracked. What is read and written is what the stream inside reads and writes. In contracts it
/// is a `StreamView`.
#[derive(Drop)]
pub struct TrackedStream<L> {
    stream: L,
    // A link is moved at each step of its node, so what is heard is apart.
    hearing: Option<Box<Hearing>>,
}

impl<L> Model for TrackedStream<L> {
    ghost use Rattle.std.specs.Prelude.{box_value};
    ghost use Rattle.std.specs.Option.{option_map};
    ghost use Rattle.tracked_links.specs.Heard.{StreamView};

    ghost Value = { StreamView L };

    ghost view = { λ t. record {
      stream = t.stream;
      hearing = option_map (λ hearing. box_value hearing) t.hearing;
    } };
}

impl<L> TrackedStream<L> {
    /// The stream of a connection whose parameters aren't tracked.
    pub fn untracked(stream: L) -> TrackedStream<L>
        ensures { result ≡ record { stream = stream; hearing = None } }
    {
        TrackedStream {
            stream,
            hearing: None,
        }
    }
}

impl<L: Drop> TrackedStream<L> {
    /// The stream of a connection of which nothing was read. It takes the memory here that reading
    /// needs, but for the values that the server reports. Without memory the stream is dropped.
    pub fn new(
        alloc: Global,
        stream: L,
        names: Arc<TrackedNames, Global>,
    ) -> Result<TrackedStream<L>, AllocError>
        ensures stream { IfOk result (λ tracked. tracked.stream ≡ stream) }
        ensures hearing { IfOk result (λ tracked. IsNew (arc_value names) tracked.hearing) }
    {
        let hearing = Hearing::new(alloc, names)?;
        Ok(TrackedStream {
            stream,
            hearing: Some(Box::new(alloc, hearing)?),
        })
    }
}

impl<L> TrackedStream<L> {
    /// The stream inside, to be looked at.
    pub fn stream(&self) -> &L
        ensures { result.now ≡ self.now.stream }
    {
        &self.stream
    }

    /// The names of the parameters that are tracked, if some are.
    pub fn names(&self) -> Option<&TrackedNames>
        ensures { option_map (λ names. names.now) result ≡ names_of self.now.hearing }
    {
        match &self.hearing {
            Some(hearing) => Some(hearing.names()),
            None => None,
        }
    }

    /// The last value that the server has reported of a parameter, if it is tracked and known.
    pub fn value_of(&self, name: &[u8]) -> Option<&[u8]>
        ensures { option_map (λ value. value.now) result ≡ heard_value self.now.hearing name.now }
    {
        match &self.hearing {
            Some(hearing) => hearing.value_of(name),
            None => None,
        }
    }

    /// What the server has reported, if its parameters are tracked.
    pub fn server_values(&self) -> Option<&ServerValues>
        ensures values { option_map (λ values. values.now) result ≡ values_of self.now.hearing }
        ensures fit { FitsNames self.now.hearing }
    {
        match &self.hearing {
            Some(hearing) => Some(hearing.server()),
            None => None,
        }
    }

    /// The login at the server has ended, at the first ReadyForQuery: the values so far are those of
    /// the login.
    pub fn login_done(&mut self, alloc: Global) -> Result<(), AllocError>
        ensures ok { OnOk result (EndsLogin self.old.hearing self.new.hearing) }
        ensures err { OnErr result (self.new.hearing ≡ self.old.hearing) }
        ensures stream { self.new.stream ≡ self.old.stream }
    {
        match &mut self.hearing {
            Some(hearing) => hearing.login_done(alloc),
            None => Ok(()),
        }
    }

    // Hears what a read with this result gave, which left this in its buffer.
    #[inline(always)]
    fn hear(&mut self, buffer: &[u8], given: &io::Result<usize>)
        requires { ReadsAtMost given.now buffer.now }
        ensures heard { HearsBytes self.old.hearing (bytes_given buffer.now given.now)
            self.new.hearing }
        ensures stream { self.new.stream ≡ self.old.stream }
    {
        if let Some(hearing) = &mut self.hearing {
            hearing.hear(bytes_given(buffer, given));
        }
    }
}

impl<L: WriteCalls> WriteCalls for TrackedStream<L> {
    ghost use Rattle.tracked_links.specs.Heard.{WritesInside};

    ghost wrote = { WritesInside L.wrote };

    #[inline(always)]
    fn write_once(&mut self, bytes: &[u8]) -> io::Result<usize> {
        self.stream.write_once(bytes)
    }
}

impl<L: ReadCalls> ReadCalls for TrackedStream<L> {
    ghost use Rattle.tracked_links.specs.Heard.{ReadsInside};

    ghost gave = { ReadsInside L.gave };

    #[inline(always)]
    fn read_once(&mut self, buffer: &mut [u8]) -> io::Result<usize> {
        let given = self.stream.read_once(buffer);
        self.hear(buffer, &given);
        given
    }
}

// The bytes that a read with this result gave.
#[inline]
fn bytes_given<'a>(buffer: &'a [u8], given: &io::Result<usize>) -> &'a [u8]
    requires { ReadsAtMost given.now buffer.now }
    ensures { result.now ≡ bytes_given buffer.now given.now }
{
    let count = match given {
        Ok(count) => *count,
        Err(_) => 0,
    };
    buffer.split_at(count).0
}
