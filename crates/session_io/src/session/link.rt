//! A link to a server.
ghost use Rattle.std.specs.Prelude.{◌≡◌, None, Some, IfSome, IsTrue, drop};
ghost use Rattle.byteorder.specs.Endian.{big_number};
ghost use Rattle.pg_frames.specs.FrameText.{fault_at};
ghost use Rattle.pg_frames.specs.declared.error.FrameError.TheVariants.{TooLong};
ghost use Rattle.pg_frames.specs.Passage.{start};

use crate::session::above::next_above;
use crate::session::channel::Channel;
use pg_frames::MessageLimit;
use std::marker::Model;

/// A link to a server. `log_in` makes it, and from then on `stay` alone writes to it and reads from
/// it: what was read and isn't passed on stays with it. In contracts it is a `LinkView`: its
/// stream, and those bytes.
#[derive(Drop)]
pub struct Link<L> {
    pub(crate) channel: Channel<L>,
}

impl<L> Model for Link<L> {
    ghost use Rattle.session_io.specs.LinkView.{LinkView};

    ghost Value = { LinkView L };

    ghost view = { λ link. record {
      stream = link.channel.stream;
      flow = link.channel.flow;
    } };
}

impl<L> Link<L> {
    /// Its stream, to be looked at.
    pub fn stream(&self) -> &L
        ensures { result.now ≡ self.now.stream }
    {
        &self.channel.stream
    }

    /// The limit of a message.
    pub fn limit(&self) -> MessageLimit
        ensures { result ≡ self.now.flow.limit }
    {
        self.channel.flow.limit()
    }

    /// The length field of the server's next message, if it is above the limit and stands at the
    /// front of what was read: behind a part of another message it isn't looked for.
    pub fn next_above(&mut self) -> Option<usize>
        ensures found { IfSome result (λ length. (self.old.flow.left ≡ None)
            × (fault_at self.old.flow.limit self.old.flow.bytes ≡ Some TooLong)
            × (length ≡ big_number 4 (drop 1 self.old.flow.bytes))) }
        ensures stream { self.new.stream ≡ self.old.stream }
    {
        next_above(&mut self.channel.flow)
    }

    /// Whether it is as a new one whose messages have this limit: all that was read of it was
    /// passed on.
    pub fn is_at_start(&self, limit: MessageLimit) -> bool
        ensures { IsTrue result → self.now.flow ≡ start limit }
    {
        self.channel.flow.is_at_start() && self.channel.flow.limit() == limit
    }
}
