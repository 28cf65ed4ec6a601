//! Whoever asked for a packet to be carried.
ghost use Rattle.std.specs.Prelude.{ℕ, List, Result};
ghost use Rattle.std.specs.Io.{ReadsAtMost};
ghost use Rattle.std.specs.declared.io.Error.{Error};

use std::io;

/// The connection that a cancel request came on. The last byte of the request is seen before it is
/// taken: a connection that ends with an unread byte is reset. It ends in one of two ways: `finish`
/// answers it with what became of the request, and takes that byte; or it is given up.
pub trait Requester {
    /// What a look that left this in its buffer, with this result, makes of the connection.
    ghost saw: { Self → List ℕ → Result ℕ Error → Self → Type 0 };

    /// What taking the byte that was seen makes of it.
    ghost takes: { Self → Self → Type 0 };

    /// What giving it up makes of it.
    ghost resets: { Self → Self → Type 0 };

    /// Waits for what comes next, and looks at it. It stays unread.
    fn peek_once(&mut self, buffer: &mut [u8]) -> io::Result<usize>
        ensures bound { ReadsAtMost result buffer.new }
        ensures call { saw self.old buffer.new result self.new };

    /// Takes the one byte that was seen.
    fn take_seen(&mut self)
        ensures taken { takes self.old self.new };

    /// Gives the connection up: nothing more is written, and it ends by a reset, so that its sender
    /// doesn't take the request for one that was settled.
    fn give_up(&mut self)
        ensures reset { resets self.old self.new };
}
