//! Writes to a client that doesn't read what is written.
ghost use Rattle.std.specs.Prelude.{◌≤◌, length};
ghost use Rattle.std.specs.Io.{WritesAtMost};

use super::{ClientStream, LastCall};
use crate::Machine;
use crate::link_stream::is_pause;
use std::io;
use std::io::{ErrorKind, Write};

impl<'a, M: Machine> ClientStream<'a, M> {
    // Continues after a write of which the socket took only this much in time.
    #[inline(never)]
    pub(super) fn write_after_part(
        &mut self,
        count: usize,
        bytes: &[u8],
    ) -> Result<usize, ErrorKind>
        requires { count ≤ length bytes.now }
        ensures bound { WritesAtMost result bytes.now }
    {
        if let Err(error) = self.look_at_link() {
            self.last = LastCall::Failed;
            return Err(error);
        }
        self.connection.meter().send(self.machine, count);
        self.last = LastCall::Wrote;
        Ok(count)
    }

    // Continues after a failed write: repeats it after timeouts, while the client's link is open.
    #[inline(never)]
    pub(super) fn write_after_error(
        &mut self,
        error: ErrorKind,
        bytes: &[u8],
    ) -> Result<usize, ErrorKind>
        ensures bound { WritesAtMost result bytes.now }
    {
        let mut error = error;
        for _ in 0..u64::MAX {
            if let Err(ended) = self.wait_on(error) {
                error = ended;
                break;
            }
            let mut socket = self.connection.socket();
            match socket.write(bytes) {
                Ok(count) => {
                    self.connection.meter().send(self.machine, count);
                    self.last = LastCall::Wrote;
                    return Ok(count);
                }
                Err(again) => error = again.kind(),
            }
        }
        self.last = LastCall::Failed;
        Err(error)
    }

    // Fails with this error of a write, unless the write is repeated: it has timed out, and the
    // client's session goes on.
    fn wait_on(&mut self, error: ErrorKind) -> Result<(), ErrorKind> {
        if self.is_ending || !is_pause(&io::Error::from(error)) {
            return Err(error);
        }
        self.look_at_link()
    }
}
