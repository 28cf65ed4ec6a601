//! Reads of a client in its session.
ghost use Rattle.std.specs.Io.{ReadsAtMost};

use super::{ClientStream, Stage};
use crate::error_kind::with_kind;
use crate::final_error::{final_error, shutdown_error};
use crate::limits::{CONSOLE_MILLIS, DRAIN_MESSAGE_MILLIS, POLL_MILLIS};
use crate::link_stream::is_pause;
use crate::poll::{is_ended, wait_either, wait_readable};
use crate::{Deadline, DrainSignal, Machine};
use std::io;
use std::io::{ErrorKind, Read};
use std::os::fd::RawFd;
use std::time::Duration;

impl<'a, M: Machine> ClientStream<'a, M> {
    // Reads the client's session.
    pub(super) fn read_session(&mut self, buffer: &mut [u8]) -> io::Result<usize>
        ensures bound { ReadsAtMost result buffer.new }
    {
        self.fail_if_draining()?;
        if self.looked_at_long_ago() {
            self.check_link()?;
        }
        if !self.has_timeout && self.needs_timeout() {
            let pause = Duration::from_millis(POLL_MILLIS);
            self.connection.socket().set_read_timeout(Some(pause))?;
            self.has_timeout = true;
        }
        self.read_socket(buffer)
    }

    // Reads the socket, and repeats that after timeouts.
    fn read_socket(&mut self, buffer: &mut [u8]) -> io::Result<usize>
        ensures bound { ReadsAtMost result buffer.new }
    {
        for _ in 0..u64::MAX {
            let mut socket = self.connection.socket();
            match socket.read(buffer) {
                Ok(count) => {
                    self.connection.meter().receive(count);
                    return Ok(count);
                }
                Err(error) if is_pause(&error) => self.check_link_and_drain()?,
                Err(error) => return Err(error),
            }
        }
        Err(io::Error::from(ErrorKind::TimedOut))
    }

    // Returns whether a read of the stream may begin with a read of the socket.
    #[inline(always)]
    pub(super) fn is_ready(&self) -> bool {
        matches!(self.stage, Stage::Session)
            && (self.has_timeout || !self.needs_timeout())
            && !self.needs_care()
    }

    // Returns whether something has to be looked at before the socket is read: whether the client's
    // link is open, if this isn't the first read of a request or of a part of one, since the client
    // may never complete it; or whether the session has to end, if the group drains.
    #[inline(always)]
    fn needs_care(&self) -> bool {
        if self.connection.link().is_some() {
            !self.is_idle
        } else {
            self.context.limit.is_draining()
        }
    }

    // Reads if `is_ready` is false.
    #[inline(never)]
    pub(super) fn read_slow(&mut self, buffer: &mut [u8]) -> Result<usize, ErrorKind>
        ensures bound { ReadsAtMost result buffer.new }
    {
        let room = buffer.len();
        let read = self.read_stage(buffer);
        if let Ok(count) = &read {
            // A first packet is read with as much room as it needs.
            self.is_sending = *count == room && matches!(self.stage, Stage::Session);
        }
        with_kind(read)
    }

    // Continues after a failed read of the socket.
    #[inline(never)]
    pub(super) fn read_after_error(
        &mut self,
        error: ErrorKind,
        buffer: &mut [u8],
    ) -> Result<usize, ErrorKind>
        ensures bound { ReadsAtMost result buffer.new }
    {
        let room = buffer.len();
        let read = self.read_again(error, buffer);
        if let Ok(count) = &read {
            self.is_sending = *count == room;
        }
        with_kind(read)
    }

    // Reads the socket again after a timeout. Fails with any other error.
    fn read_again(&mut self, error: ErrorKind, buffer: &mut [u8]) -> io::Result<usize>
        ensures bound { ReadsAtMost result buffer.new }
    {
        let error = io::Error::from(error);
        if !is_pause(&error) {
            return Err(error);
        }
        self.check_link_and_drain()?;
        self.read_socket(buffer)
    }

    // Returns whether something beside the client may end a read.
    fn needs_timeout(&self) -> bool {
        self.connection.link().is_some() || self.context.limit.drain_signal().is_some()
    }

    // Called when a read has timed out. Fails if the server has closed the client's link, and keeps
    // its final error; or if the group drains and the client is idle. If neither can happen, reads
    // have no timeout any more.
    fn check_link_and_drain(&mut self) -> io::Result<()> {
        match self.connection.link() {
            Some(_) => self.check_link(),
            None => match self.context.limit.drain_signal() {
                Some(signal) => self.wait_for_client(signal),
                None => {
                    self.has_timeout = false;
                    self.connection.socket().set_read_timeout(None)
                }
            },
        }
    }

    // Returns whether the client has a link that wasn't looked at for some time, and notes that it
    // is looked at now.
    fn looked_at_long_ago(&mut self) -> bool {
        if self.connection.link().is_none() || self.is_idle {
            return false;
        }
        let Ok(now) = self.machine.monotonic() else {
            return true;
        };
        let pause = Duration::from_millis(POLL_MILLIS);
        let is_recent = match self.looked {
            Some(at) => now.saturating_sub(at) < pause,
            None => false,
        };
        if !is_recent {
            self.looked = Some(now);
        }
        !is_recent
    }

    // Fails if the server has closed the client's link, and keeps its final error.
    fn check_link(&mut self) -> io::Result<()> {
        match self.connection.link() {
            Some(link) if is_ended(link) => {
                self.lose_link(link);
                Err(io::Error::from(ErrorKind::ConnectionAborted))
            }
            _ => Ok(()),
        }
    }

    // Fails if the server has closed the client's link. Its final error isn't kept: the client has
    // been written a part of a message.
    pub(super) fn look_at_link(&self) -> Result<(), ErrorKind> {
        match self.connection.link() {
            Some(link) if is_ended(link) => Err(ErrorKind::ConnectionAborted),
            _ => Ok(()),
        }
    }

    // Reads the session of a console, which ends after a minute of silence.
    #[inline(never)]
    pub(super) fn read_console(&mut self, buffer: &mut [u8]) -> io::Result<usize>
        ensures bound { ReadsAtMost result buffer.new }
    {
        let deadline = Deadline::after(self.machine, CONSOLE_MILLIS)?;
        for _ in 0..u64::MAX {
            self.fail_if_draining()?;
            if self.awaits_input(deadline.left(self.machine)?) {
                let mut socket = self.connection.socket();
                let count = socket.read(buffer)?;
                self.connection.meter().receive(count);
                return Ok(count);
            }
        }
        Err(io::Error::from(ErrorKind::TimedOut))
    }

    // Waits for input of the client for some time, at most for `left`, and not once the group
    // begins to drain. Returns whether there is some.
    fn awaits_input(&self, left: Duration) -> bool {
        let client = self.connection.descriptor();
        match self.context.limit.drain_signal() {
            Some(signal) if !signal.is_sent() => {
                wait_either(client, signal.descriptor(), Some(left));
                wait_readable(client, Duration::ZERO)
            }
            _ => wait_readable(client, left.min(Duration::from_millis(POLL_MILLIS))),
        }
    }

    // Keeps the final error of the client's link, which the server has closed. It isn't inlined, so
    // that a client that waits in a transaction takes no stack for the error's buffer.
    #[cold]
    #[inline(never)]
    fn lose_link(&mut self, link: RawFd) {
        self.final_error = final_error(self.alloc, link).ok();
        if let Some(error) = &self.final_error {
            self.write_lost(error.as_slice());
        }
    }

    // Waits for input of a client without a link. Fails if the group drains and the client is idle.
    fn wait_for_client(&mut self, signal: &DrainSignal) -> io::Result<()> {
        if !signal.is_sent() {
            wait_either(self.connection.descriptor(), signal.descriptor(), None);
        }
        self.fail_if_draining()
    }

    // Fails if the group drains, and the client is idle or takes too long. Keeps the final error.
    fn fail_if_draining(&mut self) -> io::Result<()> {
        if self.has_to_end() {
            self.keep_shutdown_error();
            return Err(io::Error::from(ErrorKind::ConnectionAborted));
        }
        Ok(())
    }

    // Keeps the error of a session that ends because the group drains.
    #[cold]
    #[inline(never)]
    fn keep_shutdown_error(&mut self) {
        self.final_error = shutdown_error(self.alloc).ok();
    }

    // Returns whether the group drains, and the client is idle: it has no link and has sent nothing
    // of a request. One that has begun a request has some seconds to complete it.
    fn has_to_end(&mut self) -> bool {
        if self.connection.link().is_some() || !self.context.limit.is_draining() {
            return false;
        }
        self.is_idle || self.took_too_long()
    }

    // Returns whether the client hasn't completed in time what it had begun when the group began to
    // drain.
    fn took_too_long(&mut self) -> bool {
        match self.drains_by {
            Some(deadline) => deadline.left(self.machine).is_err(),
            None => {
                self.drains_by = Deadline::after(self.machine, DRAIN_MESSAGE_MILLIS).ok();
                false
            }
        }
    }
}
