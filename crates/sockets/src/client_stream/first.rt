//! The first packets of a connection.
ghost use Rattle.std.specs.Io.{ReadsAtMost};

use super::{ClientStream, LastCall, Serves, Stage};
use crate::poll::wait_readable;
use crate::{Deadline, Machine, Unserved, UnservedEnd};
use peer_forward::{Arrival, Asks, Requester};
use startup::StartupError;
use std::io;
use std::io::{ErrorKind, Read};
use telemetry::Event;

impl<'a, M: Machine> ClientStream<'a, M> {
    // Reads the first packets. It isn't inlined, so that reads of the session take less stack.
    #[inline(never)]
    pub(super) fn read_first(&mut self, deadline: Deadline, buffer: &mut [u8]) -> io::Result<usize>
        ensures bound { ReadsAtMost result buffer.new }
    {
        self.await_first(deadline)?;
        let mut socket = self.connection.socket();
        let read = socket.read(buffer);
        match &read {
            Ok(count @ 1..) => self.keep(buffer.get(..*count).unwrap_or(&[])),
            _ => self.end_unserved(Unserved::Left),
        }
        read
    }

    // Looks at the bytes that come next, and leaves them unread in the socket: if this process ends
    // before they are taken, the connection is reset instead of closed cleanly.
    #[inline(never)]
    fn peek_first(&mut self, buffer: &mut [u8]) -> io::Result<usize>
        ensures bound { ReadsAtMost result buffer.new }
    {
        if let Stage::First(deadline) = self.stage {
            self.await_first(deadline)?;
        }
        let peeked = self.connection.socket().peek(buffer);
        if !matches!(&peeked, Ok(1..)) {
            self.end_unserved(Unserved::Left);
        }
        peeked
    }

    // Waits until more of the first packets can be read. Fails at their deadline.
    #[inline(never)]
    fn await_first(&mut self, deadline: Deadline) -> io::Result<()> {
        if let Ok(left) = deadline.left(self.machine) {
            if wait_readable(self.connection.descriptor(), left) {
                return Ok(());
            }
        }
        let why = match self.context.serves {
            Serves::All => Unserved::Late,
            Serves::Cancels => Unserved::Shortage,
        };
        self.end_unserved(why);
        Err(io::Error::from(ErrorKind::TimedOut))
    }

    // Keeps what was read of a packet, if the log needs it. After a write another packet begins.
    fn keep(&mut self, bytes: &[u8]) {
        if self.context.log.has(Event::ParametersDropped) {
            if self.is_idle {
                self.packet = Vec::new(self.alloc);
            }
            let _ = self.packet.extend_from_slice(bytes);
        }
    }

    // Begins a session, whose StartupMessage was read. Returns false if it isn't served.
    fn admit_session(&mut self, asks: Asks) -> bool {
        self.has_startup = true;
        match self.decide(asks) {
            Ok(()) => {
                self.keep_packet();
                true
            }
            Err(why) => {
                self.end_unserved(why);
                false
            }
        }
    }

    // Begins to serve a cancel request. It is given up if the connection was evicted.
    fn admit_cancel(&mut self) -> bool {
        self.stage = Stage::Session;
        self.connection.receive_cancel(self.machine);
        let is_admitted = self.decide(Asks::Cancel).is_ok();
        if !is_admitted {
            self.give_up();
        }
        is_admitted
    }

    // Records that the first packets aren't served for this reason, unless the connection was evicted
    // before. To a read, an eviction looks as if the client had left.
    fn end_unserved(&mut self, why: Unserved) {
        let is_evicted = !self.activate();
        self.unserved = Some(if why == Unserved::Left && !is_evicted {
            Unserved::Left
        } else if self.context.limit.is_draining() {
            Unserved::Draining
        } else if is_evicted {
            Unserved::Evicted
        } else {
            why
        });
    }

    // Logs that the first packets are refused for this reason, if the client gets an error for it,
    // which is written next.
    fn expect_error(&mut self, error: StartupError) {
        if let Some(code) = error.error_code() {
            self.write_refused(code);
            self.is_refused = true;
            self.last = LastCall::Read;
        }
    }

    /// Ends the connection, which isn't served for this reason. Logs that, unless the client has left
    /// or the group drains, or a refusal was logged for which there was no memory.
    #[inline(never)]
    pub fn dismiss(&self, why: Unserved) {
        let end = UnservedEnd::of(why, self.has_startup);
        let error = end.error(self.alloc);
        if !self.is_refused {
            if let Some(reason) = why.reason() {
                let code = if error.is_some() { end.code() } else { None };
                self.write_unserved(reason, code);
            }
        }
        end.apply(self.connection.socket(), error);
    }
}

impl<'a, M: Machine> Arrival for ClientStream<'a, M> {
    ghost use Rattle.std.specs.Prelude.{⊤};

    ghost admitted = { λ _ _ _ _. ⊤ };

    ghost refused = { λ _ _ _ _. ⊤ };

    fn admits(&mut self, asks: Asks) -> bool {
        match asks {
            Asks::Session | Asks::Console => self.admit_session(asks),
            Asks::Cancel => self.admit_cancel(),
        }
    }

    fn refuse(&mut self, error: StartupError) -> bool {
        let is_told = match error {
            // A whole StartupMessage was read: without a place its client isn't told what is wrong.
            StartupError::BadText | StartupError::NoUser => self.admit_session(Asks::Session),
            // The read that found the end has noted why, and without memory there was no place.
            StartupError::Truncated | StartupError::Memory | StartupError::Repeated => true,
            StartupError::TooShort
            | StartupError::TooLong
            | StartupError::BadVersion
            | StartupError::BadCancelLength => {
                self.unserved = Some(Unserved::Refused);
                true
            }
        };
        if is_told {
            self.expect_error(error);
        }
        is_told
    }
}

impl<'a, M: Machine> Requester for ClientStream<'a, M> {
    ghost use Rattle.std.specs.Prelude.{◌≡◌, ⊤, true};

    ghost saw = { λ _ _ _ _. ⊤ };

    ghost takes = { λ _ _. ⊤ };

    // `end` resets it then.
    ghost resets = { λ _ new. new.is_given_up ≡ true };

    fn peek_once(&mut self, buffer: &mut [u8]) -> io::Result<usize> {
        self.peek_first(buffer)
    }

    fn take_seen(&mut self) {
        let mut socket = self.connection.socket();
        let _ = socket.read(&mut [0]);
    }

    fn give_up(&mut self) {
        self.is_given_up = true;
    }
}
