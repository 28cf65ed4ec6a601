//! The stream of a client's connection.
ghost use Rattle.std.specs.Io.{ReadsAtMost};

mod admitting;
mod first;
mod lines;
mod session;
mod writing;

use crate::connection_limit::ConnectionLimit;
use crate::connections::PendingId;
use crate::error_kind::with_error;
use crate::{Connection, Consoles, Deadline, Machine, Unserved};
use admitting::Counted;
use std::alloc::Global;
use std::io;
use std::io::{Read, Write};
use std::time::Duration;
use telemetry::Log;

/// What a connection is served with.
#[derive(Clone, Copy)]
pub struct ConnectionContext<'a> {
    /// The limit that admitted it.
    pub limit: &'a ConnectionLimit,
    /// Identifies it there.
    pub pending: PendingId,
    /// The sessions on the console of the node that serves it.
    pub consoles: &'a Consoles,
    /// Whether a session is served, or only a cancel request.
    pub serves: Serves,
    /// The deadline of its first packets.
    pub deadline: Deadline,
    /// The log.
    pub log: &'a Log,
    /// The number of the node that serves it.
    pub node: u16,
}

/// The stream of a client's connection. The first packets have a deadline. After that a read has no
/// time limit, but on the console that of its silence. It fails if the server closes the client's
/// link, or if the group drains while the client is idle, or doesn't complete in time what it has
/// begun. A write fails if the server closes the link while the client doesn't read.
#[derive(Drop)]
pub struct ClientStream<'a, M: Machine> {
    machine: &'a M,
    alloc: Global,
    connection: &'a Connection,
    context: ConnectionContext<'a>,
    stage: Stage,
    // Whether a whole StartupMessage was read.
    has_startup: bool,
    // What was read of the first packets since the last answer. Only kept if the log has lines about
    // parameters without effect.
    packet: Vec<u8>,
    // Why its first packets aren't served, if that is known.
    unserved: Option<Unserved>,
    // Whether its first packets were refused by an error, which is written next.
    is_refused: bool,
    // Whether reads of the socket have a timeout.
    has_timeout: bool,
    // The last call.
    last: LastCall,
    // Whether the call before the last was a successful write: then nothing of a request was read.
    is_idle: bool,
    // Whether the last read filled its buffer, so that more may follow.
    is_sending: bool,
    // Whether its cancel request got no order.
    is_given_up: bool,
    // What its session counts as.
    counted: Counted,
    // When its link was looked at last.
    looked: Option<Duration>,
    // By when the client has to complete what it has begun, once the group drains.
    drains_by: Option<Deadline>,
    // Whether its session has ended.
    is_ending: bool,
    // The error to write to the client once nothing is held for it any more.
    final_error: Option<Vec<u8>>,
}

/// Which connections are served.
#[derive(Clone, Copy, Debug, PartialEq, Eq)]
pub enum Serves {
    /// All.
    All,
    /// Cancel requests.
    Cancels,
}

// The stage of a connection.
#[derive(Clone, Copy)]
enum Stage {
    // Its first packets are read, with this deadline.
    First(Deadline),
    // Its session, or its cancel request, of which nothing more is read.
    Session,
    // Its session on the console.
    Console,
}

// The last call of a client's stream.
#[derive(Clone, Copy, Debug, PartialEq, Eq)]
enum LastCall {
    // A read, or none.
    Read,
    // A successful write.
    Wrote,
    // A write that failed.
    Failed,
}

impl<'a, M: Machine> ClientStream<'a, M> {
    /// Returns the stream of a connection of which nothing was read.
    pub fn new(
        machine: &'a M,
        alloc: Global,
        connection: &'a Connection,
        context: ConnectionContext<'a>,
    ) -> ClientStream<'a, M> {
        ClientStream {
            machine,
            alloc,
            connection,
            context,
            stage: Stage::First(context.deadline),
            has_startup: false,
            packet: Vec::new(alloc),
            unserved: None,
            is_refused: false,
            has_timeout: false,
            last: LastCall::Read,
            is_idle: false,
            is_sending: false,
            is_given_up: false,
            counted: Counted::Nothing,
            looked: None,
            drains_by: None,
            is_ending: false,
            final_error: None,
        }
    }

    // Reads according to the stage.
    fn read_stage(&mut self, buffer: &mut [u8]) -> io::Result<usize>
        ensures bound { ReadsAtMost result buffer.new }
    {
        match self.stage {
            Stage::First(deadline) => self.read_first(deadline, buffer),
            Stage::Session => self.read_session(buffer),
            Stage::Console => self.read_console(buffer),
        }
    }

    /// Returns why the connection isn't served, unless what its first packets ask for was admitted, an
    /// error was written, or a write failed.
    pub fn unserved(&self) -> Option<Unserved> {
        let is_first = matches!(self.stage, Stage::First(..));
        let has_error = self.is_refused && self.last == LastCall::Wrote;
        if !is_first || has_error || self.last == LastCall::Failed {
            return None;
        }
        // If the stream doesn't know why, there was no memory for the first packets.
        Some(self.unserved.unwrap_or(Unserved::Shortage))
    }

    /// Returns whether its cancel request got no order.
    pub fn is_given_up(&self) -> bool {
        self.is_given_up
    }

    /// Returns whether the last read filled its buffer, so that more may follow.
    pub fn is_sending(&self) -> bool {
        self.is_sending
    }

    /// Returns whether the last call was a successful write.
    pub fn wrote_last(&self) -> bool {
        self.last == LastCall::Wrote
    }

    /// Takes the error to write to the client once nothing is held for it any more. From then on a
    /// write waits only as long as its socket does.
    pub fn take_final_error(&mut self) -> Option<Vec<u8>> {
        self.is_ending = true;
        self.final_error.take()
    }

    /// Returns what identifies the connection at its limit.
    pub fn pending(&self) -> PendingId {
        self.context.pending
    }
}

impl<'a, M: Machine> Read for ClientStream<'a, M> {
    #[inline(always)]
    fn read(&mut self, buffer: &mut [u8]) -> io::Result<usize> {
        self.is_idle = self.last == LastCall::Wrote;
        self.last = LastCall::Read;
        if !self.is_ready() {
            return with_error(self.read_slow(buffer));
        }
        let room = buffer.len();
        let mut socket = self.connection.socket();
        match socket.read(buffer) {
            Ok(count) => {
                self.connection.meter().receive(count);
                self.is_sending = count == room;
                Ok(count)
            }
            Err(error) => with_error(self.read_after_error(error.kind(), buffer)),
        }
    }
}

impl<'a, M: Machine> Write for ClientStream<'a, M> {
    #[inline(always)]
    fn write(&mut self, bytes: &[u8]) -> io::Result<usize> {
        let mut socket = self.connection.socket();
        match socket.write(bytes) {
            Ok(count) if count == bytes.len() => {
                self.connection.meter().send(self.machine, count);
                self.last = LastCall::Wrote;
                Ok(count)
            }
            Ok(count) => with_error(self.write_after_part(count, bytes)),
            Err(error) => with_error(self.write_after_error(error.kind(), bytes)),
        }
    }

    fn flush(&mut self) -> io::Result<()> {
        Ok(())
    }
}
