//! The stream of a link or of a connection for a cancel request.
ghost use Rattle.std.specs.Io.{ReadsAtMost, WritesAtMost};

use crate::error_kind::{Cause, with_error, with_kind};
use crate::inspector::Inspector;
use crate::keepalive::keep_alive;
use crate::limits::{POLL_MILLIS, REFUSAL_MILLIS, WRITE_MILLIS};
use crate::poll::{is_ended, is_quiet, wait_both};
use crate::{Deadline, Machine};
use bytes::BytesMut;
use pg_ids::DatabaseNo;
use std::alloc::Global;
use std::cell::Cell;
use std::io;
use std::io::{ErrorKind, Read, Write};
use std::net::{SocketAddr, TcpStream};
use std::os::fd::{AsRawFd, RawFd};
use std::sync::Arc;
use std::time::Duration;
use telemetry::LinkRow;

/// A connection to a server or a peer. A read fails at the deadline, if there is one, or when the
/// client of the link closes its connection. A write doesn't block for long: what the socket doesn't
/// accept is buffered, and is written while the reply is read. So a server that doesn't read while it
/// writes can't block a link for ever.
#[derive(Drop)]
pub struct LinkStream<M: Machine> {
    // Boxed, since a link is moved at each step of its node.
    inside: Box<Inside<M>>,
}

// The fields of a stream.
#[derive(Drop)]
struct Inside<M: Machine> {
    machine: M,
    alloc: Global,
    socket: TcpStream,
    deadline: Cell<Option<Deadline>>,
    // The socket of the client that has this link.
    client: Cell<Option<RawFd>>,
    // The address of the client that has or had this link last.
    last: Cell<Option<SocketAddr>>,
    // Buffered writes.
    unwritten: BytesMut,
    // Inspects what is received.
    inspector: Inspector,
    // The database of a link.
    database: Option<DatabaseNo>,
    // The row of a link, if there is one.
    row: Option<Arc<LinkRow, Global>>,
}

impl<M: Machine> LinkStream<M> {
    /// Returns a stream on this socket, with a deadline: of a link of this database, or for a cancel
    /// request.
    pub fn new(
        machine: M,
        alloc: Global,
        socket: TcpStream,
        deadline: Deadline,
        inspector: Inspector,
        database: Option<DatabaseNo>,
    ) -> io::Result<LinkStream<M>> {
        socket.set_nodelay(true)?;
        keep_alive(socket.as_raw_fd());
        socket.set_read_timeout(Some(Duration::from_millis(POLL_MILLIS)))?;
        socket.set_write_timeout(Some(Duration::from_millis(WRITE_MILLIS)))?;
        let inside = Inside {
            machine,
            alloc,
            socket,
            deadline: Cell::new(Some(deadline)),
            client: Cell::new(None),
            last: Cell::new(None),
            unwritten: BytesMut::new(alloc),
            inspector,
            database,
            row: None,
        };
        Ok(LinkStream {
            inside: Box::new(alloc, inside)?,
        })
    }

    /// Keeps its row, as long as it is open.
    pub fn keep_row(&mut self, row: Option<Arc<LinkRow, Global>>) {
        if let (Some(row), Ok(address)) = (&row, self.inside.socket.local_addr()) {
            row.connect(address.port());
        }
        self.inside.row = row;
    }

    /// Returns its row, if there is one.
    #[inline]
    pub fn row(&self) -> Option<&Arc<LinkRow, Global>> {
        self.inside.row.as_ref()
    }

    /// Returns whether the connection is open, no bytes are unread or unwritten, and the server reports
    /// no other value than clients get. Logs it otherwise.
    #[inline]
    pub fn is_quiet(&self) -> bool {
        let inside = &self.inside;
        let is_quiet = inside.unwritten.is_empty()
            && !inside.inspector.differs()
            && is_quiet(self.descriptor());
        if !is_quiet {
            inside.log_close();
        }
        is_quiet
    }

    /// Makes it the link of the client with this socket and this address, without a deadline.
    pub fn attach(&self, client: RawFd, address: Option<SocketAddr>) {
        self.inside.deadline.set(None);
        self.inside.client.set(Some(client));
        self.inside.last.set(address);
        self.inside.inspector.attach();
    }

    /// The server answers the login of this link with an error, which has begun to come. The rest is
    /// awaited for a short time, and from now on nothing of the stream is logged.
    pub fn begin_refusal(&self) {
        self.inside.begin_refusal();
    }

    /// Returns the database of a link.
    pub fn database(&self) -> Option<DatabaseNo> {
        self.inside.database
    }

    /// Returns the descriptor of its socket.
    pub fn descriptor(&self) -> RawFd {
        self.inside.socket.as_raw_fd()
    }
}

impl<M: Machine> Inside<M> {
    // Logs that the link is closed before it is used again.
    #[inline(never)]
    fn log_close(&self) {
        self.inspector.close(&self.machine, self.last.get());
    }

    // Awaits the rest of an error for a short time.
    fn begin_refusal(&self) {
        self.inspector.silence();
        let Ok(soon) = Deadline::after(&self.machine, REFUSAL_MILLIS) else {
            return;
        };
        let deadline = match self.deadline.get() {
            Some(login) => login.or_earlier(soon),
            None => soon,
        };
        self.deadline.set(Some(deadline));
    }

    // Fails if the deadline has passed.
    #[inline(never)]
    fn check_deadline(&self) -> io::Result<()> {
        if let Some(deadline) = self.deadline.get() {
            deadline.left(&self.machine)?;
        }
        Ok(())
    }

    // Fails if the client has closed its connection.
    fn check_client(&self) -> io::Result<()> {
        match self.client.get() {
            Some(client) if is_ended(client) => Err(io::Error::from(ErrorKind::ConnectionAborted)),
            _ => Ok(()),
        }
    }

    // Reads, and repeats that after timeouts.
    fn read(&mut self, buffer: &mut [u8]) -> io::Result<usize>
        ensures bound { ReadsAtMost result buffer.new }
    {
        for _ in 0..u64::MAX {
            self.check_deadline()?;
            match self.read_once(buffer) {
                Ok(count) => return Ok(count),
                Err(error) if is_pause(&error) => self.check_client()?,
                Err(error) => return Err(error),
            }
        }
        Err(io::Error::from(ErrorKind::TimedOut))
    }

    // Inspects the result of a read. Fails if the read failed, or if the login of a link has to fail.
    #[inline(never)]
    fn inspect(&mut self, buffer: &[u8], read: io::Result<usize>) -> io::Result<usize>
        requires { ReadsAtMost read buffer.now }
        ensures bound { ReadsAtMost result buffer.now }
    {
        match read {
            Ok(0) => {
                self.inspector.end(&self.machine);
                Ok(0)
            }
            Ok(count) => {
                let bytes = buffer.get(..count).unwrap_or(&[]);
                self.inspector.inspect(&self.machine, bytes)?;
                Ok(count)
            }
            Err(error) => {
                self.inspector.fail(&self.machine, &error);
                Err(error)
            }
        }
    }

    // Returns whether a read of the stream may begin with a read of the socket.
    #[inline(always)]
    fn is_plain(&self) -> bool {
        self.deadline.get().is_none()
            && self.unwritten.is_empty()
            && self.inspector.is_of_used_link()
    }

    // Reads, and inspects what is received.
    #[inline(never)]
    fn read_and_inspect(&mut self, buffer: &mut [u8]) -> Result<usize, ErrorKind>
        ensures bound { ReadsAtMost result buffer.new }
    {
        let read = self.read(buffer);
        with_kind(self.inspect(buffer, read))
    }

    // Continues after a failed read of the socket.
    #[inline(never)]
    fn read_after_error(&mut self, cause: Cause, buffer: &mut [u8]) -> Result<usize, ErrorKind>
        ensures bound { ReadsAtMost result buffer.new }
    {
        let read = self.read_again(cause.error(), buffer);
        with_kind(self.inspect(buffer, read))
    }

    // Reads the socket again after a timeout. Fails with any other error.
    fn read_again(&mut self, error: io::Error, buffer: &mut [u8]) -> io::Result<usize>
        ensures bound { ReadsAtMost result buffer.new }
    {
        if !is_pause(&error) {
            return Err(error);
        }
        self.check_client()?;
        self.read(buffer)
    }

    // Compares what the server of a link reports in received bytes with what clients get.
    #[inline(never)]
    fn watch(&mut self, buffer: &[u8], count: usize) {
        self.inspector.watch(buffer.get(..count).unwrap_or(&[]));
    }

    // Logs that the peer has closed the connection.
    #[inline(never)]
    fn log_end(&mut self) {
        self.inspector.end(&self.machine);
    }

    // Reads once.
    fn read_once(&mut self, buffer: &mut [u8]) -> io::Result<usize>
        ensures bound { ReadsAtMost result buffer.new }
    {
        if self.unwritten.is_empty() {
            self.socket.read(buffer)
        } else {
            self.read_or_write(buffer)
        }
    }

    // Reads, or writes some of the buffer, whichever can be done first. The end of the input is an
    // error here, since not all was written.
    #[inline(never)]
    fn read_or_write(&mut self, buffer: &mut [u8]) -> io::Result<usize>
        ensures bound { ReadsAtMost result buffer.new }
    {
        let ready = wait_both(self.socket.as_raw_fd(), self.client.get());
        if ready.client_ended {
            return Err(io::Error::from(ErrorKind::ConnectionAborted));
        }
        if ready.link_reads {
            return match self.socket.read(buffer) {
                Ok(0) => Err(io::Error::from(ErrorKind::UnexpectedEof)),
                done => done,
            };
        }
        if ready.link_writes {
            self.write_rest()?;
        }
        Err(io::Error::from(ErrorKind::WouldBlock))
    }

    // Writes some of the buffer, and frees it when it is empty.
    fn write_rest(&mut self) -> io::Result<()> {
        match self.socket.write(self.unwritten.as_slice()) {
            Ok(count) => self.unwritten.advance(count),
            Err(error) if is_pause(&error) => {}
            Err(error) => return Err(error),
        }
        if self.unwritten.is_empty() {
            self.unwritten = BytesMut::new(self.alloc);
            self.socket.set_nonblocking(false)?;
        }
        Ok(())
    }

    // Continues after a failed write to the socket: after a timeout the bytes are buffered.
    #[inline(never)]
    fn write_after_error(&mut self, cause: Cause, bytes: &[u8]) -> Result<usize, ErrorKind>
        ensures bound { WritesAtMost result bytes.now }
    {
        match self.begin_buffering(cause.error()) {
            Ok(()) => self.append(bytes),
            Err(error) => {
                self.inspector.fail(&self.machine, &error);
                Err(error.kind())
            }
        }
    }

    // Makes the socket nonblocking after a timeout. Fails with any other error.
    fn begin_buffering(&self, error: io::Error) -> io::Result<()> {
        if is_pause(&error) {
            self.socket.set_nonblocking(true)
        } else {
            Err(error)
        }
    }

    // Appends bytes to the buffer.
    #[inline(never)]
    fn append(&mut self, bytes: &[u8]) -> Result<usize, ErrorKind>
        ensures bound { WritesAtMost result bytes.now }
    {
        match self.unwritten.extend_from_slice(bytes) {
            Ok(()) => Ok(bytes.len()),
            Err(refused) => {
                let error = io::Error::from(refused);
                self.inspector.fail(&self.machine, &error);
                Err(error.kind())
            }
        }
    }
}

impl<M: Machine> Read for LinkStream<M> {
    #[inline(always)]
    fn read(&mut self, buffer: &mut [u8]) -> io::Result<usize> {
        let inside = &mut *self.inside;
        if !inside.is_plain() {
            return with_error(inside.read_and_inspect(buffer));
        }
        match inside.socket.read(buffer) {
            Ok(0) => {
                inside.log_end();
                Ok(0)
            }
            Ok(count) => {
                if inside.inspector.is_watching() {
                    inside.watch(buffer, count);
                }
                Ok(count)
            }
            Err(error) => with_error(inside.read_after_error(Cause::of(&error), buffer)),
        }
    }
}

impl<M: Machine> Write for LinkStream<M> {
    #[inline(always)]
    fn write(&mut self, bytes: &[u8]) -> io::Result<usize> {
        let inside = &mut *self.inside;
        if !inside.unwritten.is_empty() {
            return with_error(inside.append(bytes));
        }
        match inside.socket.write(bytes) {
            Ok(count) => Ok(count),
            Err(error) => with_error(inside.write_after_error(Cause::of(&error), bytes)),
        }
    }

    fn flush(&mut self) -> io::Result<()> {
        Ok(())
    }
}

/// Returns whether a call did nothing because it timed out or was interrupted.
pub fn is_pause(error: &io::Error) -> bool {
    matches!(error.kind(), ErrorKind::WouldBlock | ErrorKind::Interrupted)
}
