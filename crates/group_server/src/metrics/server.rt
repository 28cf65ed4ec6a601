//! The metrics port, over HTTP. Few connections are served at a time, each for a short time, and
//! pages are cached for a second: so slow or frequent readers don't slow down the group. If as
//! many are served as there may be, the oldest of which no request was received is closed.
use crate::Serving;
use crate::limits::{METRICS_AGE_MILLIS, METRICS_MILLIS, METRICS_READERS, METRICS_REQUEST_MILLIS};
use crate::metrics::cache::{Cache, Page};
use crate::metrics::making::{Maker, Sources};
use sockets::{Capacity, ConnectionLimit, Deadline, Host, Machine, PendingId, wait_readable};
use std::alloc::{AllocError, Global};
use std::io::{ErrorKind, Read, Write};
use std::net::{Shutdown, TcpListener, TcpStream};
use std::os::fd::AsRawFd;
use std::sync::Arc;
use std::time::Duration;
use std::{io, thread};
use telemetry::{Answer, Form, Resource, answer_to};

// How many milliseconds pass after an error until accepting is tried again.
const RETRY_MILLIS: u64 = 10;

// The maximum length of a request's head, in bytes.
const MOST_BYTES: usize = 8_192;

/// Serves the metrics of a group at a listener.
#[derive(Drop)]
pub struct Exporter<M: Machine> {
    listener: TcpListener,
    maker: Maker<M>,
    cache: Cache,
    // The connections. One is pending until its request was received.
    readers: ConnectionLimit,
}

// One thread waits for the next connection, for which another one is evicted.
const READERS: Capacity = Capacity {
    connections: METRICS_READERS - 1,
    pending: METRICS_READERS - 1,
    kept: 0,
};

impl<M: Machine> Exporter<M> {
    /// Returns an exporter without cached pages.
    pub fn new(
        alloc: Global,
        listener: TcpListener,
        version: String,
        nodes: Vec<Arc<Serving<M>, Global>>,
        sources: Sources,
    ) -> Exporter<M> {
        Exporter {
            listener,
            maker: Maker::new(version, nodes, sources),
            cache: Cache::new(),
            readers: ConnectionLimit::new(alloc, READERS),
        }
    }

    // Returns the cached page, or makes it if it is too old.
    fn page(
        &self,
        machine: &M,
        alloc: Global,
        resource: Resource,
    ) -> Result<Arc<Vec<u8>, Global>, AllocError> {
        let now = machine.monotonic().map_err(|_| AllocError)?;
        let mut last = self.cache.last(resource).lock(machine);
        if let Some(page) = &*last {
            if now.saturating_sub(page.made) < Duration::from_millis(METRICS_AGE_MILLIS) {
                return Arc::try_clone(&page.text).map_err(|_| AllocError);
            }
        }
        let text = Arc::new(alloc, self.maker.make(machine, alloc, resource)?)?;
        let theirs = Arc::try_clone(&text).map_err(|_| AllocError)?;
        *last = Some(Page { made: now, text });
        Ok(theirs)
    }

    // Serves a connection, and closes it. Until its request was received it may be evicted for
    // another.
    fn serve(&self, machine: &M, alloc: Global, socket: TcpStream) {
        let Some(pending) = self.readers.admit(machine, socket.as_raw_fd()) else {
            // All others are being answered.
            let _ = self.answer(machine, alloc, &socket, None);
            return;
        };
        let _ = self.answer(machine, alloc, &socket, Some(pending));
        self.readers.closing(machine, pending);
        drop(socket);
        self.readers.closed(machine);
    }

    // Answers the request of a connection.
    fn answer(
        &self,
        machine: &M,
        alloc: Global,
        socket: &TcpStream,
        pending: Option<PendingId>,
    ) -> io::Result<()> {
        let deadline = Deadline::after(machine, METRICS_MILLIS)?;
        let answer = read_request(machine, socket)?;
        if let Some(pending) = pending {
            // One that was evicted after its request had come is answered all the same.
            let _ = self.readers.activate(machine, pending);
        }
        match answer {
            Answer::Whole(resource) => {
                self.serve_page(machine, alloc, socket, deadline, resource, true)
            }
            Answer::Head(resource) => {
                self.serve_page(machine, alloc, socket, deadline, resource, false)
            }
            refusal => write_response(machine, socket, deadline, refusal_text(refusal)),
        }
    }

    // Writes a response with the page, or only its head.
    fn serve_page(
        &self,
        machine: &M,
        alloc: Global,
        socket: &TcpStream,
        deadline: Deadline,
        resource: Resource,
        with_text: bool,
    ) -> io::Result<()> {
        let Ok(text) = self.page(machine, alloc, resource) else {
            return write_response(machine, socket, deadline, UNAVAILABLE);
        };
        let length = text.len();
        let content = type_of(resource);
        let head = format!(in alloc;
            "HTTP/1.1 200 OK\r\n\
            Content-Type: {content}\r\n\
            Content-Length: {length}\r\nConnection: close\r\n\r\n"
        )?;
        write_response(machine, socket, deadline, head.as_bytes())?;
        if with_text {
            write_response(machine, socket, deadline, text.as_slice())?;
        }
        socket.shutdown(Shutdown::Write)
    }
}

// Returns the type of a page (Prometheus manual, "Exposition formats"; RFC 8259).
fn type_of(resource: Resource) -> &'static str {
    match resource {
        Resource::Metrics => "text/plain; version=0.0.4; charset=utf-8",
        Resource::Clients(Form::Text) | Resource::Links(Form::Text) => {
            "text/plain; charset=utf-8"
        }
        Resource::Clients(Form::Json) | Resource::Links(Form::Json) => "application/json",
    }
}

// The response if the page can't be made.
const UNAVAILABLE: &[u8] =
    b"HTTP/1.1 503 Service Unavailable\r\nContent-Length: 0\r\nConnection: close\r\n\r\n";

// Returns the response to a request that is refused.
fn refusal_text(answer: Answer) -> &'static [u8] {
    match answer {
        Answer::NotFound => {
            b"HTTP/1.1 404 Not Found\r\nContent-Length: 0\r\nConnection: close\r\n\r\n"
        }
        Answer::NotAllowed => {
            b"HTTP/1.1 405 Method Not Allowed\r\nAllow: GET, HEAD\r\nContent-Length: 0\r\nConnection: close\r\n\r\n"
        }
        Answer::TooLarge => {
            b"HTTP/1.1 431 Request Header Fields Too Large\r\nContent-Length: 0\r\nConnection: close\r\n\r\n"
        }
        _ => b"HTTP/1.1 400 Bad Request\r\nContent-Length: 0\r\nConnection: close\r\n\r\n",
    }
}

// Reads the head of a request, and returns the answer to it. Fails if the time limit has passed.
fn read_request<M: Machine>(machine: &M, socket: &TcpStream) -> io::Result<Answer> {
    let deadline = Deadline::after(machine, METRICS_REQUEST_MILLIS)?;
    let mut buffer = [0; MOST_BYTES];
    let mut read = 0;
    for _ in 0..=MOST_BYTES {
        let Some(room) = buffer.get_mut(read..) else {
            return Ok(Answer::TooLarge);
        };
        if room.is_empty() {
            return Ok(Answer::TooLarge);
        }
        let count = read_some(machine, socket, deadline, room)?;
        read = read.saturating_add(count);
        let answer = answer_to(buffer.get(..read).unwrap_or(&[]));
        if answer != Answer::More {
            return Ok(answer);
        }
    }
    Ok(Answer::TooLarge)
}

// Reads once. Fails at the end of the input, or if the deadline has passed.
fn read_some<M: Machine>(
    machine: &M,
    socket: &TcpStream,
    deadline: Deadline,
    buffer: &mut [u8],
) -> io::Result<usize> {
    if !wait_readable(socket.as_raw_fd(), deadline.left(machine)?) {
        return Err(io::Error::from(ErrorKind::TimedOut));
    }
    let mut socket = socket;
    match socket.read(buffer)? {
        0 => Err(io::Error::from(ErrorKind::UnexpectedEof)),
        count => Ok(count),
    }
}

// Writes all these bytes. Fails if the deadline has passed.
fn write_response<M: Machine>(
    machine: &M,
    socket: &TcpStream,
    deadline: Deadline,
    bytes: &[u8],
) -> io::Result<()> {
    let mut rest = bytes;
    for _ in 0..=bytes.len() {
        if rest.is_empty() {
            return Ok(());
        }
        socket.set_write_timeout(Some(deadline.left(machine)?))?;
        let mut socket = socket;
        let count = socket.write(rest)?;
        rest = rest.get(count..).unwrap_or(&[]);
    }
    Err(io::Error::from(ErrorKind::WriteZero))
}

/// Serves the connections of a listener, one after the other. Errors aren't reported.
pub fn keep_exporting<H: Host>(host: &H, alloc: Global, exporter: &Exporter<H>) {
    for socket in exporter.listener.incoming() {
        match socket {
            Ok(socket) => exporter.serve(host, alloc, socket),
            Err(_) => thread::sleep(host, Duration::from_millis(RETRY_MILLIS)),
        }
    }
}
