//! Accepts the connections of a listener and serves them.
use crate::Serving;
use crate::limits::{ALONE_MILLIS, EVICTION_AGE_MILLIS, FIRST_PACKETS_MILLIS};
use libc::net as c;
use node_threads::{Calling, Front};
use sockets::{
    AcceptThreads, ClientStream, Connection, ConnectionContext, ConnectionLimit, Deadline, Host,
    LinkStream, Machine, PendingId, Serves, end, keep_alive, refuse_accepted,
};
use std::alloc::{AllocError, Global};
use std::io::ErrorKind;
use std::net::{TcpListener, TcpStream};
use std::os::fd::AsRawFd;
use std::sync::{Arc, Mutex};
use std::time::Duration;
use std::{io, thread};
use telemetry::{Event, Log, Value};

// How many milliseconds pass after an error until accepting a connection or starting a thread is
// tried again. Without a pause it would fail again at once if no descriptor or thread is left.
const RETRY_MILLIS: u64 = 10;

// The stack size of a thread that serves connections.
const STACK: usize = 1 << 20;

/// A listener, and the nodes that serve its connections in turn. The thread that accepts a
/// connection serves it, and then waits for the next one: so no thread is started for each
/// connection, and none has to wake another.
#[derive(Drop)]
pub struct Acceptor<M: Machine> {
    listener: TcpListener,
    nodes: Vec<Arc<Serving<M>, Global>>,
    front: Mutex<Front>,
    limit: Arc<ConnectionLimit, Global>,
    log: Arc<Log, Global>,
    threads: AcceptThreads,
}

// What a connection is served with.
#[derive(Drop)]
struct Prepared<M: Machine> {
    calling: Box<Calling<LinkStream<M>>>,
    // Whether a session is served, or only a cancel request.
    serves: Serves,
    // The deadline of its first packets.
    deadline: Deadline,
}

impl<M: Machine> Acceptor<M> {
    /// Returns an acceptor without threads.
    pub fn new(
        listener: TcpListener,
        nodes: Vec<Arc<Serving<M>, Global>>,
        limit: Arc<ConnectionLimit, Global>,
        log: Arc<Log, Global>,
    ) -> Acceptor<M> {
        let front = Mutex::new(Front::new(nodes.len().max(1)));
        Acceptor {
            listener,
            nodes,
            front,
            limit,
            log,
            threads: AcceptThreads::new(),
        }
    }

    /// Stops accepting connections: later ones are refused.
    pub fn close(&self) {
        self.threads.shut_down();
        c::shutdown(self.listener.as_raw_fd(), c::SHUT_RD);
    }

    // Waits for the next connection. Returns none after an error, which is logged.
    #[inline(never)]
    fn next(&self, host: &M) -> Option<TcpStream> {
        match self.listener.accept() {
            Ok((socket, _)) => Some(socket),
            Err(_) if self.threads.is_shut_down() => None,
            Err(error) => {
                self.write_error(host, Event::AcceptFailed, &error);
                self.limit.evict(host, EVICTION_AGE_MILLIS);
                thread::sleep(host, Duration::from_millis(RETRY_MILLIS));
                None
            }
        }
    }

    // Serves a connection to its end, or closes it. If no other thread waits for connections
    // meanwhile, only a cancel request is served.
    fn serve(&self, host: &M, alloc: Global, socket: TcpStream) {
        let place = self.front.lock(host).deal();
        let serves = if self.threads.stop_waiting(host) {
            Serves::All
        } else {
            Serves::Cancels
        };
        let Some(node) = self.nodes.get(place) else {
            refuse_accepted(alloc, &socket);
            return;
        };
        let Some(pending) = self.limit.admit(host, socket.as_raw_fd()) else {
            self.refuse_excess(host, alloc, &socket);
            return;
        };
        let connection = Connection::metered(socket, node.meter());
        let pending = match self.prepare(host, alloc, node, &connection, serves) {
            Some(prepared) => {
                self.serve_prepared(host, alloc, node, &connection, pending, prepared)
            }
            None => pending,
        };
        self.limit.closing(host, pending);
        drop(connection);
        self.limit.closed(host);
    }

    // Refuses a connection above the limit.
    #[inline(never)]
    fn refuse_excess(&self, host: &M, alloc: Global, socket: &TcpStream) {
        let error = io::Error::new(ErrorKind::QuotaExceeded, "too many connections");
        self.refuse(host, alloc, socket, &error);
    }

    // Returns what an admitted connection is served with. If no caller of the node can be made, only
    // a cancel request is served. On an error the connection is refused, and nothing was read. It
    // isn't inlined, so that a connection's stack has no room for errors.
    #[inline(never)]
    fn prepare(
        &self,
        host: &M,
        alloc: Global,
        node: &Serving<M>,
        connection: &Connection,
        serves: Serves,
    ) -> Option<Prepared<M>> {
        match self.try_prepare(host, alloc, node, connection, serves) {
            Ok(prepared) => Some(prepared),
            Err(error) => {
                self.refuse(host, alloc, connection.socket(), &error);
                None
            }
        }
    }

    fn try_prepare(
        &self,
        host: &M,
        alloc: Global,
        node: &Serving<M>,
        connection: &Connection,
        serves: Serves,
    ) -> io::Result<Prepared<M>> {
        connection.socket().set_nodelay(true)?;
        keep_alive(connection.descriptor());
        let (calling, serves) = match node.take(host, alloc) {
            Some(calling) => (calling, serves),
            None => {
                let reserved = node.take_reserved(host).ok_or(io::Error::from(AllocError))?;
                (reserved, Serves::Cancels)
            }
        };
        // On an error the caller is given back: dropping it here would need stack space for its
        // totals in each connection's thread.
        match Deadline::after(host, first_packets_millis(serves)) {
            Ok(deadline) => Ok(Prepared {
                calling,
                serves,
                deadline,
            }),
            Err(error) => {
                node.give_back(host, calling);
                Err(error)
            }
        }
    }

    // Serves a connection to its end. Returns what identifies it at the limit then.
    fn serve_prepared(
        &self,
        host: &M,
        alloc: Global,
        node: &Serving<M>,
        connection: &Connection,
        pending: PendingId,
        prepared: Prepared<M>,
    ) -> PendingId {
        let Prepared {
            calling,
            serves,
            deadline,
        } = prepared;
        let context = ConnectionContext {
            limit: &self.limit,
            pending,
            consoles: node.consoles(),
            serves,
            deadline,
            log: &self.log,
            node: node.number(),
        };
        let mut client = ClientStream::new(host, alloc, connection, context);
        node.serve(host, alloc, calling, connection, &mut client);
        end(host, connection, &mut client);
        client.leave();
        client.pending()
    }

    // Ends a connection that isn't served, and logs why.
    fn refuse(&self, host: &M, alloc: Global, socket: &TcpStream, error: &io::Error) {
        refuse_accepted(alloc, socket);
        self.write_error(host, Event::ServeFailed, error);
    }

    // Logs an error.
    fn write_error(&self, host: &M, event: Event, error: &io::Error) {
        self.log
            .write(host, None, event, &[("error", Value::Error(error))]);
    }
}

// Returns the time limit for the first packets of a connection.
fn first_packets_millis(serves: Serves) -> u64 {
    match serves {
        Serves::All => FIRST_PACKETS_MILLIS,
        Serves::Cancels => ALONE_MILLIS,
    }
}

/// Starts threads that wait for connections, whenever too few wait. Returns when the acceptor is
/// closed.
pub fn keep_accepting<H: Host>(host: &H, alloc: Global, acceptor: &Arc<Acceptor<H>, Global>) {
    for _ in host.forever() {
        if !acceptor.threads.wait_until_needed(host) {
            return;
        }
        for node in &acceptor.nodes {
            node.stock(host, alloc, acceptor.threads.min_waiting());
        }
        if let Err(error) = start(host, alloc, acceptor) {
            acceptor.write_error(host, Event::ThreadFailed, &error);
            acceptor.limit.evict(host, EVICTION_AGE_MILLIS);
            thread::sleep(host, Duration::from_millis(RETRY_MILLIS));
        }
    }
}

// Starts a thread that waits for connections.
fn start<H: Host>(host: &H, alloc: Global, acceptor: &Arc<Acceptor<H>, Global>) -> io::Result<()> {
    let own = *host;
    let theirs = Arc::try_clone(acceptor).map_err(io::Error::from)?;
    acceptor.threads.begin_start();
    let started = thread::Builder::new()
        .stack_size(STACK)
        .spawn(host, move || accept(&own, alloc, &theirs));
    match started {
        Ok(_) => Ok(()),
        Err(error) => {
            acceptor.threads.fail_start();
            Err(error)
        }
    }
}

// Accepts connections and serves each to its end. Returns when enough other threads wait, or when
// the acceptor is closed.
fn accept<M: Machine>(host: &M, alloc: Global, acceptor: &Acceptor<M>) {
    acceptor.threads.finish_start();
    for _ in host.forever() {
        match acceptor.next(host) {
            Some(socket) => {
                acceptor.serve(host, alloc, socket);
                if !acceptor.threads.resume_waiting() {
                    return;
                }
            }
            None if acceptor.threads.is_shut_down() => return,
            None => {}
        }
    }
}
