//! A node whose sessions wait at a gate before they release their links, and whose log can be read.
use crate::group::ANY_PORT;
use crate::host::TestHost;
use crate::settings::group;
use group_server::{Dialer, MessageLimit};
use ini_config::Group;
use node_threads::{Calling, Context, Gate, NodePlace, Point, serve_connection};
use peer_forward::{Arrival, Asks, Requester};
use pg_ids::Boot;
use sockets::{Connection, LinkStream, Machine};
use startup::{Reports, StartupError};
use std::alloc::{AllocError, Global};
use std::io::{Read, Write};
use std::net::{TcpListener, TcpStream};
use std::sync::{Arc, Condvar, Mutex, Wait};
use std::test::Fail;
use std::{io, thread};
use telemetry::{Level, Log};

// A gate that is closed before a link is given back, until it is opened for all.
#[derive(Drop)]
pub(crate) struct Barrier {
    is_open: Mutex<bool>,
    opened: Condvar,
}

impl Barrier {
    const fn new(is_open: bool) -> Barrier {
        Barrier {
            is_open: Mutex::new(is_open),
            opened: Condvar::new(),
        }
    }

    pub(crate) fn open<R: Wait>(&self, rt: &R) {
        *self.is_open.lock(rt) = true;
        self.opened.notify_all();
    }
}

impl Gate for Barrier {
    fn pass<R: Wait>(&self, rt: &R, point: Point) {
        if point == Point::Ready {
            let is_open = self.is_open.lock(rt);
            let _is_open = self.opened.wait_while(rt, is_open, |is_open| !*is_open);
        }
    }
}

// What the connections of a node share.
#[derive(Drop)]
struct Node<M: Machine> {
    dialer: Dialer<M>,
    gate: Arc<Barrier, Global>,
    limit: MessageLimit,
}

// Starts node 1, alone, before the server at this port. Returns its port and its gate.
pub(crate) fn start_node<R: TestHost>(
    rt: &R,
    server: u16,
) -> Result<(u16, Arc<Barrier, Global>), Fail> {
    let gate = Arc::new(rt.alloc(), Barrier::new(false))?;
    let theirs = Arc::try_clone(&gate)?;
    let (port, _log) = start(rt, server, theirs, MessageLimit::DEFAULT)?;
    Ok((port, gate))
}

// Starts such a node with an open gate and this limit of a message. Returns its port and its log.
pub(crate) fn start_limited<R: TestHost>(
    rt: &R,
    server: u16,
    limit: MessageLimit,
) -> Result<(u16, Arc<Log, Global>), Fail> {
    let gate = Arc::new(rt.alloc(), Barrier::new(true))?;
    start(rt, server, gate, limit)
}

fn start<R: TestHost>(
    rt: &R,
    server: u16,
    gate: Arc<Barrier, Global>,
    limit: MessageLimit,
) -> Result<(u16, Arc<Log, Global>), Fail> {
    let listener = TcpListener::bind(rt, ANY_PORT)?;
    let port = listener.local_addr()?.port();
    let group = group(rt.alloc(), &[port], server, &[&[]])?;
    let (group, mut places) = NodePlace::of_group(rt.alloc(), group)?;
    let at = places.pop().ok_or("no node")?;
    let log = Arc::new(rt.alloc(), Log::new(rt.alloc(), Level::Info))?;
    let dialer = dialer_of(rt, &group, &log)?;
    let node = Node {
        dialer,
        gate,
        limit,
    };
    start_accepting(rt, at, Arc::new(rt.alloc(), node)?, listener)?;
    Ok((port, log))
}

fn dialer_of<R: TestHost>(
    rt: &R,
    group: &Arc<Group, Global>,
    log: &Arc<Log, Global>,
) -> Result<Dialer<R>, AllocError> {
    let reports = Arc::new(rt.alloc(), Reports::new(rt.alloc()))?;
    let (group, log) = (Arc::try_clone(group)?, Arc::try_clone(log)?);
    Ok(Dialer::new(*rt, rt.alloc(), group, 0, log, reports))
}

// Accepts connections in a thread apart.
fn start_accepting<R: TestHost>(
    rt: &R,
    at: NodePlace,
    node: Arc<Node<R>, Global>,
    listener: TcpListener,
) -> Result<(), Fail> {
    let first = Calling::new(rt.alloc(), at, [0; 32], Boot(0))?;
    let own = *rt;
    thread::spawn(rt, move || accept(&own, first, node, listener)).map_err(AllocError::from)?;
    Ok(())
}

fn accept<R: TestHost>(
    rt: &R,
    mut first: Calling<LinkStream<R>>,
    node: Arc<Node<R>, Global>,
    listener: TcpListener,
) {
    for stream in listener.incoming() {
        if let Ok(stream) = stream {
            let _ = start_serving(rt, &mut first, &node, stream);
        }
    }
}

// Serves a connection in its own thread.
fn start_serving<R: TestHost>(
    rt: &R,
    first: &mut Calling<LinkStream<R>>,
    node: &Arc<Node<R>, Global>,
    stream: TcpStream,
) -> Result<(), AllocError> {
    let Some(calling) = first.split() else {
        return Err(AllocError);
    };
    let node = Arc::try_clone(node)?;
    let own = *rt;
    thread::spawn(rt, move || serve(&own, calling, node, stream))?;
    Ok(())
}

// A client's connection.
#[derive(Drop)]
struct Client<'a, R: TestHost> {
    rt: &'a R,
    connection: &'a Connection,
}

impl<R: TestHost> Read for Client<'_, R> {
    fn read(&mut self, buffer: &mut [u8]) -> io::Result<usize> {
        let mut socket = self.connection.socket();
        socket.read(buffer)
    }
}

impl<R: TestHost> Write for Client<'_, R> {
    fn write(&mut self, bytes: &[u8]) -> io::Result<usize> {
        let mut socket = self.connection.socket();
        socket.write(bytes)
    }

    fn flush(&mut self) -> io::Result<()> {
        Ok(())
    }
}

impl<R: TestHost> Requester for Client<'_, R> {
    ghost use Rattle.std.specs.Prelude.{⊤};

    ghost saw = { λ _ _ _ _. ⊤ };

    ghost takes = { λ _ _. ⊤ };

    ghost resets = { λ _ _. ⊤ };

    fn peek_once(&mut self, buffer: &mut [u8]) -> io::Result<usize> {
        self.connection.socket().peek(buffer)
    }

    fn take_seen(&mut self) {
        let mut socket = self.connection.socket();
        let _ = socket.read(&mut [0]);
    }

    fn give_up(&mut self) {}
}

impl<R: TestHost> Arrival for Client<'_, R> {
    ghost use Rattle.std.specs.Prelude.{⊤};

    ghost admitted = { λ _ _ _ _. ⊤ };

    ghost refused = { λ _ _ _ _. ⊤ };

    fn admits(&mut self, asks: Asks) -> bool {
        if asks == Asks::Cancel {
            self.connection.receive_cancel(self.rt);
        }
        true
    }

    fn refuse(&mut self, _error: StartupError) -> bool {
        true
    }
}

fn serve<R: TestHost>(
    rt: &R,
    mut calling: Calling<LinkStream<R>>,
    node: Arc<Node<R>, Global>,
    socket: TcpStream,
) {
    let connection = Connection::new(socket);
    let opener = node.dialer.on_behalf(&connection);
    let mut client = Client {
        rt,
        connection: &connection,
    };
    let context = Context {
        rt,
        gate: &*node.gate,
    };
    serve_connection(
        context,
        rt.alloc(),
        &mut calling,
        &opener,
        node.dialer.reports(),
        &node.limit,
        &mut client,
    );
}
