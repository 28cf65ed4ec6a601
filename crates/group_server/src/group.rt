//! A group whose addresses are bound.
ghost use Rattle.std.specs.Prelude.{◌≡◌, ◌<◌, ◌*◌, ◌^◌, length, slice_get, IfOk};
ghost use Rattle.std.specs.Option.{ForSome};
ghost use Rattle.std.specs.Arc.{arc_value};
ghost use Rattle.node_core.specs.View.{IsFresh};
ghost use Rattle.node_threads.specs.Secrets.{drawing_of};

use crate::accepting::{Acceptor, keep_accepting};
use crate::draining::{drain, wait_for_end, write_end};
use crate::limits::{BACKLOG, METRICS_READERS};
use crate::metrics::{Exporter, Sources, keep_exporting};
use crate::options::{ServeOptions, copy_of, own_descriptors, write_start};
use crate::{Dialer, ServeError, Serving, Unbound};
use ini_config::Group;
use libc::net as c;
use node_threads::{Calling, NodePlace};
use pg_ids::Boot;
use sockets::{Capacity, ConnectionLimit, DrainSignal, Host, Needs, descriptor_limit};
use std::alloc::{AllocError, Global};
use std::io::{Read, Write};
use std::net::TcpListener;
use std::os::fd::AsRawFd;
use std::sync::Arc;
use std::thread;
use telemetry::{Counters, Log};

/// A group whose addresses are bound: one for the group, and one of each node.
#[derive(Drop)]
pub struct Listening<H: Host> {
    front: TcpListener,
    nodes: Vec<ListeningNode<H>>,
    limit: Arc<ConnectionLimit, Global>,
    log: Arc<Log, Global>,
    metrics: Option<Arc<Exporter<H>, Global>>,
}

// The listeners of a group.
#[derive(Drop)]
struct Listeners {
    front: TcpListener,
    nodes: Vec<TcpListener>,
    metrics: Option<TcpListener>,
}

// A node whose own address is bound.
#[derive(Drop)]
struct ListeningNode<H: Host> {
    listener: TcpListener,
    serving: Arc<Serving<H>, Global>,
}

impl<H: Host> Listening<H> {
    /// Binds the port of 127.0.0.1 that all nodes share, the address of each node, and the metrics
    /// port. The nodes have no clients and no links.
    pub fn bind(
        host: &H,
        alloc: Global,
        group: Group,
        options: &ServeOptions<'_>,
    ) -> Result<Listening<H>, ServeError> {
        let listeners = Listeners {
            front: listen(host, alloc, "127.0.0.1", options.front)?,
            nodes: listen_at_each(host, alloc, &group)?,
            metrics: listen_for_metrics(host, alloc, options)?,
        };
        let own = own_descriptors(options);
        let capacity = Needs::of(&group).capacity(descriptor_limit().saturating_sub(own));
        let limit = connection_limit_of(host, alloc, capacity, options)?;
        Ok(Listening::new(host, alloc, group, options, listeners, limit)?)
    }

    // Makes a group with these listeners.
    fn new(
        host: &H,
        alloc: Global,
        group: Group,
        options: &ServeOptions<'_>,
        listeners: Listeners,
        limit: ConnectionLimit,
    ) -> Result<Listening<H>, AllocError> {
        let limit = Arc::new(alloc, limit)?;
        let log = Arc::new(alloc, Log::new(alloc, options.log))?;
        write_start(host, alloc, &log, &group, options)?;
        let counters = counters_of(alloc, &group, &listeners.metrics)?;
        let reports = Arc::new(alloc, copy_of(alloc, options.reports)?)?;
        let mut nodes = Vec::with_capacity(alloc, listeners.nodes.len())?;
        let (group, places) = NodePlace::of_group(alloc, group)?;
        for (listener, at) in listeners.nodes.into_iter().zip(places) {
            let mut dialer = Dialer::new(
                *host,
                alloc,
                Arc::try_clone(&group)?,
                at.index(),
                Arc::try_clone(&log)?,
                Arc::try_clone(&reports)?,
            );
            dialer.wait_for_servers(options.server_wait);
            count_at(&mut dialer, &counters, at.index())?;
            let serving = serving_at(alloc, at, options, dialer)?;
            nodes.push(ListeningNode { listener, serving })?;
        }
        let metrics = match (listeners.metrics, counters) {
            (Some(listener), Some(counters)) => {
                let log = Arc::try_clone(&log)?;
                let sources = Sources {
                    group,
                    counters,
                    log,
                    started: host.since_1970().ok(),
                };
                Some(exporter_of(alloc, listener, options, &nodes, sources)?)
            }
            _ => None,
        };
        Ok(Listening {
            front: listeners.front,
            nodes,
            limit,
            log,
            metrics,
        })
    }

    /// Accepts connections and serves them, for as long as the process runs. A group that can drain
    /// does so when `input` ends, and then this returns. Fails if no thread can be started, or if
    /// memory runs out.
    pub fn serve<I: Read>(self, host: &H, alloc: Global, input: &mut I) -> Result<(), ServeError> {
        let limit = Arc::try_clone(&self.limit)?;
        let log = Arc::try_clone(&self.log)?;
        spawn_log_writer(host, &log)?;
        let ended = self.serve_clients(host, alloc, input);
        write_end(host, &limit, &log, &ended);
        ended
    }

    // The same, once the log's thread runs.
    fn serve_clients<I: Read>(
        self,
        host: &H,
        alloc: Global,
        input: &mut I,
    ) -> Result<(), ServeError> {
        let Listening {
            front,
            nodes,
            limit,
            log,
            metrics,
        } = self;
        if let Some(exporter) = metrics {
            spawn_exporters(host, alloc, &exporter)?;
        }
        let Accepting {
            serving,
            mut acceptors,
        } = accept_at_each(host, alloc, nodes, &limit, &log)?;
        let all = Acceptor::new(
            front,
            serving,
            Arc::try_clone(&limit)?,
            Arc::try_clone(&log)?,
        );
        let all = Arc::new(alloc, all).map_err(AllocError::from)?;
        if limit.drain_signal().is_none() {
            keep_accepting(host, alloc, &all);
            return Ok(());
        }
        spawn_accepting(host, alloc, &all)?;
        let Ok(()) = acceptors.push(all) else {
            return Err(ServeError::Memory);
        };
        wait_for_end(host, input);
        drain(host, &limit, &log, acceptors.as_slice());
        Ok(())
    }
}

// The nodes of a group, and the acceptors of their own addresses.
struct Accepting<H: Host> {
    serving: Vec<Arc<Serving<H>, Global>>,
    acceptors: Vec<Arc<Acceptor<H>, Global>>,
}

// Makes the connection limit of a group, which can drain if these options say so.
fn connection_limit_of<H: Host>(
    host: &H,
    alloc: Global,
    capacity: Capacity,
    options: &ServeOptions<'_>,
) -> Result<ConnectionLimit, ServeError> {
    if !options.until_eof {
        return Ok(ConnectionLimit::new(alloc, capacity));
    }
    match DrainSignal::new(host) {
        Ok(signal) => Ok(ConnectionLimit::with_drain(alloc, capacity, Some(signal))),
        Err(_) => Err(ServeError::Sockets),
    }
}

/// Binds the addresses of a group, writes `listening PORT` to `out`, and serves clients; if the
/// options say so, until `input` ends. Fails if an address can't be bound, if memory runs out, if a
/// thread can't be started, or if `out` can't be written to.
pub fn serve_group<H: Host, I: Read, W: Write>(
    host: &H,
    alloc: Global,
    group: Group,
    options: &ServeOptions<'_>,
    input: &mut I,
    out: &mut W,
) -> Result<(), ServeError> {
    match Listening::bind(host, alloc, group, options) {
        Ok(listening) => say_and_serve(host, alloc, listening, options.front, input, out),
        Err(error) => Err(error),
    }
}

// Writes that a group listens, and serves its clients.
fn say_and_serve<H: Host, I: Read, W: Write>(
    host: &H,
    alloc: Global,
    listening: Listening<H>,
    front: u16,
    input: &mut I,
    out: &mut W,
) -> Result<(), ServeError> {
    say_listening(out, front)?;
    listening.serve(host, alloc, input)
}

/// Writes `listening PORT`. Fails if `out` can't be written to.
pub fn say_listening<W: Write>(out: &mut W, port: u16) -> Result<(), ServeError> {
    match writeln!(out, "listening {port}") {
        Ok(()) => Ok(()),
        Err(_) => Err(ServeError::Output),
    }
}

// Starts a thread that writes the log.
fn spawn_log_writer<H: Host>(host: &H, log: &Arc<Log, Global>) -> Result<(), ServeError> {
    let own = *host;
    let theirs = Arc::try_clone(log)?;
    match thread::Builder::new().spawn(host, move || theirs.write_all(&own)) {
        Ok(_) => Ok(()),
        Err(_) => Err(ServeError::Thread),
    }
}

// Starts threads that serve metrics.
fn spawn_exporters<H: Host>(
    host: &H,
    alloc: Global,
    exporter: &Arc<Exporter<H>, Global>,
) -> Result<(), ServeError> {
    for _ in 0..METRICS_READERS {
        let own = *host;
        let theirs = Arc::try_clone(exporter)?;
        let started = thread::Builder::new().spawn(
            host,
            move || keep_exporting(&own, alloc, &theirs),
        );
        if started.is_err() {
            return Err(ServeError::Thread);
        }
    }
    Ok(())
}

// Makes the counters of a group, if there is a metrics port.
fn counters_of(
    alloc: Global,
    group: &Group,
    listener: &Option<TcpListener>,
) -> Result<Option<Arc<Counters, Global>>, AllocError> {
    match listener {
        Some(_) => Ok(Some(Arc::new(alloc, Counters::new(alloc, group)?)?)),
        None => Ok(None),
    }
}

// Gives a dialer the counters of the node at this place, if there are any.
fn count_at<H: Host>(
    dialer: &mut Dialer<H>,
    counters: &Option<Arc<Counters, Global>>,
    place: usize,
) -> Result<(), AllocError> {
    if let Some(counters) = counters {
        if let Some(node) = counters.node(place) {
            dialer.count_at(Arc::try_clone(node)?);
        }
    }
    Ok(())
}

// Makes the exporter of these nodes' metrics.
fn exporter_of<H: Host>(
    alloc: Global,
    listener: TcpListener,
    options: &ServeOptions<'_>,
    nodes: &[ListeningNode<H>],
    sources: Sources,
) -> Result<Arc<Exporter<H>, Global>, AllocError> {
    let mut all = Vec::with_capacity(alloc, nodes.len())?;
    for node in nodes {
        all.push(Arc::try_clone(&node.serving)?)?;
    }
    let version = String::from_str(alloc, options.version)?;
    Ok(Arc::new(alloc, Exporter::new(alloc, listener, version, all, sources))?)
}

// Makes the node at this place of its group, without clients and links.
fn serving_at<H: Host>(
    alloc: Global,
    at: NodePlace,
    options: &ServeOptions<'_>,
    dialer: Dialer<H>,
) -> Result<Arc<Serving<H>, Global>, AllocError> {
    let first = calling_at(alloc, at, options)?;
    let first = Box::new(alloc, first)?;
    Ok(Arc::new(
        alloc,
        Serving::new(alloc, first, dialer, options.max_message),
    )?)
}

// Makes the shared state of the node at this place of its group, and its first caller.
fn calling_at<L: Drop>(
    alloc: Global,
    at: NodePlace,
    options: &ServeOptions<'_>,
) -> Result<Calling<L>, AllocError>
    // The node is new: it has the settings of its place, and the boot of the options.
    ensures fresh { IfOk result (λ calling. ForSome (slice_get at.group at.place)
        (λ settings. IsFresh settings (options.now.boot * 2 ^ 32) calling.caller.start.view)) }
    // It serves with the settings of its place.
    ensures group { IfOk result (λ calling.
        arc_value (arc_value calling.node).group ≡ at.group) }
    ensures place { IfOk result (λ calling. (arc_value calling.node).place ≡ at.place) }
    // Its secrets are those of the options' seed and of its number.
    ensures seeded { IfOk result (λ calling. ForSome (slice_get at.group at.place)
        (λ settings. (arc_value calling.node).secrets
        ≡ drawing_of options.now.seed settings.peer_id)) }
{
    Calling::new(alloc, at, options.seed, boot_of(options.boot))
}

// Returns the first boot of the process with this start number, which has 2^32 boots.
fn boot_of(start: u32) -> Boot
    ensures { result ≡ start * 2 ^ 32 }
{
    Boot(u64::from(start) * (1 << 32))
}

// Makes an acceptor for each node's own address, and starts its thread.
fn accept_at_each<H: Host>(
    host: &H,
    alloc: Global,
    nodes: Vec<ListeningNode<H>>,
    limit: &Arc<ConnectionLimit, Global>,
    log: &Arc<Log, Global>,
) -> Result<Accepting<H>, ServeError> {
    let mut serving = Vec::with_capacity(alloc, nodes.len())?;
    let mut acceptors = Vec::with_capacity(alloc, nodes.len().saturating_add(1))?;
    for node in nodes {
        let kept = Arc::try_clone(&node.serving)?;
        let acceptor = acceptor_of(alloc, node, limit, log)?;
        spawn_accepting(host, alloc, &acceptor)?;
        let Ok(()) = serving.push(kept) else {
            return Err(ServeError::Memory);
        };
        let Ok(()) = acceptors.push(acceptor) else {
            return Err(ServeError::Memory);
        };
    }
    Ok(Accepting { serving, acceptors })
}

// Starts a thread that keeps accepting connections.
fn spawn_accepting<H: Host>(
    host: &H,
    alloc: Global,
    acceptor: &Arc<Acceptor<H>, Global>,
) -> Result<(), ServeError> {
    let own = *host;
    let theirs = Arc::try_clone(acceptor)?;
    match thread::Builder::new().spawn(host, move || keep_accepting(&own, alloc, &theirs)) {
        Ok(_) => Ok(()),
        Err(_) => Err(ServeError::Thread),
    }
}

// Makes the acceptor of one node's own address.
fn acceptor_of<H: Host>(
    alloc: Global,
    node: ListeningNode<H>,
    limit: &Arc<ConnectionLimit, Global>,
    log: &Arc<Log, Global>,
) -> Result<Arc<Acceptor<H>, Global>, AllocError> {
    let ListeningNode { listener, serving } = node;
    let mut nodes = Vec::with_capacity(alloc, 1)?;
    nodes.push(serving)?;
    let limit = Arc::try_clone(limit)?;
    let log = Arc::try_clone(log)?;
    let acceptor = Acceptor::new(listener, nodes, limit, log);
    Ok(Arc::new(alloc, acceptor)?)
}

// Binds the address of each node, in order.
fn listen_at_each<H: Host>(
    host: &H,
    alloc: Global,
    group: &Group,
) -> Result<Vec<TcpListener>, ServeError> {
    let mut listeners = Vec::new(alloc);
    for settings in group.nodes() {
        let listener = listen(host, alloc, settings.listen_addr(), settings.listen_port())?;
        let Ok(()) = listeners.push(listener) else {
            return Err(ServeError::Memory);
        };
    }
    Ok(listeners)
}

// Binds the metrics port, if there is one.
fn listen_for_metrics<H: Host>(
    host: &H,
    alloc: Global,
    options: &ServeOptions<'_>,
) -> Result<Option<TcpListener>, ServeError> {
    match options.metrics {
        Some(port) => Ok(Some(listen(host, alloc, "127.0.0.1", port)?)),
        None => Ok(None),
    }
}

/// Binds this address. `BACKLOG` connections may wait there to be accepted.
pub fn listen<H: Host>(
    host: &H,
    alloc: Global,
    address: &str,
    port: u16,
) -> Result<TcpListener, ServeError> {
    match TcpListener::bind(host, (address, port)) {
        Ok(listener) => {
            // `bind` lets fewer wait. If this fails, that stays so.
            c::listen(listener.as_raw_fd(), BACKLOG);
            Ok(listener)
        }
        Err(error) => Err(ServeError::Address(Unbound {
            address: String::from_str(alloc, address)?,
            port,
            error,
        })),
    }
}
