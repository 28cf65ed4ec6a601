//! A group of nodes that serves in threads of its own, before a stand-in server.
use crate::client::TURNS;
use crate::host::TestHost;
use crate::reported::reports_of;
use crate::settings::group_before;
use group_server::{Listening, MessageLimit, ServeOptions};
use ini_config::Group;
use startup::Reports;
use std::alloc::{AllocError, Global};
use std::net::TcpListener;
use std::sync::Arc;
use std::sync::atomic::{AtomicBool, Ordering};
use std::test::Fail;
use std::thread;
use std::time::Duration;
use stub_server::{Mode, Server, serve};
use telemetry::Level;

// An address at which any free port is bound.
pub(crate) const ANY_PORT: &str = "127.0.0.1:0";

// Two nodes that list each other.
pub(crate) const TWO: &[&[usize]] = &[&[0, 1], &[0, 1]];

// Three.
pub(crate) const THREE: &[&[usize]] = &[&[0, 1, 2], &[0, 1, 2], &[0, 1, 2]];

// The boot with which nodes start.
const BOOT: u32 = 7;

// The ports of a group's nodes, and its own. It serves until the test ends.
#[derive(Drop)]
pub(crate) struct Running {
    nodes: Vec<u16>,
    front: u16,
    metrics: u16,
}

impl Running {
    // Starts a server of this mode at this listener, and nodes before it whose entries for peers
    // lead as `leads` says.
    pub(crate) fn start<R: TestHost>(
        rt: &R,
        listener: TcpListener,
        mode: Mode,
        leads: &[&[usize]],
    ) -> Result<Running, Fail> {
        let server = start_server(rt, listener, mode)?;
        Running::start_before(rt, &[server], leads)
    }

    // Starts such nodes before the servers at these ports, of a database each.
    pub(crate) fn start_before<R: TestHost>(
        rt: &R,
        servers: &[u16],
        leads: &[&[usize]],
    ) -> Result<Running, Fail> {
        Running::start_telling(rt, servers, leads, &[])
    }

    // Starts such nodes, whose logins report these parameters beside those of every login.
    pub(crate) fn start_telling<R: TestHost>(
        rt: &R,
        servers: &[u16],
        leads: &[&[usize]],
        told: &[(&str, &str)],
    ) -> Result<Running, Fail> {
        let mut nodes = free_ports(rt, leads.len().saturating_add(1))?;
        let front = nodes.pop().ok_or("no port for the group")?;
        let group = group_before(rt.alloc(), nodes.as_slice(), servers, leads)?;
        start_group(rt, group, front, None, reports_of(rt.alloc(), told)?)?;
        Ok(Running {
            nodes,
            front,
            metrics: 0,
        })
    }

    // Starts such nodes, whose metrics are read at a port of their own.
    pub(crate) fn start_measured<R: TestHost>(
        rt: &R,
        servers: &[u16],
        leads: &[&[usize]],
    ) -> Result<Running, Fail> {
        let mut nodes = free_ports(rt, leads.len().saturating_add(2))?;
        let front = nodes.pop().ok_or("no port for the group")?;
        let metrics = nodes.pop().ok_or("no port for the metrics")?;
        let group = group_before(rt.alloc(), nodes.as_slice(), servers, leads)?;
        start_group(
            rt,
            group,
            front,
            Some(metrics),
            reports_of(rt.alloc(), &[])?,
        )?;
        Ok(Running {
            nodes,
            front,
            metrics,
        })
    }

    // The port of the group.
    pub(crate) fn front(&self) -> u16 {
        self.front
    }

    // The port at which its metrics are read.
    pub(crate) fn metrics(&self) -> u16 {
        self.metrics
    }

    // The port of the node with this number.
    pub(crate) fn node(&self, number: usize) -> Result<u16, Fail> {
        let port = self
            .nodes
            .get(number.wrapping_sub(1))
            .ok_or("no such node")?;
        Ok(*port)
    }
}

// Serves the group in its own thread. It listens when this returns.
pub(crate) fn start_group<R: TestHost>(
    rt: &R,
    group: Group,
    front: u16,
    metrics: Option<u16>,
    reports: Reports,
) -> Result<(), Fail> {
    let listens = Arc::new(rt.alloc(), AtomicBool::new(false))?;
    let (own, theirs) = (*rt, Arc::try_clone(&listens)?);
    thread::spawn(
        rt,
        move || serve_group(&own, group, front, metrics, &reports, &theirs),
    )
    .map_err(AllocError::from)?;
    await_listening(rt, &listens)
}

// Waits until this is so.
pub(crate) fn await_listening<R: TestHost>(rt: &R, listens: &AtomicBool) -> Result<(), Fail> {
    for _turn in 0..TURNS {
        if listens.load(Ordering::SeqCst) {
            return Ok(());
        }
        thread::sleep(rt, Duration::from_millis(1));
    }
    Err(Fail::from("nothing listens"))
}

// Serves a group, and tells when it listens.
fn serve_group<R: TestHost>(
    rt: &R,
    group: Group,
    front: u16,
    metrics: Option<u16>,
    reports: &Reports,
    listens: &AtomicBool,
) {
    let options = options(front, metrics, reports);
    if let Ok(listening) = Listening::bind(rt, rt.alloc(), group, &options) {
        listens.store(true, Ordering::SeqCst);
        let _ = listening.serve(rt, rt.alloc(), &mut b"".as_slice());
    }
}

// What a group of this port is served with, whose logins have these reports. If its metrics are read,
// they count the events of all levels.
pub(crate) const fn options(
    front: u16,
    metrics: Option<u16>,
    reports: &Reports,
) -> ServeOptions<'_> {
    ServeOptions {
        version: "0",
        front,
        seed: [0; 32],
        boot: BOOT,
        reports,
        until_eof: false,
        log: match metrics {
            Some(_) => Level::Info,
            None => Level::Notice,
        },
        metrics,
        max_message: MessageLimit::DEFAULT,
        server_wait: 0,
    }
}

// Starts a stand-in server at this listener, and returns its port.
pub(crate) fn start_server<R: TestHost>(
    rt: &R,
    listener: TcpListener,
    mode: Mode,
) -> Result<u16, Fail> {
    let port = listener.local_addr()?.port();
    let server = Arc::new(rt.alloc(), Server::new(rt.alloc(), mode))?;
    let own = *rt;
    thread::spawn(rt, move || serve(&own, &server, &listener)).map_err(AllocError::from)?;
    Ok(port)
}

// Returns unused ports, all different.
pub(crate) fn free_ports<R: TestHost>(rt: &R, count: usize) -> Result<Vec<u16>, Fail> {
    let mut ports = Vec::new(rt.alloc());
    let mut listeners = Vec::new(rt.alloc());
    for _i in 0..count {
        let listener = TcpListener::bind(rt, ANY_PORT)?;
        ports.push(listener.local_addr()?.port())?;
        listeners.push(listener)?;
    }
    Ok(ports)
}
