//! Stand-in servers: `stub` runs one, and `serve --stand-in` those that its settings name.
use command_line::{StubMode, StubRequest};
use group_server::{ServeError, listen, say_listening};
use ini_config::Group;
use pg_ids::DatabaseNo;
use sockets::Host;
use std::alloc::{AllocError, Global};
use std::io::Write;
use std::net::TcpListener;
use std::sync::Arc;
use std::thread;
use stub_server::{Mode, Server, serve};

// Where stand-in servers listen.
const ADDRESS: &str = "127.0.0.1";

/// Runs a stand-in server until the process is stopped. Fails if its port can't be bound, if memory
/// runs out, or if `out` can't be written to.
pub(crate) fn stand_in<H: Host, W: Write>(
    host: &H,
    alloc: Global,
    request: StubRequest,
    out: &mut W,
) -> Result<(), ServeError> {
    let listener = listen(host, alloc, ADDRESS, request.port)?;
    let server = new_server(alloc, mode_of(request.mode))?;
    say_listening(out, request.port)?;
    serve(host, &server, &listener);
    Ok(())
}

/// Runs a stand-in server at each port of 127.0.0.1 that the settings of these nodes name as a
/// server's, each in its own thread. Fails if a port can't be bound, if a thread can't be started, or
/// if memory runs out.
pub(crate) fn stand_in_for_servers<H: Host>(
    host: &H,
    alloc: Global,
    group: &Group,
) -> Result<(), ServeError> {
    for port in server_ports(alloc, group)? {
        let listener = listen(host, alloc, ADDRESS, port)?;
        start(host, alloc, listener)?;
    }
    Ok(())
}

// Starts a thread that serves the connections of this listener.
fn start<H: Host>(host: &H, alloc: Global, listener: TcpListener) -> Result<(), ServeError> {
    let own = *host;
    let server = new_server(alloc, Mode::Honest)?;
    match thread::spawn(host, move || serve(&own, &server, &listener)) {
        Ok(_) => Ok(()),
        Err(_) => Err(ServeError::Thread),
    }
}

// Returns the ports of the servers at 127.0.0.1, each once.
fn server_ports(alloc: Global, group: &Group) -> Result<Vec<u16>, AllocError> {
    let mut ports = Vec::new(alloc);
    for settings in group.nodes() {
        for place in 0..=u8::MAX {
            let Some(database) = settings.database(DatabaseNo(place)) else {
                break;
            };
            if database.host == ADDRESS && !ports.contains(&database.port) {
                ports.push(database.port)?;
            }
        }
    }
    Ok(ports)
}

fn new_server(alloc: Global, mode: Mode) -> Result<Arc<Server, Global>, AllocError> {
    Ok(Arc::new(alloc, Server::new(alloc, mode))?)
}

fn mode_of(mode: StubMode) -> Mode {
    match mode {
        StubMode::Honest => Mode::Honest,
        StubMode::Byte => Mode::Byte,
    }
}
