//! What the stream of a client's connection and its dialer share.
use crate::poll::is_ended;
use crate::{Retries, ToldNames};
use startup::{ErrorCode, Reports};
use std::cell::Cell;
use std::net::{SocketAddr, TcpStream};
use std::os::fd::{AsRawFd, RawFd};
use std::sync::Wait;
use std::time::{Clock, Duration};
use telemetry::{Event, Field, Log, Meter, Value};

/// A client's connection.
#[derive(Drop)]
pub struct Connection {
    socket: TcpStream,
    // The client's address, for the log.
    address: Option<SocketAddr>,
    // The socket of the link that its client has.
    link: Cell<Option<RawFd>>,
    // The start-up packet of its client, until the client is logged in, if the log needs it.
    packet: Cell<Option<Vec<u8>>>,
    // When its cancel request was received.
    cancel_received: Cell<Option<Duration>>,
    retries: Retries,
    meter: Meter,
}

impl Connection {
    /// Returns a connection on this socket, whose client has no link. Nothing is counted.
    pub fn new(socket: TcpStream) -> Connection {
        Connection::metered(socket, Meter::none())
    }

    /// Returns the same, with this meter.
    pub fn metered(socket: TcpStream, meter: Meter) -> Connection {
        let address = socket.peer_addr().ok();
        Connection {
            socket,
            address,
            link: Cell::new(None),
            packet: Cell::new(None),
            cancel_received: Cell::new(None),
            retries: Retries::new(),
            meter,
        }
    }

    /// Returns its meter.
    pub fn meter(&self) -> &Meter {
        &self.meter
    }

    /// Returns how far it has tried to reach a server.
    pub fn retries(&self) -> &Retries {
        &self.retries
    }

    /// Returns its socket.
    pub fn socket(&self) -> &TcpStream {
        &self.socket
    }

    /// Returns the descriptor of its socket.
    pub fn descriptor(&self) -> RawFd {
        self.socket.as_raw_fd()
    }

    /// Returns the socket of the link that its client has.
    pub fn link(&self) -> Option<RawFd> {
        self.link.get()
    }

    /// Sets the socket of the link that its client has, or none.
    pub fn set_link(&self, link: Option<RawFd>) {
        self.link.set(link);
    }

    /// Returns whether its client has closed it. Doesn't wait.
    pub fn is_gone(&self) -> bool {
        is_ended(self.descriptor())
    }

    /// Its cancel request was received now.
    pub fn receive_cancel<R: Clock>(&self, rt: &R) {
        self.cancel_received.set(rt.monotonic().ok());
    }

    /// Returns how many milliseconds ago its cancel request was received, if it sent one.
    pub fn cancel_millis<R: Clock>(&self, rt: &R) -> Option<u64> {
        let came = self.cancel_received.get()?;
        let now = rt.monotonic().ok()?;
        let millis = now.saturating_sub(came).as_millis();
        Some(u64::try_from(millis).unwrap_or(u64::MAX))
    }

    /// Keeps the start-up packet of its client until the client is logged in.
    pub fn keep_packet(&self, packet: Vec<u8>) {
        self.packet.set(Some(packet));
    }

    /// Logs the start-up parameters that have no effect and don't have the value of a report, if there
    /// are any whose names the log of this node didn't have lately: its client is logged in there.
    pub fn write_dropped<R: Wait + Clock>(
        &self,
        rt: &R,
        log: &Log,
        node: u16,
        told: &ToldNames,
        reports: &Reports,
    ) {
        let Some(packet) = self.packet.replace(None) else {
            return;
        };
        let Ok(names) = told.untold(rt, packet.as_slice(), reports) else {
            return;
        };
        if names.is_empty() {
            return;
        }
        if self.write_names(rt, log, node, names.as_slice()) {
            told.note(rt, names.as_slice());
        }
    }

    // Logs that the start-up parameters of these names have no effect. Returns whether the log has
    // that.
    fn write_names<R: Wait + Clock>(&self, rt: &R, log: &Log, node: u16, names: &[u8]) -> bool {
        let fields = [self.client(), ("parameters", Value::Bytes(names))];
        log.write(rt, Some(node), Event::ParametersDropped, &fields)
    }

    /// Logs that its client gets an error with this code in place of a login at this node.
    pub fn write_refused<R: Wait + Clock>(&self, rt: &R, log: &Log, node: u16, code: ErrorCode) {
        let fields = [
            self.client(),
            ("code", Value::Text(code.code())),
            ("message", Value::Text(code.message())),
        ];
        log.write(rt, Some(node), Event::ClientRefused, &fields);
    }

    /// Returns the address of its client, if it is known.
    pub fn address(&self) -> Option<SocketAddr> {
        self.address
    }

    /// Returns the field of the log that names its client.
    pub fn client(&self) -> Field<'static> {
        ("client", Value::Peer(self.address))
    }
}
