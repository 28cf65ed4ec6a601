//! Clients that come when sessions have all the connections that they get, or the console all its
//! sessions; and clients whose servers have closed their links.
use crate::tests::arriving::arrive;
use crate::tests::host::{ANY_PORT, TestHost};
use crate::{
    Capacity, ClientStream, Connection, ConnectionContext, ConnectionLimit, Consoles, Deadline,
    Serves, end,
};
use peer_forward::Requester;
use std::io::{ErrorKind, Read, Write};
use std::net::{TcpListener, TcpStream};
use std::os::fd::AsRawFd;
use std::test::Fail;
use telemetry::{Level, Log};

// Packets of the PostgreSQL manual, "Message Formats": a StartupMessage, one for the console, and a
// CancelRequest.
const STARTUP: &[u8] = b"\0\0\0\x12\0\x03\0\0user\0ann\0\0";

const CONSOLE: &[u8] = b"\0\0\0\x25\0\x03\0\0user\0ann\0database\0pgbouncer\0\0";

const CANCEL: &[u8] = b"\0\0\0\x10\x04\xd2\x16\x2e\0\0\0\x03\0\x0f\x42\x43";

// The beginning of the error of a client for which there is no room.
const TOO_MANY: &[u8] = b"E\0\0\0\x2cSFATAL\0VFATAL\0C53300\0";

// How many reads a first packet takes at most.
const READS: usize = 8;

// How many sessions a node has on its console.
const CONSOLES: usize = 32;

// What connections are served with.
#[derive(Drop)]
struct Place {
    listener: TcpListener,
    limit: ConnectionLimit,
    consoles: Consoles,
    log: Log,
}

impl Place {
    // With four connections, of which so many are kept.
    fn new<R: TestHost>(rt: &R, kept: usize) -> Result<Place, Fail> {
        let capacity = Capacity {
            connections: 4,
            pending: 4,
            kept,
        };
        Ok(Place {
            listener: TcpListener::bind(rt, ANY_PORT)?,
            limit: ConnectionLimit::new(rt.alloc(), capacity),
            consoles: Consoles::new(),
            log: Log::new(rt.alloc(), Level::Warn),
        })
    }

    // Begins a session on the console, or returns false if there are as many as there may be.
    fn begins_console(&self) -> bool {
        self.consoles.enter()
    }

    // A connection whose client has sent these bytes, and the client's side.
    fn connect<R: TestHost>(&self, rt: &R, sent: &[u8]) -> Result<(Connection, TcpStream), Fail> {
        let port = self.listener.local_addr()?.port();
        let mut peer = TcpStream::connect(rt, ("127.0.0.1", port))?;
        peer.write_all(sent)?;
        let (socket, _address) = self.listener.accept()?;
        Ok((Connection::new(socket), peer))
    }

    // The stream of such a connection, of which nothing was read.
    fn stream<'a, R: TestHost>(
        &'a self,
        rt: &'a R,
        connection: &'a Connection,
    ) -> Result<ClientStream<'a, R>, Fail> {
        let pending = self
            .limit
            .admit(rt, connection.descriptor())
            .ok_or("not admitted")?;
        let context = ConnectionContext {
            limit: &self.limit,
            pending,
            consoles: &self.consoles,
            serves: Serves::All,
            deadline: Deadline::after(rt, 10_000)?,
            log: &self.log,
            node: 4,
        };
        Ok(ClientStream::new(rt, rt.alloc(), connection, context))
    }

    // Serves a connection to the end of its first packets. Returns whether what they ask for is
    // admitted.
    fn serves<R: TestHost>(&self, rt: &R, sent: &[u8], answer: &[u8]) -> Result<bool, Fail> {
        let (connection, mut peer) = self.connect(rt, sent)?;
        let mut client = self.stream(rt, &connection)?;
        let is_admitted = arrive(rt, &mut client, READS)?;
        if is_admitted && sent == CANCEL {
            client.take_seen();
        }
        end(rt, &connection, &mut client);
        client.leave();
        drop(client);
        drop(connection);
        self.limit.closed(rt);
        let mut buffer = [0; 256];
        let count = peer.read(&mut buffer)?;
        let got = buffer.get(..count).unwrap_or(&[]);
        assert!(rt; got.starts_with(answer));
        assert_eq!(rt; got.is_empty(), answer.is_empty());
        Ok(is_admitted)
    }
}

#[test]
fn sessions_leave_connections_for_cancel_requests(rt: HostRuntime) -> Result<(), Fail> {
    let place = Place::new(&rt, 4)?;
    assert!(&rt; !place.serves(&rt, STARTUP, TOO_MANY)?);
    assert!(&rt; !place.serves(&rt, CONSOLE, TOO_MANY)?);
    assert!(&rt; place.serves(&rt, CANCEL, b"")?);
    let place = Place::new(&rt, 3)?;
    for _ in 0..3u32 {
        assert!(&rt;
            place.serves(&rt, STARTUP, b"")?,
            "the one before it has left"
        );
        assert!(&rt; place.serves(&rt, CONSOLE, b"")?);
    }
    let (connection, _peer) = place.connect(&rt, STARTUP)?;
    let mut client = place.stream(&rt, &connection)?;
    assert!(&rt; arrive(&rt, &mut client, READS)?);
    assert!(&rt; !place.serves(&rt, STARTUP, TOO_MANY)?);
    client.leave();
    assert!(&rt; place.serves(&rt, STARTUP, b"")?);
    Ok(())
}

#[test]
fn the_console_has_as_many_sessions_as_it_may(rt: HostRuntime) -> Result<(), Fail> {
    let place = Place::new(&rt, 0)?;
    for _ in 1..CONSOLES {
        assert!(&rt; place.begins_console());
    }
    let (connection, _peer) = place.connect(&rt, CONSOLE)?;
    let mut client = place.stream(&rt, &connection)?;
    assert!(&rt; arrive(&rt, &mut client, READS)?);
    assert!(&rt; !place.serves(&rt, CONSOLE, TOO_MANY)?);
    assert!(&rt; place.serves(&rt, STARTUP, b"")?);
    client.leave();
    for _ in 0..2u32 {
        assert!(&rt; place.serves(&rt, CONSOLE, b"")?);
    }
    Ok(())
}

// A client whose session has begun, and whose link its server has closed.
#[test]
fn a_link_is_looked_at_though_its_client_sends(rt: HostRuntime) -> Result<(), Fail> {
    let place = Place::new(&rt, 0)?;
    let (connection, mut peer) = place.connect(&rt, STARTUP)?;
    let mut client = place.stream(&rt, &connection)?;
    assert!(&rt; arrive(&rt, &mut client, READS)?);
    let (link, server) = place.connect(&rt, b"")?;
    connection.set_link(Some(link.socket().as_raw_fd()));
    let mut buffer = [0; 64];
    peer.write_all(b"Q")?;
    assert_eq!(&rt; client.read(&mut buffer)?, 1, "the link is open");
    drop(server);
    std::thread::sleep(&rt, std::time::Duration::from_millis(600));
    peer.write_all(b"\0")?;
    let read = client.read(&mut buffer).map_err(|error| error.kind());
    assert_eq!(&rt; read, Err(ErrorKind::ConnectionAborted));
    connection.set_link(None);
    Ok(())
}

// The same, but nothing is read of what is written to the client.
#[test]
fn a_link_is_looked_at_though_its_client_does_not_read(rt: HostRuntime) -> Result<(), Fail> {
    let place = Place::new(&rt, 0)?;
    let (connection, peer) = place.connect(&rt, STARTUP)?;
    let mut client = place.stream(&rt, &connection)?;
    assert!(&rt; arrive(&rt, &mut client, READS)?);
    let (link, server) = place.connect(&rt, b"")?;
    connection.set_link(Some(link.socket().as_raw_fd()));
    client.write_all(b"x")?;
    assert!(&rt; client.wrote_last());
    drop(server);
    let mut failed = None;
    for _ in 0..10_000u32 {
        if let Err(error) = client.write(&[b'x'; 4_096]) {
            failed = Some(error.kind());
            break;
        }
    }
    assert_eq!(&rt; failed, Some(ErrorKind::ConnectionAborted));
    assert!(&rt; !client.wrote_last(), "the last write failed");
    connection.set_link(None);
    drop(peer);
    Ok(())
}
