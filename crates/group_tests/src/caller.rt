//! A node's side of connections to its server, without a session.
use crate::group::ANY_PORT;
use crate::host::TestHost;
use crate::log_lines::{await_timed_line, expect_line, expect_no_line};
use crate::reported::reports_of;
use crate::settings::group;
use group_server::{ClientDialer, Dialer};
use node_threads::{CancelOrder, Listening, Observer, Opener};
use peer_forward::Verdict;
use pg_frames::MessageLimit;
use pg_ids::{DatabaseNo, PeerNo, SlotNo};
use session_io::{LinkError, log_in};
use sockets::{Connection, LinkStream};
use std::alloc::Global;
use std::io::{Read, Write};
use std::net::{TcpListener, TcpStream};
use std::sync::Arc;
use std::test::Fail;
use telemetry::{Level, Log};

// Node 1, for the client of one connection, with its log.
#[derive(Drop)]
pub(crate) struct Caller<R: TestHost> {
    dialer: Dialer<R>,
    log: Arc<Log, Global>,
    server: u16,
    connection: Connection,
    // The client's side of it.
    client: TcpStream,
    // Its address, as the log has it.
    address: String,
}

impl<R: TestHost> Caller<R> {
    // The server of its database `shop` is at this port, and clients get this. Its peer, node 2, is at
    // port 2.
    pub(crate) fn new(rt: &R, server: u16, told: &[(&str, &str)]) -> Result<Caller<R>, Fail> {
        let group = Arc::new(rt.alloc(), group(rt.alloc(), &[1, 2], server, &[&[0, 1]])?)?;
        let log = Arc::new(rt.alloc(), Log::new(rt.alloc(), Level::Info))?;
        let reports = Arc::new(rt.alloc(), reports_of(rt.alloc(), told)?)?;
        let theirs = Arc::try_clone(&log)?;
        let dialer = Dialer::new(*rt, rt.alloc(), group, 0, theirs, reports);
        let listener = TcpListener::bind(rt, ANY_PORT)?;
        let client = TcpStream::connect(rt, ("127.0.0.1", listener.local_addr()?.port()))?;
        let (socket, address) = listener.accept()?;
        Ok(Caller {
            dialer,
            log,
            server,
            connection: Connection::new(socket),
            client,
            address: format!(in rt.alloc(); "{address}")?,
        })
    }

    // The address of the client, as the log has it.
    pub(crate) fn address(&self) -> &str {
        self.address.as_str()
    }

    // A link to which a first message was written, and of which nothing was read.
    pub(crate) fn open(&self, rt: &R) -> Result<LinkStream<R>, Fail> {
        let opener = self.dialer.on_behalf(&self.connection);
        let mut link = opener.server(rt, DatabaseNo(0))?;
        link.write_all(b"\0\0\0\x08\0\x03\0\0")?;
        Ok(link)
    }

    // The server refuses a login, and the dialer hears why, as it does of a session.
    pub(crate) fn refused(&self, rt: &R) -> Result<(), Fail> {
        let opener = self.dialer.on_behalf(&self.connection);
        let link = opener.server(rt, DatabaseNo(0))?;
        let listener = Listening { opener: &opener };
        let limit = MessageLimit::DEFAULT;
        let logged = log_in(rt, rt.alloc(), &listener, limit, link, "plain", "plain");
        match &logged {
            Err(LinkError::Refused(refusal)) => opener.link_refused(DatabaseNo(0), refusal),
            _ => return Err(Fail::from("a login that is refused")),
        }
        Ok(())
    }

    // The same, for a cancel request.
    pub(crate) fn open_cancel(&self, rt: &R) -> Result<LinkStream<R>, Fail> {
        let opener = self.dialer.on_behalf(&self.connection);
        let mut link = opener.cancel(rt, DatabaseNo(0))?;
        link.write_all(b"\0\0\0\x10\x04\xd2\x16\x2e\0\0\0\x01\0\0\0\x02")?;
        Ok(link)
    }

    // A link that is the client's, once its login was read.
    pub(crate) fn attached(&self, rt: &R) -> Result<LinkStream<R>, Fail> {
        let mut link = self.open(rt)?;
        let mut buffer = [0; 1_024];
        let _count = link.read(&mut buffer)?;
        self.dialer.on_behalf(&self.connection).link_given(&link);
        Ok(link)
    }

    // Whether the link may be used again.
    pub(crate) fn is_quiet(&self, link: &LinkStream<R>) -> bool {
        self.dialer.on_behalf(&self.connection).is_quiet(link)
    }

    // No link can be opened.
    pub(crate) fn expect_unopened(&self, rt: &R) {
        let opener = self.dialer.on_behalf(&self.connection);
        assert!(rt; opener.server(rt, DatabaseNo(0)).is_err());
    }

    // The log has this line of an event of the server, and no other: behind the server's address it
    // has these fields.
    pub(crate) fn expect_line(&self, rt: &R, event: &str, fields: &str) -> Result<(), Fail> {
        let server = self.server;
        let line = format!(in rt.alloc();
            "node=1 {event} database=shop server=127.0.0.1:{server} {fields}"
        )?;
        expect_line(rt, &self.log, line.as_str())?;
        expect_no_line(rt, &self.log)
    }

    // The client asks for a cancel, for slot 5 of node 1. Returns what the node tells of it.
    fn ask_cancel(&self, rt: &R) -> Result<ClientDialer<'_, R>, Fail> {
        self.connection.receive_cancel(rt);
        let node = PeerNo::new(1).ok_or("no node")?;
        let opener = self.dialer.on_behalf(&self.connection);
        opener.cancel_asked(node, SlotNo(5));
        Ok(opener)
    }

    // The client's cancel request gets this order, and is finished by this verdict.
    pub(crate) fn cancel(&self, rt: &R, order: CancelOrder, verdict: Verdict) -> Result<(), Fail> {
        let opener = self.ask_cancel(rt)?;
        opener.cancel_ordered(order);
        opener.cancel_ended(verdict);
        Ok(())
    }

    // The client's cancel request gets no order, and is given up.
    pub(crate) fn give_up_cancel(&self, rt: &R) -> Result<(), Fail> {
        let opener = self.ask_cancel(rt)?;
        opener.cancel_unserved();
        opener.finish(true);
        Ok(())
    }

    // The log has this line of an event of the client's cancel request: behind its slot it has these
    // fields.
    pub(crate) fn expect_cancel_line(&self, rt: &R, event: &str, fields: &str) -> Result<(), Fail> {
        let client = self.address.as_str();
        let line = format!(in rt.alloc(); "node=1 {event} client={client} slot=5 {fields}")?;
        expect_line(rt, &self.log, line.as_str())
    }

    // The log has the line of the end of the client's cancel request, and no other: between its slot
    // and the time that it took it has these fields.
    pub(crate) fn expect_cancel_end(&self, rt: &R, fields: &str) -> Result<(), Fail> {
        let client = self.address.as_str();
        let line = format!(in rt.alloc();
            "node=1 notice cancel_ended client={client} slot=5 {fields}"
        )?;
        await_timed_line(rt, &self.log, line.as_str())?;
        expect_no_line(rt, &self.log)
    }

    // The log has no line.
    pub(crate) fn expect_no_line(&self, rt: &R) -> Result<(), Fail> {
        expect_no_line(rt, &self.log)
    }

    // The log has a line of an event of the server, and an error.
    pub(crate) fn expect_error(&self, rt: &R, event: &str) -> Result<(), Fail> {
        let server = self.server;
        let start = format!(in rt.alloc();
            " node=1 {event} database=shop server=127.0.0.1:{server} error="
        )?;
        let line = self.log.next(rt).ok_or("no line")?;
        assert!(rt; line.as_str().contains(start.as_str()));
        Ok(())
    }
}
