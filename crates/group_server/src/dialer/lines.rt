//! The lines of the log about a node's connections, its sessions and its cancel requests. What writes
//! them isn't inlined, so that a connection's stack has no room for lines.
use super::{ClientDialer, Dialer, Target, find_peer};
use cancel_router::RouteRefusal;
use ini_config::{Database, Peer, Settings};
use node_core::CancelRefusal;
use node_threads::{CONSOLE, LoginRefusal, Sender};
use peer_forward::Verdict;
use pg_ids::{DatabaseNo, PeerNo};
use sockets::{CancelEnd, Machine, Origin};
use startup::ErrorCode;
use std::alloc::AllocError;
use std::io;
use telemetry::{Event, Field, Value, put_fields};

// Why a cancel request for which no seat is free isn't served.
pub(super) const NO_SEAT: &str = "no_seat";

impl<M: Machine> Dialer<M> {
    // Returns the origin of a connection of the node with these settings.
    pub(super) fn origin(
        &self,
        settings: &Settings,
        fields: &[Field<'_>],
    ) -> Result<Origin, AllocError> {
        let node = settings.peer_id().get();
        Origin::new(self.alloc, &self.log, node, fields)
    }

    // Logs the error of connecting to what these fields name.
    pub(super) fn write_error(
        &self,
        settings: &Settings,
        event: Event,
        fields: &[Field<'_>],
        error: &io::Error,
    ) {
        if let Ok(origin) = self.origin(settings, fields) {
            origin.write_error(&self.machine, event, error);
        }
    }

    // Logs an event of the node.
    fn write(&self, event: Event, fields: &[Field<'_>]) {
        let node = Some(self.number());
        self.log.write(&self.machine, node, event, fields);
    }

    // Logs that the server of this database refused the login of a link.
    #[inline(never)]
    pub(super) fn write_refusal(&self, database: DatabaseNo, refusal: &LoginRefusal) {
        let Ok(settings) = self.settings() else {
            return;
        };
        let Some(entry) = settings.database(database) else {
            return;
        };
        let Ok(origin) = self.origin(settings, &server_fields(&entry)) else {
            return;
        };
        match refusal {
            LoginRefusal::Error(_) => {
                let code = refusal.code().unwrap_or(&[]);
                let message = refusal.message().unwrap_or(&[]);
                origin.write_login_error(&self.machine, code, message);
            }
            LoginRefusal::Asks(code) => origin.write_asked(&self.machine, *code),
        }
    }

    // Logs that a message on this database, or a client's messages of an extended query together,
    // have more bytes than the limit.
    #[inline(never)]
    pub(super) fn write_too_long(
        &self,
        database: DatabaseNo,
        from: Sender,
        bytes: usize,
        limit: u32,
    ) {
        let Ok(settings) = self.settings() else {
            return;
        };
        let Some(entry) = settings.database(database) else {
            return;
        };
        let fields = [
            ("database", Value::Text(entry.name)),
            ("bytes", Value::Number(bytes as u64)),
            ("limit", Value::Number(u64::from(limit))),
            ("from", Value::Text(name_of(from))),
        ];
        self.write(Event::MessageTooLong, &fields);
    }

    // Appends the fields that name where a cancel request was sent.
    fn put_target(&self, target: Target, names: &mut String) -> io::Result<()> {
        match target {
            Target::Server(database, process) => self.put_server(database, process, names),
            Target::Peer(peer) => self.put_peer(peer, names),
        }
    }

    // Appends the fields that name the server of a database, and its process of this number.
    fn put_server(&self, database: DatabaseNo, process: u32, names: &mut String) -> io::Result<()> {
        if let Some(entry) = self.settings()?.database(database) {
            put_fields(self.alloc, names, &server_fields(&entry))?;
        }
        let process = ("pid", Value::Number(u64::from(process)));
        put_fields(self.alloc, names, &[process])?;
        Ok(())
    }

    // Appends the fields that name a peer.
    fn put_peer(&self, peer: PeerNo, names: &mut String) -> io::Result<()> {
        if let Some(entry) = find_peer(self.settings()?, peer) {
            put_fields(self.alloc, names, &peer_fields(&entry))?;
        }
        Ok(())
    }
}

impl<'a, M: Machine> ClientDialer<'a, M> {
    // Logs the start-up parameters of the client that have no effect, now that it is logged in.
    #[inline(never)]
    pub(super) fn write_dropped(&self) {
        let dialer = self.dialer;
        let node = dialer.number();
        let told = &dialer.told_names;
        self.connection
            .write_dropped(&dialer.machine, &dialer.log, node, told, &dialer.reports);
    }

    // Logs that the client gets an error with this code in place of a login.
    #[inline(never)]
    pub(super) fn write_refused(&self, code: ErrorCode) {
        let dialer = self.dialer;
        let node = dialer.number();
        self.connection
            .write_refused(&dialer.machine, &dialer.log, node, code);
    }

    // Logs that the client's session has ended with an error with this code, and for this reason if
    // that is known.
    #[inline(never)]
    pub(super) fn write_session_end(&self, code: ErrorCode, refused: Option<&'static str>) {
        let Some(database) = self.database.get() else {
            self.write_end_on(CONSOLE, code, refused);
            return;
        };
        if let Ok(settings) = self.dialer.settings() {
            if let Some(entry) = settings.database(database) {
                self.write_end_on(entry.name, code, refused);
            }
        }
    }

    // The same for a session on the database of this name.
    fn write_end_on(&self, name: &str, code: ErrorCode, refused: Option<&'static str>) {
        let client = self.connection.client();
        let database = ("database", Value::Text(name));
        let code = ("code", Value::Text(code.code()));
        match refused {
            Some(kind) => {
                let refused = ("refused", Value::Text(kind));
                let fields = [client, database, code, refused];
                self.dialer.write(Event::SessionEnded, &fields);
            }
            None => {
                let fields = [client, database, code];
                self.dialer.write(Event::SessionEnded, &fields);
            }
        }
    }

    // Logs that the client's cancel request got no order, for this reason.
    pub(super) fn write_cancel_refused(&self, reason: &'static str) {
        let fields = [("reason", Value::Text(reason))];
        self.write_cancel(Event::CancelRefused, None, &fields);
    }

    // Logs how the client's cancel request has ended, of which this became, or nothing; and after how
    // many milliseconds.
    pub(super) fn write_cancel_end(&self, verdict: Option<Verdict>) {
        let Some(millis) = self.connection.cancel_millis(&self.dialer.machine) else {
            return;
        };
        let fields = [
            ("result", Value::Text(CancelEnd::of(verdict).name())),
            ("millis", Value::Number(millis)),
        ];
        self.write_cancel(Event::CancelEnded, self.target.get(), &fields);
    }

    // Logs an event of the client's cancel request, with these fields behind those that name the
    // client, the slot of the request's key, and where it was sent.
    #[inline(never)]
    fn write_cancel(&self, event: Event, target: Option<Target>, fields: &[Field<'_>]) {
        let dialer = self.dialer;
        if !dialer.log.has(event) {
            return;
        }
        if let Ok(names) = self.cancel_names(target) {
            let node = Some(dialer.number());
            let names = names.as_str();
            dialer
                .log
                .write_of(&dialer.machine, node, event, names, fields);
        }
    }

    // Returns the fields that name a cancel request, as text.
    fn cancel_names(&self, target: Option<Target>) -> io::Result<String> {
        let alloc = self.dialer.alloc;
        let mut names = String::new(alloc);
        put_fields(alloc, &mut names, &[self.connection.client()])?;
        if let Some(slot) = self.slot.get() {
            let number = Value::Number(u64::from(slot.get()));
            put_fields(alloc, &mut names, &[("slot", number)])?;
        }
        if let Some(target) = target {
            self.dialer.put_target(target, &mut names)?;
        }
        Ok(names)
    }
}

// Returns the name of a message's sender in the log.
fn name_of(sender: Sender) -> &'static str {
    match sender {
        Sender::Client => "client",
        Sender::Server => "server",
    }
}

// Returns the name in the log of why a node refuses a cancel request.
pub(super) fn reason_of(refusal: CancelRefusal) -> &'static str {
    match refusal {
        CancelRefusal::Route(reason) => route_name(reason),
        CancelRefusal::Busy => "busy",
        CancelRefusal::Exhausted => "exhausted",
    }
}

fn route_name(reason: RouteRefusal) -> &'static str {
    match reason {
        RouteRefusal::Spent => "spent",
        RouteRefusal::Unknown => "unknown",
        RouteRefusal::NoPeer => "no_peer",
        RouteRefusal::NoLink => "no_link",
    }
}

// Returns the fields that name the server of a database.
pub(super) fn server_fields<'a>(entry: &Database<'a>) -> [Field<'a>; 2] {
    let server = Value::Address(entry.host, entry.port);
    [("database", Value::Text(entry.name)), ("server", server)]
}

// Returns the fields that name a peer.
pub(super) fn peer_fields<'a>(entry: &Peer<'a>) -> [Field<'a>; 2] {
    let number = Value::Number(u64::from(entry.number.get()));
    [
        ("peer", number),
        ("address", Value::Address(entry.host, entry.port)),
    ]
}
