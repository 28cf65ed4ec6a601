//! What the log names of a link or of a connection for a cancel request.
use link_state::Difference;
use std::alloc::{AllocError, Global};
use std::io;
use std::net::SocketAddr;
use std::sync::{Arc, Wait};
use std::time::Clock;
use telemetry::{Event, Field, Log, Value, put_fields};

/// The log of a connection of a node to a server or peer, with the fields that name it.
#[derive(Drop)]
pub struct Origin {
    log: Arc<Log, Global>,
    node: u16,
    // The fields that name it, as text.
    names: String,
}

impl Origin {
    /// Returns the origin of a connection of this node that these fields name.
    pub fn new(
        alloc: Global,
        log: &Arc<Log, Global>,
        node: u16,
        fields: &[Field<'_>],
    ) -> Result<Origin, AllocError> {
        let mut names = String::new(alloc);
        put_fields(alloc, &mut names, fields)?;
        Ok(Origin {
            log: Arc::try_clone(log)?,
            node,
            names,
        })
    }

    /// Logs an event of this connection, with these fields after its own.
    pub fn write<R: Wait + Clock>(&self, rt: &R, event: Event, fields: &[Field<'_>]) {
        let names = self.names.as_str();
        self.log.write_of(rt, Some(self.node), event, names, fields);
    }

    /// Logs that the server refused the login of a link by an error with this code and message.
    pub fn write_login_error<R: Wait + Clock>(&self, rt: &R, code: &[u8], message: &[u8]) {
        let fields = [
            ("code", Value::Bytes(code)),
            ("message", Value::Bytes(message)),
        ];
        self.write(rt, Event::LinkLoginFailed, &fields);
    }

    /// Logs that the server asked for authentication at the login of a link, by a request with this
    /// code.
    pub fn write_asked<R: Wait + Clock>(&self, rt: &R, method: u32) {
        let why = Value::Text("the server asks for authentication");
        let fields = [("error", why), ("method", Value::Number(method.into()))];
        self.write(rt, Event::LinkLoginFailed, &fields);
    }

    /// Logs that the server reports another value than clients get, at the login of a link.
    pub fn write_difference<R: Wait + Clock>(&self, rt: &R, found: &Difference<'_>) {
        self.write(rt, Event::LinkLoginFailed, &difference_fields(found));
    }

    /// Logs that the client with this address left a parameter of a link with another value than
    /// clients get.
    pub fn write_change<R: Wait + Clock>(
        &self,
        rt: &R,
        client: Option<SocketAddr>,
        found: &Difference<'_>,
    ) {
        let [parameter, reported, told] = difference_fields(found);
        let client = ("client", Value::Peer(client));
        self.write(rt, Event::LinkChanged, &[client, parameter, reported, told]);
    }

    /// Logs an error.
    pub fn write_error<R: Wait + Clock>(&self, rt: &R, event: Event, error: &io::Error) {
        self.write(rt, event, &[("error", Value::Error(error))]);
    }

    /// Logs this reason.
    pub fn write_reason<R: Wait + Clock>(&self, rt: &R, event: Event, reason: &str) {
        self.write(rt, event, &[("error", Value::Text(reason))]);
    }
}

// Returns the fields that name a parameter, the value that the server reports and that of clients.
fn difference_fields<'a>(found: &Difference<'a>) -> [Field<'a>; 3] {
    [
        ("parameter", Value::Text(found.name)),
        ("reported", Value::Bytes(found.reported)),
        ("told", Value::Text(found.told)),
    ]
}
