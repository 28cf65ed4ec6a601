//! The lines of the log about a client.
use super::ClientStream;
use crate::Machine;
use startup::{ErrorCode, error_field};
use std::mem;
use telemetry::{Event, Field, Value};

// The length of a message's type byte and length field (PostgreSQL manual, "Message Formats").
const HEAD: usize = 5;

impl<'a, M: Machine> ClientStream<'a, M> {
    // Keeps the start-up packet until the client is logged in. Then the log has its parameters that
    // have no effect.
    pub(super) fn keep_packet(&mut self) {
        let packet = mem::replace(&mut self.packet, Vec::new(self.alloc));
        self.connection.keep_packet(packet);
    }

    // Logs that the first packets are refused by an error with this code.
    pub(super) fn write_refused(&self, code: ErrorCode) {
        let log = self.context.log;
        self.connection
            .write_refused(self.machine, log, self.context.node, code);
    }

    // Logs that the client isn't served for this reason, and gets an error with this code, or none.
    pub(super) fn write_unserved(&self, reason: &str, code: Option<ErrorCode>) {
        let client = self.connection.client();
        let reason = ("reason", Value::Text(reason));
        match code {
            Some(code) => {
                let message = ("message", Value::Text(code.message()));
                let code = ("code", Value::Text(code.code()));
                self.write(Event::ClientRefused, &[client, code, message, reason]);
            }
            None => self.write(Event::ClientRefused, &[client, reason]),
        }
    }

    // Logs that the server of the client's link ended it by this ErrorResponse, which the client
    // gets.
    pub(super) fn write_lost(&self, error: &[u8]) {
        let fields = [
            self.connection.client(),
            ("code", Value::Bytes(field_of(error, b'C'))),
            ("message", Value::Bytes(field_of(error, b'M'))),
        ];
        self.write(Event::LinkLost, &fields);
    }

    // Logs an event of the node that serves the client.
    fn write(&self, event: Event, fields: &[Field<'_>]) {
        let node = Some(self.context.node);
        self.context.log.write(self.machine, node, event, fields);
    }
}

// Returns this field of an ErrorResponse.
fn field_of(error: &[u8], kind: u8) -> &[u8] {
    error_field(error.get(HEAD..).unwrap_or(&[]), kind).unwrap_or(&[])
}
