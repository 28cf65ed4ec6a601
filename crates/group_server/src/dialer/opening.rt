//! Opens connections to servers and peers.
use super::lines::{peer_fields, server_fields};
use super::{ClientDialer, Dialer, find_peer};
use crate::limits::{CANCEL_CONNECT_MILLIS, CANCEL_END_MILLIS, LOGIN_MILLIS, RETRY_LOOK_MILLIS};
use ini_config::Settings;
use node_threads::Opener;
use pg_ids::{DatabaseNo, PeerNo};
use sockets::{Deadline, Inspector, LinkStream, Machine, connect};
use std::alloc::Global;
use std::io::ErrorKind;
use std::sync::{Arc, Wait};
use std::time::Duration;
use std::{io, thread};
use telemetry::{Event, Field, LinkRow};

impl<M: Machine> Dialer<M> {
    // Connects to the server of a database for a link. The time limit includes the login.
    fn open_link(&self, settings: &Settings, database: DatabaseNo) -> io::Result<LinkStream<M>> {
        let Some(entry) = settings.database(database) else {
            return Err(io::Error::from(ErrorKind::NotFound));
        };
        let fields = server_fields(&entry);
        let row = self.add_row(database);
        let deadline = Deadline::after(&self.machine, LOGIN_MILLIS)?;
        let socket = match connect(&self.machine, entry.host, entry.port, deadline) {
            Ok(socket) => socket,
            Err(error) => {
                self.write_error(settings, Event::LinkConnectFailed, &fields, &error);
                return Err(error);
            }
        };
        let origin = self.origin(settings, &fields)?;
        let inspector = Inspector::of_link(self.alloc, origin, &self.reports)?;
        let mut stream = LinkStream::new(
            self.machine,
            self.alloc,
            socket,
            deadline,
            inspector,
            Some(database),
        )?;
        stream.keep_row(row);
        Ok(stream)
    }

    // Adds the row of a link of this database that begins to be opened, if anything is counted.
    fn add_row(&self, database: DatabaseNo) -> Option<Arc<LinkRow, Global>> {
        let counters = self.counters.as_ref()?;
        let now = self.machine.monotonic().ok()?;
        let row = LinkRow::new(usize::from(database.get()), now);
        counters.board().add_link(&self.machine, row)
    }

    // Connects to this address for a cancel request. The fields name it in the log.
    fn open_cancel(
        &self,
        settings: &Settings,
        host: &str,
        port: u16,
        fields: &[Field<'_>],
    ) -> io::Result<LinkStream<M>> {
        let deadline = Deadline::after(&self.machine, CANCEL_CONNECT_MILLIS)?;
        let socket = match connect(&self.machine, host, port, deadline) {
            Ok(socket) => socket,
            Err(error) => {
                self.write_error(settings, Event::CancelConnectFailed, fields, &error);
                return Err(error);
            }
        };
        let end = Deadline::after(&self.machine, CANCEL_END_MILLIS)?;
        let inspector = Inspector::of_cancel(self.origin(settings, fields)?);
        LinkStream::new(self.machine, self.alloc, socket, end, inspector, None)
    }
}

impl<'a, M: Machine> ClientDialer<'a, M> {
    // Waits that long. Returns false as soon as the client has left.
    fn pause(&self, pause: Duration) -> bool {
        let mut left = pause;
        for _ in 0..u64::MAX {
            if self.connection.is_gone() {
                return false;
            }
            if left.is_zero() {
                return true;
            }
            let part = left.min(Duration::from_millis(RETRY_LOOK_MILLIS));
            thread::sleep(&self.dialer.machine, part);
            left = left.saturating_sub(part);
        }
        false
    }
}

impl<'a, M: Machine> Opener for ClientDialer<'a, M> {
    ghost use Rattle.std.specs.Prelude.{⊤};

    type Stream = LinkStream<M>;

    type Observer = ClientDialer<'a, M>;

    // No contract says what a socket is connected to.
    ghost connects = { λ _ _ _. ⊤ };

    ghost cancels = { λ _ _ _. ⊤ };

    ghost reaches = { λ _ _ _. ⊤ };

    fn observer(&self) -> &ClientDialer<'a, M> {
        self
    }

    fn server<R: Wait>(&self, _rt: &R, database: DatabaseNo) -> io::Result<LinkStream<M>> {
        self.connection.meter().open(&self.dialer.machine, database);
        let opened = self.dialer.open_link(self.dialer.settings()?, database);
        if let Err(error) = &opened {
            if error.kind() == ErrorKind::ConnectionRefused {
                self.connection.retries().note_refused();
            }
        }
        opened
    }

    // A server is tried again while it takes no connections for now, unless the client leaves.
    fn tries_again<R: Wait>(&self, _rt: &R, _database: DatabaseNo) -> bool {
        let retries = self.connection.retries();
        let again = match retries.next_pause(&self.dialer.machine, self.dialer.server_wait) {
            Some(pause) => self.pause(pause),
            None => false,
        };
        if !again {
            retries.forget();
        }
        again
    }

    fn cancel<R: Wait>(&self, _rt: &R, database: DatabaseNo) -> io::Result<LinkStream<M>> {
        self.connection.meter().know(database);
        let settings = self.dialer.settings()?;
        let Some(entry) = settings.database(database) else {
            return Err(io::Error::from(ErrorKind::NotFound));
        };
        let fields = server_fields(&entry);
        self.dialer
            .open_cancel(settings, entry.host, entry.port, &fields)
    }

    fn peer<R: Wait>(&self, _rt: &R, peer: PeerNo) -> io::Result<LinkStream<M>> {
        let settings = self.dialer.settings()?;
        let Some(entry) = find_peer(settings, peer) else {
            return Err(io::Error::from(ErrorKind::NotFound));
        };
        let fields = peer_fields(&entry);
        self.dialer
            .open_cancel(settings, entry.host, entry.port, &fields)
    }

    fn is_quiet(&self, stream: &LinkStream<M>) -> bool {
        stream.is_quiet()
    }

    fn is_gone(&self) -> bool {
        self.connection.is_gone()
    }
}
