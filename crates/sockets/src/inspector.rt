//! Inspects what a server or a peer sends.
use crate::origin::Origin;
use link_state::Watch;
use startup::Reports;
use std::alloc::{AllocError, Global};
use std::cell::Cell;
use std::io;
use std::io::ErrorKind;
use std::net::SocketAddr;
use std::sync::Wait;
use std::time::Clock;
use telemetry::Event;

/// Inspects what a server or a peer sends on one connection: the log gets the reason if a link or a
/// cancel request fails, and no link is used whose server reports another value than clients get.
#[derive(Drop)]
pub struct Inspector {
    origin: Origin,
    stage: Stage,
    // Whether a client has or had the link. Its login is over then.
    is_used: Cell<bool>,
    // Compares what the server of a link reports with what clients get.
    watch: Option<Watch>,
    // Whether its failure was logged, or is logged by whoever hears why the login failed.
    is_logged: Cell<bool>,
}

// What a connection is for.
#[derive(Drop)]
enum Stage {
    // A link that no client has had yet.
    Login,
    // A link that a client has or had.
    Link,
    // A cancel request.
    Cancel,
}

impl Inspector {
    /// Returns the inspector of a link, whose server has to report no other values than these.
    pub fn of_link(
        alloc: Global,
        origin: Origin,
        reports: &Reports,
    ) -> Result<Inspector, AllocError> {
        let watch = if reports.is_empty() {
            None
        } else {
            Some(Watch::new(alloc, reports)?)
        };
        Ok(Inspector {
            origin,
            stage: Stage::Login,
            is_used: Cell::new(false),
            watch,
            is_logged: Cell::new(false),
        })
    }

    /// Returns the inspector of a connection for a cancel request.
    pub fn of_cancel(origin: Origin) -> Inspector {
        Inspector {
            origin,
            stage: Stage::Cancel,
            is_used: Cell::new(false),
            watch: None,
            is_logged: Cell::new(false),
        }
    }

    /// A client gets the link.
    pub fn attach(&self) {
        self.is_used.set(true);
    }

    /// The server refuses the login, and why is logged once more of that came. From now on nothing is
    /// logged here.
    pub fn silence(&self) {
        self.is_logged.set(true);
    }

    // Leaves the stage of the login once a client has the link.
    fn end_login(&mut self) {
        if self.is_used.get() && matches!(self.stage, Stage::Login) {
            self.stage = Stage::Link;
        }
    }

    /// Returns whether it is the inspector of a link that a client has or had.
    #[inline]
    pub fn is_of_used_link(&self) -> bool {
        matches!(self.stage, Stage::Link)
    }

    /// Returns whether it compares what the server reports with what clients get.
    #[inline]
    pub fn is_watching(&self) -> bool {
        self.watch.is_some()
    }

    /// Compares what the server reports in these received bytes with what clients get.
    pub fn watch(&mut self, bytes: &[u8]) {
        if let Some(watch) = &mut self.watch {
            watch.read(bytes);
        }
    }

    /// Returns whether the server reports another value than clients get.
    #[inline]
    pub fn differs(&self) -> bool {
        match &self.watch {
            Some(watch) => watch.differs().is_some(),
            None => false,
        }
    }

    /// Inspects received bytes. Fails if they belong to a login and the server reports another value
    /// than clients get.
    pub fn inspect<R: Wait + Clock>(&mut self, rt: &R, bytes: &[u8]) -> io::Result<()> {
        self.end_login();
        self.watch(bytes);
        match self.stage {
            Stage::Login => self.check_login(rt),
            Stage::Link => Ok(()),
            Stage::Cancel => {
                self.log_reason(rt, "a byte came before the end");
                Ok(())
            }
        }
    }

    // Fails if the server reports another value than clients get.
    fn check_login<R: Wait + Clock>(&self, rt: &R) -> io::Result<()> {
        if self.is_logged.get() {
            return Ok(());
        }
        if let Some(watch) = &self.watch {
            if let Some(difference) = watch.differs() {
                self.is_logged.set(true);
                self.origin.write_difference(rt, &difference);
                return Err(io::Error::from(ErrorKind::InvalidData));
            }
        }
        Ok(())
    }

    /// The peer has closed the connection.
    pub fn end<R: Wait + Clock>(&mut self, rt: &R) {
        self.end_login();
        match self.stage {
            Stage::Cancel => {}
            _ => self.log_reason(rt, "the server ended the connection"),
        }
    }

    /// A read or a write failed.
    pub fn fail<R: Wait + Clock>(&mut self, rt: &R, error: &io::Error) {
        self.end_login();
        // The client has closed its connection.
        if error.kind() == ErrorKind::ConnectionAborted || self.is_logged.get() {
            return;
        }
        self.is_logged.set(true);
        self.origin.write_error(rt, self.event(), error);
    }

    /// Logs why the link is closed before it is used again. The client with this address had it last.
    pub fn close<R: Wait + Clock>(&self, rt: &R, client: Option<SocketAddr>) {
        if let Some(watch) = &self.watch {
            if let Some(difference) = watch.differs() {
                self.origin.write_change(rt, client, &difference);
                return;
            }
        }
        let reason = "the server ended the connection, or sent what nobody asked for";
        self.origin.write_reason(rt, Event::LinkClosed, reason);
    }

    // Logs why the connection failed, once.
    fn log_reason<R: Wait + Clock>(&mut self, rt: &R, reason: &str) {
        if !self.is_logged.get() {
            self.is_logged.set(true);
            self.origin.write_reason(rt, self.event(), reason);
        }
    }

    // Returns the event of its failure.
    fn event(&self) -> Event {
        match self.stage {
            Stage::Login => Event::LinkLoginFailed,
            Stage::Link => Event::LinkLost,
            Stage::Cancel => Event::CancelFailed,
        }
    }
}
