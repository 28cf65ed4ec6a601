//! Which connections are served, once it is known what they ask for.
use super::{ClientStream, Serves, Stage};
use crate::connections::Begun;
use crate::limits::POLL_MILLIS;
use crate::{Machine, Unserved};
use peer_forward::Asks;
use std::os::fd::AsRawFd;
use std::time::Duration;

// What a client's session counts as, while it does.
#[derive(Clone, Copy, Debug, PartialEq, Eq)]
pub(super) enum Counted {
    // Nothing.
    Nothing,
    // A session.
    Session,
    // A session on the console.
    Console,
}

impl<'a, M: Machine> ClientStream<'a, M> {
    // Decides whether the client gets what it asks for. Its connection is no longer pending then,
    // and can't be evicted any more. Otherwise returns why it isn't served. A session never takes a
    // connection that is kept for cancel requests.
    #[inline(never)]
    pub(super) fn decide(&mut self, asks: Asks) -> Result<(), Unserved> {
        match (asks, self.context.serves) {
            (Asks::Cancel, _) => {
                if self.activate() {
                    Ok(())
                } else {
                    Err(Unserved::Evicted)
                }
            }
            (_, Serves::Cancels) => Err(Unserved::Shortage),
            (Asks::Session, Serves::All) => self.begin_session(Stage::Session, Counted::Session),
            (Asks::Console, Serves::All) => {
                if !self.context.consoles.enter() {
                    return Err(Unserved::Shortage);
                }
                let begun = self.begin_session(Stage::Console, Counted::Console);
                if begun.is_err() {
                    self.context.consoles.leave();
                }
                begun
            }
        }
    }

    // Begins a session, which counts so.
    fn begin_session(&mut self, stage: Stage, counted: Counted) -> Result<(), Unserved> {
        let limit = self.context.limit;
        match limit.begin_session(self.machine, self.context.pending) {
            Begun::Full => Err(Unserved::Shortage),
            Begun::Gone => Err(Unserved::Evicted),
            Begun::Begun => {
                self.counted = counted;
                self.stage = stage;
                // So a write to a client that doesn't read looks at its link. An error is ignored.
                let pause = Duration::from_millis(POLL_MILLIS);
                let _ = self.connection.socket().set_write_timeout(Some(pause));
                Ok(())
            }
        }
    }

    /// Ends what the client's session counts as.
    pub fn leave(&mut self) {
        let counted = self.counted;
        self.counted = Counted::Nothing;
        if counted == Counted::Console {
            self.context.consoles.leave();
        }
        if counted != Counted::Nothing {
            self.context.limit.end_session(self.machine);
        }
    }

    /// Lets the connection be evicted while it stays open, since its client was told its last
    /// error.
    pub fn linger(&mut self) {
        self.leave();
        let socket = self.connection.socket().as_raw_fd();
        if let Some(pending) = self.context.limit.linger(self.machine, socket) {
            self.context.pending = pending;
        }
    }

    // Makes the connection no longer pending. Returns false if it was evicted.
    pub(super) fn activate(&self) -> bool {
        self.context
            .limit
            .activate(self.machine, self.context.pending)
    }
}
