//! What the log and the metrics say of a client's connection while it is served.
use super::lines::{NO_SEAT, reason_of};
use super::{ClientDialer, Target};
use client_state::Refusal;
use node_threads::{CancelOrder, LoginRefusal, Observer, Sender, SessionEnd};
use peer_forward::Verdict;
use pg_ids::{DatabaseNo, PeerNo, SlotNo};
use sockets::{CancelEnd, LinkStream, Machine};
use startup::ErrorCode;

impl<'a, M: Machine> ClientDialer<'a, M> {
    /// The connection was served. Its cancel request may have been given up.
    #[inline(never)]
    pub fn finish(&self, is_given_up: bool) {
        self.connection.meter().finish(&self.dialer.machine);
        if is_given_up {
            self.write_cancel_end(None);
        }
    }

    // Counts how a session has ended, but one on the console: with this error, if any, and for this
    // reason if that is known.
    #[inline(never)]
    fn count_end(&self, code: Option<ErrorCode>, refusal: Option<Refusal>) {
        if self.database.get().is_none() {
            return;
        }
        let meter = self.connection.meter();
        match (code, refusal) {
            (Some(code), Some(refusal)) => {
                meter.count_end(Some(code.code()), Some(refusal.name()));
            }
            (Some(code), None) => meter.count_end(Some(code.code()), None),
            (None, _) => meter.count_end(None, None),
        }
    }

    // Counts a cancel request that became this, if it was for a peer and failed.
    fn count_forward(&self, verdict: Verdict) {
        if CancelEnd::of(Some(verdict)) == CancelEnd::Failed {
            self.count_failure(self.target.get());
        }
    }

    // Counts a cancel request that was sent there, if anywhere, and failed.
    fn count_failure(&self, target: Option<Target>) {
        if let Some(target) = target {
            self.count_failure_at(target);
        }
    }

    fn count_failure_at(&self, target: Target) {
        match target {
            Target::Server(..) => {}
            Target::Peer(peer) => self.connection.meter().fail_forward(peer),
        }
    }
}

impl<'a, M: Machine> Observer<LinkStream<M>> for ClientDialer<'a, M> {
    fn logged_in(&self, database: DatabaseNo, slot: SlotNo) {
        self.database.set(Some(database));
        let address = self.connection.address();
        self.connection
            .meter()
            .log_in(&self.dialer.machine, address, database, slot);
        self.write_dropped();
    }

    fn console_logged_in(&self) {
        let address = self.connection.address();
        self.connection
            .meter()
            .log_in_on_console(&self.dialer.machine, address);
        self.write_dropped();
    }

    fn login_refused(&self, code: ErrorCode) {
        self.write_refused(code);
    }

    // A session that its client has left ends without an error, and isn't logged, nor one that ends
    // since the group drains.
    fn session_ended(&self, end: SessionEnd) {
        let has_left = lost_link(&end) && self.connection.is_gone();
        let code = if has_left { None } else { end.code };
        self.count_end(code, end.refusal);
        let Some(code) = code else {
            return;
        };
        if code == ErrorCode::AdminShutdown {
            return;
        }
        match end.refusal {
            Some(refusal) => self.write_session_end(code, Some(refusal.name())),
            None => self.write_session_end(code, None),
        }
    }

    fn wait_begun(&self) {
        self.connection.meter().begin_wait(&self.dialer.machine);
    }

    fn waited(&self) {
        self.connection.meter().wait();
    }

    fn link_opened(&self, stream: &LinkStream<M>, process: u32) {
        self.connection
            .meter()
            .open_link(&self.dialer.machine, stream.row(), process);
    }

    fn link_given(&self, stream: &LinkStream<M>) {
        self.connection.retries().forget();
        stream.attach(self.connection.descriptor(), self.connection.address());
        self.connection.set_link(Some(stream.descriptor()));
        if let Some(database) = stream.database() {
            self.connection
                .meter()
                .begin(&self.dialer.machine, database, stream.row());
        }
    }

    fn link_returned(&self) {
        self.connection.set_link(None);
        self.connection.meter().end(&self.dialer.machine);
    }

    fn link_refusal_begun(&self, stream: &LinkStream<M>) {
        stream.begin_refusal();
    }

    fn link_refused(&self, database: DatabaseNo, refusal: &LoginRefusal) {
        if is_for_now(refusal) {
            self.connection.retries().note_refused();
        }
        self.dialer.write_refusal(database, refusal);
    }

    fn message_refused(&self, database: DatabaseNo, from: Sender, bytes: usize, limit: u32) {
        self.dialer.write_too_long(database, from, bytes, limit);
    }

    fn cancel_asked(&self, _peer: PeerNo, slot: SlotNo) {
        self.slot.set(Some(slot));
    }

    // `finish` logs how it has ended.
    fn cancel_unserved(&self) {
        self.write_cancel_refused(NO_SEAT);
    }

    fn cancel_ordered(&self, order: CancelOrder) {
        match order {
            CancelOrder::Server(database, process) => {
                self.target.set(Some(Target::Server(database, process)));
            }
            CancelOrder::Peer(peer) => self.target.set(Some(Target::Peer(peer))),
            CancelOrder::Unwait => {}
            CancelOrder::Refused(refusal) => self.write_cancel_refused(reason_of(refusal)),
        }
    }

    fn cancel_ended(&self, verdict: Verdict) {
        self.count_forward(verdict);
        self.write_cancel_end(Some(verdict));
    }
}

// Whether a session has ended since it lost its link, or got none. It does so too if its client leaves.
fn lost_link(end: &SessionEnd) -> bool {
    end.code == Some(ErrorCode::ConnectionFailure)
        && matches!(end.refusal, None | Some(Refusal::LinkLost))
}

// Whether a server refuses a login because it starts or stops, or has no connection left (PostgreSQL
// manual, "PostgreSQL Error Codes").
fn is_for_now(refusal: &LoginRefusal) -> bool {
    match refusal.code() {
        Some(code) => code == b"57P03".as_slice() || code == b"53300".as_slice(),
        None => false,
    }
}
