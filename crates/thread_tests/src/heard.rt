//! An observer that keeps what it is notified of, in order.
use client_state::Refusal;
use node_core::CancelRefusal;
use node_threads::{CancelOrder, LoginRefusal, Observer, Opener, Sender, SessionEnd};
use peer_forward::Verdict;
use pg_ids::{DatabaseNo, PeerNo, SlotNo};
use startup::ErrorCode;
use std::alloc::Global;
use std::cell::{Cell, RefCell};
use std::io;
use std::process::Abort;
use std::sync::Wait;

// What an observer is notified of.
#[derive(Clone, Copy, Debug, PartialEq, Eq)]
pub(crate) enum Notice {
    // With the numbers of the database and of the slot.
    LoggedIn(u8, u16),
    ConsoleLoggedIn,
    LoginRefused(ErrorCode),
    SessionEnded(Option<ErrorCode>, Option<Refusal>),
    WaitBegun,
    Waited,
    LinkOpened(u32),
    LinkGiven,
    LinkReturned,
    LinkRefusalBegun,
    // With the number of the database, and the code of the error, if it was one.
    LinkRefused(u8, Option<[u8; 5]>),
    MessageRefused(u8, Sender, usize, u32),
    // With the numbers of the peer and of the slot.
    CancelAsked(u16, u16),
    CancelUnserved,
    // The order, with the number of the database or the peer.
    CancelToServer(u8, u32),
    CancelToPeer(u16),
    CancelUnwaits,
    CancelRefused(CancelRefusal),
    CancelEnded(Verdict),
}

#[derive(Drop)]
pub(crate) struct Heard {
    notices: RefCell<Vec<Notice>>,
    // Whether something isn't there, since there was no memory for it.
    is_short: Cell<bool>,
}

impl Heard {
    pub(crate) fn new(alloc: Global) -> Heard {
        Heard {
            notices: RefCell::new(Vec::new(alloc)),
            is_short: Cell::new(false),
        }
    }

    fn add(&self, notice: Notice) {
        if let Ok(mut notices) = self.notices.try_borrow_mut() {
            if notices.push(notice).is_err() {
                self.is_short.set(true);
            }
        }
    }

    // Whether it heard exactly this, in this order.
    pub(crate) fn is(&self, expected: &[Notice]) -> bool {
        match self.notices.try_borrow() {
            Ok(notices) => !self.is_short.get() && notices.as_slice() == expected,
            Err(_) => false,
        }
    }

    // How often a client began to wait and had waited, one after the other, after its login in this
    // slot. There is none where something else comes between, where it isn't its login that comes
    // first, or where something else than this comes last.
    pub(crate) fn waits(&self, slot: u16, last: &[Notice]) -> Option<usize> {
        let Ok(notices) = self.notices.try_borrow() else {
            return None;
        };
        let rest = notices
            .as_slice()
            .strip_prefix(&[Notice::LoggedIn(0, slot)])?;
        let waits = rest.strip_suffix(last)?;
        let mut begun = false;
        for wait in waits {
            let expected = if begun {
                Notice::Waited
            } else {
                Notice::WaitBegun
            };
            if *wait != expected {
                return None;
            }
            begun = !begun;
        }
        if begun { None } else { Some(waits.len() / 2) }
    }
}

// The observer heard exactly this, in this order.
#[track_caller]
pub(crate) fn assert_heard(rt: &impl Abort, heard: &Heard, expected: &[Notice]) {
    assert!(rt; !heard.is_short.get(), "out of memory for what was heard");
    if let Ok(notices) = heard.notices.try_borrow() {
        assert_eq!(rt; notices.as_slice(), expected);
    } else {
        panic!(rt; "what was heard is in use");
    }
}

// The code of a refusal, if it is an error with one of five bytes.
fn code_of(refusal: &LoginRefusal) -> Option<[u8; 5]> {
    let code = refusal.code()?;
    let mut bytes = [0; 5];
    if code.len() != bytes.len() {
        return None;
    }
    bytes.copy_from_slice(code);
    Some(bytes)
}

impl<L> Observer<L> for Heard {
    fn logged_in(&self, database: DatabaseNo, slot: SlotNo) {
        self.add(Notice::LoggedIn(database.get(), slot.0));
    }

    fn console_logged_in(&self) {
        self.add(Notice::ConsoleLoggedIn);
    }

    fn login_refused(&self, code: ErrorCode) {
        self.add(Notice::LoginRefused(code));
    }

    fn session_ended(&self, end: SessionEnd) {
        self.add(Notice::SessionEnded(end.code, end.refusal));
    }

    fn wait_begun(&self) {
        self.add(Notice::WaitBegun);
    }

    fn waited(&self) {
        self.add(Notice::Waited);
    }

    fn link_opened(&self, _stream: &L, process: u32) {
        self.add(Notice::LinkOpened(process));
    }

    fn link_given(&self, _stream: &L) {
        self.add(Notice::LinkGiven);
    }

    fn link_returned(&self) {
        self.add(Notice::LinkReturned);
    }

    fn link_refusal_begun(&self, _stream: &L) {
        self.add(Notice::LinkRefusalBegun);
    }

    fn link_refused(&self, database: DatabaseNo, refusal: &LoginRefusal) {
        self.add(Notice::LinkRefused(database.get(), code_of(refusal)));
    }

    fn message_refused(&self, database: DatabaseNo, from: Sender, bytes: usize, limit: u32) {
        self.add(Notice::MessageRefused(database.get(), from, bytes, limit));
    }

    fn cancel_asked(&self, peer: PeerNo, slot: SlotNo) {
        self.add(Notice::CancelAsked(peer.get(), slot.0));
    }

    fn cancel_unserved(&self) {
        self.add(Notice::CancelUnserved);
    }

    fn cancel_ordered(&self, order: CancelOrder) {
        self.add(match order {
            CancelOrder::Server(database, process) => {
                Notice::CancelToServer(database.get(), process)
            }
            CancelOrder::Peer(peer) => Notice::CancelToPeer(peer.get()),
            CancelOrder::Unwait => Notice::CancelUnwaits,
            CancelOrder::Refused(refusal) => Notice::CancelRefused(refusal),
        });
    }

    fn cancel_ended(&self, verdict: Verdict) {
        self.add(Notice::CancelEnded(verdict));
    }
}

// An observer that counts, and takes no memory.
#[derive(Drop)]
pub(crate) struct Counts {
    logins: Cell<u32>,
    ends: Cell<u32>,
    given: Cell<u32>,
    returned: Cell<u32>,
    asked: Cell<u32>,
    ordered: Cell<u32>,
    finished: Cell<u32>,
}

// One more.
fn add_one(count: &Cell<u32>) {
    count.set(count.get().wrapping_add(1));
}

impl Counts {
    pub(crate) fn new() -> Counts {
        Counts {
            logins: Cell::new(0),
            ends: Cell::new(0),
            given: Cell::new(0),
            returned: Cell::new(0),
            asked: Cell::new(0),
            ordered: Cell::new(0),
            finished: Cell::new(0),
        }
    }

    // Each session that began has ended, each link was returned, and each cancel request got an
    // order and was finished.
    pub(crate) fn assert_even(&self, rt: &impl Abort) {
        assert_eq!(rt; self.logins.get(), self.ends.get());
        assert_eq!(rt; self.given.get(), self.returned.get());
        assert_eq!(rt; self.asked.get(), self.ordered.get());
        assert_eq!(rt; self.ordered.get(), self.finished.get());
    }
}

impl<L> Observer<L> for Counts {
    fn logged_in(&self, _database: DatabaseNo, _slot: SlotNo) {
        add_one(&self.logins);
    }

    fn console_logged_in(&self) {
        add_one(&self.logins);
    }

    fn session_ended(&self, _end: SessionEnd) {
        add_one(&self.ends);
    }

    fn link_given(&self, _stream: &L) {
        add_one(&self.given);
    }

    fn link_returned(&self) {
        add_one(&self.returned);
    }

    fn cancel_asked(&self, _peer: PeerNo, _slot: SlotNo) {
        add_one(&self.asked);
    }

    fn cancel_ordered(&self, _order: CancelOrder) {
        add_one(&self.ordered);
    }

    fn cancel_ended(&self, _verdict: Verdict) {
        add_one(&self.finished);
    }
}

// An opener, with this observer. Its client is gone or isn't.
#[derive(Drop)]
pub(crate) struct HeardBy<'a, O> {
    pub(crate) opener: &'a O,
    pub(crate) heard: &'a Heard,
    pub(crate) is_gone: bool,
}

impl<O: Opener> Opener for HeardBy<'_, O> {
    type Stream = O::Stream;

    type Observer = Heard;

    ghost connects = { λ by. O.connects by.opener.now };

    ghost cancels = { λ by. O.cancels by.opener.now };

    ghost reaches = { λ by. O.reaches by.opener.now };

    fn observer(&self) -> &Heard {
        self.heard
    }

    fn server<R: Wait>(&self, rt: &R, database: DatabaseNo) -> io::Result<O::Stream> {
        self.opener.server(rt, database)
    }

    fn cancel<R: Wait>(&self, rt: &R, database: DatabaseNo) -> io::Result<O::Stream> {
        self.opener.cancel(rt, database)
    }

    fn peer<R: Wait>(&self, rt: &R, peer: PeerNo) -> io::Result<O::Stream> {
        self.opener.peer(rt, peer)
    }

    fn is_gone(&self) -> bool {
        self.is_gone
    }
}
