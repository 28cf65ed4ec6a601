//! Where one thread is held until another lets it go.
use crate::tracked::Talk;
use node_threads::{Gate, Point};
use peer_forward::{Arrival, Asks, Requester};
use startup::StartupError;
use std::io::{Read, Write};
use std::sync::Wait;
use std::sync::atomic::{AtomicBool, AtomicUsize, Ordering};
use std::{io, thread};

// How often a thread looks for another's mark before it gives up, with a yield after each look.
pub(crate) const LOOKS: u32 = 1_000_000;

// Looks for a mark. Returns whether it came.
pub(crate) fn sees(mark: &AtomicBool) -> bool {
    for _look in 0..LOOKS {
        if mark.load(Ordering::SeqCst) {
            return true;
        }
        thread::yield_now();
    }
    false
}

// Where a thread is held.
#[derive(Clone, Copy, Debug, PartialEq, Eq)]
pub(crate) enum Where {
    // At its gate.
    Point(Point),
    // Before its client is read for the nth time, from 1 on.
    Read(usize),
    // Nowhere but at the node, where its client waits for a link.
    Turn,
}

// What holds a thread in one place, until it is let go.
#[derive(Drop)]
pub(crate) struct Hold {
    place: Where,
    reached: AtomicBool,
    free: AtomicBool,
    given_up: AtomicBool,
}

impl Hold {
    pub(crate) fn new(place: Where) -> Hold {
        Hold {
            place,
            reached: AtomicBool::new(false),
            free: AtomicBool::new(false),
            given_up: AtomicBool::new(false),
        }
    }

    // Holds a thread, if this is the place.
    fn stop(&self, place: Where) {
        if self.place != place {
            return;
        }
        self.reach();
        if !sees(&self.free) {
            self.given_up.store(true, Ordering::SeqCst);
        }
    }

    // A thread is held.
    pub(crate) fn reach(&self) {
        self.reached.store(true, Ordering::SeqCst);
    }

    // Waits until a thread is held.
    pub(crate) fn await_reached(&self) {
        let _reached = sees(&self.reached);
    }

    // Whether a thread was held, and let go before it gave up.
    pub(crate) fn was_let_go(&self) -> bool {
        self.reached.load(Ordering::SeqCst) && !self.given_up.load(Ordering::SeqCst)
    }
}

// The gate of a thread that may be held.
impl Gate for Hold {
    fn pass<R: Wait>(&self, _rt: &R, point: Point) {
        self.stop(Where::Point(point));
    }
}

// A client whose thread may be held before a read.
#[derive(Drop)]
pub(crate) struct HeldClient<'a> {
    talk: Talk,
    hold: &'a Hold,
    reads: usize,
}

impl<'a> HeldClient<'a> {
    pub(crate) fn new(talk: Talk, hold: &'a Hold) -> HeldClient<'a> {
        HeldClient {
            talk,
            hold,
            reads: 0,
        }
    }
}

impl Read for HeldClient<'_> {
    fn read(&mut self, buffer: &mut [u8]) -> io::Result<usize> {
        self.reads = self.reads.wrapping_add(1);
        self.hold.stop(Where::Read(self.reads));
        self.talk.read(buffer)
    }
}

impl Write for HeldClient<'_> {
    fn write(&mut self, bytes: &[u8]) -> io::Result<usize> {
        self.talk.write(bytes)
    }

    fn flush(&mut self) -> io::Result<()> {
        self.talk.flush()
    }
}

// A session passes these points, one after the other.
const WAY: [Point; 2] = [Point::Acquired, Point::Ready];

// The gate of the thread that lets the held one go, once it has passed `Acquired` and then `Ready`.
#[derive(Drop)]
pub(crate) struct LetsGo<'a> {
    hold: &'a Hold,
    passed: AtomicUsize,
}

impl<'a> LetsGo<'a> {
    pub(crate) fn new(hold: &'a Hold) -> LetsGo<'a> {
        LetsGo {
            hold,
            passed: AtomicUsize::new(0),
        }
    }
}

impl Gate for LetsGo<'_> {
    fn pass<R: Wait>(&self, _rt: &R, point: Point) {
        let passed = self.passed.load(Ordering::SeqCst);
        if WAY.get(passed) != Some(&point) {
            return;
        }
        let passed = self.passed.fetch_add(1, Ordering::SeqCst).wrapping_add(1);
        if passed == WAY.len() {
            self.hold.free.store(true, Ordering::SeqCst);
        }
    }
}

// How far threads are: one client has a link, and keeps it until it may go, and another has asked
// for one meanwhile.
#[derive(Drop)]
pub(crate) struct Marks {
    pub(crate) has_link: AtomicBool,
    pub(crate) has_asked: AtomicBool,
    pub(crate) may_go: AtomicBool,
}

impl Marks {
    pub(crate) const fn new() -> Marks {
        Marks {
            has_link: AtomicBool::new(false),
            has_asked: AtomicBool::new(false),
            may_go: AtomicBool::new(false),
        }
    }
}

// The gate of the client that keeps its link until it may go.
impl Gate for Marks {
    fn pass<R: Wait>(&self, _rt: &R, point: Point) {
        if point == Point::Acquired {
            self.has_link.store(true, Ordering::SeqCst);
            let _may_go = sees(&self.may_go);
        }
    }
}

// A client that tells when its request is read, at the first read after it was admitted.
#[derive(Drop)]
pub(crate) struct Asking<'a> {
    talk: Talk,
    is_admitted: bool,
    marks: &'a Marks,
}

impl<'a> Asking<'a> {
    pub(crate) fn new(talk: Talk, marks: &'a Marks) -> Asking<'a> {
        Asking {
            talk,
            is_admitted: false,
            marks,
        }
    }
}

impl Read for Asking<'_> {
    fn read(&mut self, buffer: &mut [u8]) -> io::Result<usize> {
        if self.is_admitted {
            self.marks.has_asked.store(true, Ordering::SeqCst);
        }
        self.talk.read(buffer)
    }
}

impl Requester for Asking<'_> {
    ghost use Rattle.std.specs.Prelude.{⊤};

    ghost saw = { λ _ _ _ _. ⊤ };

    ghost takes = { λ _ _. ⊤ };

    ghost resets = { λ _ _. ⊤ };

    fn peek_once(&mut self, buffer: &mut [u8]) -> io::Result<usize> {
        self.talk.peek_once(buffer)
    }

    fn take_seen(&mut self) {
        self.talk.take_seen();
    }

    fn give_up(&mut self) {}
}

impl Arrival for Asking<'_> {
    ghost use Rattle.std.specs.Prelude.{⊤};

    ghost admitted = { λ _ _ _ _. ⊤ };

    ghost refused = { λ _ _ _ _. ⊤ };

    fn admits(&mut self, _asks: Asks) -> bool {
        self.is_admitted = true;
        true
    }

    fn refuse(&mut self, _error: StartupError) -> bool {
        true
    }
}

impl Write for Asking<'_> {
    fn write(&mut self, bytes: &[u8]) -> io::Result<usize> {
        self.talk.write(bytes)
    }

    fn flush(&mut self) -> io::Result<()> {
        self.talk.flush()
    }
}
