//! A stream that plays one side of a conversation in any thread, and what becomes of such streams.
use crate::talk::{Turn, is_error, is_out_of_memory};
use node_threads::{NoObserver, Opener};
use peer_forward::{Arrival, Asks, Requester};
use pg_ids::{DatabaseNo, PeerNo};
use startup::StartupError;
use std::alloc::{AllocError, Global};
use std::io;
use std::io::{ErrorKind, Read, Write};
use std::sync::atomic::{AtomicU64, Ordering};
use std::sync::{Arc, Wait};

// How many streams there were: made, closed, closed with all their turns taken; how often one was
// written what it doesn't take; and how many cancel requests were given up.
#[derive(Clone, Copy, Debug, PartialEq, Eq)]
pub(crate) struct Ends {
    pub(crate) made: u64,
    pub(crate) closed: u64,
    pub(crate) done: u64,
    pub(crate) strayed: u64,
    pub(crate) given_up: u64,
}

// Counts the ends of streams, in any thread.
#[derive(Drop)]
pub(crate) struct Tracker {
    made: AtomicU64,
    closed: AtomicU64,
    done: AtomicU64,
    strayed: AtomicU64,
    given_up: AtomicU64,
}

impl Tracker {
    pub(crate) fn new(alloc: Global) -> Result<Arc<Tracker, Global>, AllocError> {
        let tracker = Tracker {
            made: AtomicU64::new(0),
            closed: AtomicU64::new(0),
            done: AtomicU64::new(0),
            strayed: AtomicU64::new(0),
            given_up: AtomicU64::new(0),
        };
        Ok(Arc::new(alloc, tracker)?)
    }

    pub(crate) fn ends(&self) -> Ends {
        Ends {
            made: self.made.load(Ordering::SeqCst),
            closed: self.closed.load(Ordering::SeqCst),
            done: self.done.load(Ordering::SeqCst),
            strayed: self.strayed.load(Ordering::SeqCst),
            given_up: self.given_up.load(Ordering::SeqCst),
        }
    }
}

// One more.
fn add_one(count: &AtomicU64) {
    count.fetch_add(1, Ordering::SeqCst);
}

// A side of a conversation. A write that isn't its turn fails, and a read finds the end of the
// input. It is closed when it is dropped.
pub(crate) struct Talk {
    turns: &'static [Turn],
    // What is left to take of a turn that began.
    takes: &'static [u8],
    // What is left to give of one.
    gives: &'static [u8],
    // Whether it took anything.
    has_taken: bool,
    tracker: Arc<Tracker, Global>,
}

impl Drop for Talk {
    fn drop(self) {
        add_one(&self.tracker.closed);
        if self.takes.is_empty() && self.gives.is_empty() && self.turns.is_empty() {
            add_one(&self.tracker.done);
        }
        let Talk {
            turns: _,
            takes: _,
            gives: _,
            has_taken: _,
            tracker: _,
        } = self;
    }
}

impl Talk {
    // A stream that takes these turns.
    pub(crate) fn new(
        tracker: &Arc<Tracker, Global>,
        turns: &'static [Turn],
    ) -> Result<Talk, AllocError> {
        let tracker = Arc::try_clone(tracker)?;
        add_one(&tracker.made);
        Ok(Talk {
            turns,
            takes: b"",
            gives: b"",
            has_taken: false,
            tracker,
        })
    }

    fn next(&mut self) -> Option<Turn> {
        let turn = self.turns.first()?;
        self.turns = self.turns.split_at(1).1;
        Some(*turn)
    }

    // Takes the bytes, if it is their turn.
    fn take(&mut self, bytes: &[u8]) -> bool {
        if self.takes.is_empty()
            && let Some(Turn::TakesError(fields)) = self.turns.first()
        {
            if !is_error(bytes, fields) {
                return false;
            }
            self.turns = self.turns.split_at(1).1;
            return true;
        }
        if self.takes.is_empty()
            && let Some(Turn::TakesLength(length)) = self.turns.first()
        {
            if bytes.len() != *length {
                return false;
            }
            self.turns = self.turns.split_at(1).1;
            return true;
        }
        for byte in bytes {
            if !self.take_byte(*byte) {
                return false;
            }
        }
        true
    }

    fn take_byte(&mut self, byte: u8) -> bool {
        if self.takes.is_empty() {
            match self.next() {
                Some(Turn::Takes(text)) => self.takes = text,
                _ => return false,
            }
        }
        if self.takes.first() != Some(&byte) {
            return false;
        }
        self.takes = self.takes.split_at(1).1;
        true
    }
}

impl Read for Talk {
    fn read(&mut self, buffer: &mut [u8]) -> io::Result<usize> {
        self.begin()?;
        let count = self.copy(buffer);
        self.gives = self.gives.get(count..).unwrap_or(b"");
        Ok(count.min(buffer.len()))
    }
}

impl Talk {
    // Begins to give a text, if it is its turn.
    fn begin(&mut self) -> io::Result<()> {
        if !self.takes.is_empty() || !self.gives.is_empty() {
            return Ok(());
        }
        match self.turns.first() {
            Some(Turn::Breaks) => {
                self.turns = self.turns.split_at(1).1;
                Err(io::Error::from(ErrorKind::ConnectionReset))
            }
            Some(Turn::Gives(text)) => {
                self.gives = *text;
                self.turns = self.turns.split_at(1).1;
                Ok(())
            }
            _ => Ok(()),
        }
    }

    // Copies what is to be given next, and returns how many bytes.
    fn copy(&self, buffer: &mut [u8]) -> usize {
        let count = self.gives.len().min(buffer.len());
        buffer
            .split_at_mut(count)
            .0
            .copy_from_slice(self.gives.split_at(count).0);
        count
    }
}

impl Requester for Talk {
    ghost use Rattle.std.specs.Prelude.{⊤};

    ghost saw = { λ _ _ _ _. ⊤ };

    ghost takes = { λ _ _. ⊤ };

    ghost resets = { λ _ _. ⊤ };

    fn peek_once(&mut self, buffer: &mut [u8]) -> io::Result<usize> {
        self.begin()?;
        let count = self.copy(buffer);
        Ok(count.min(buffer.len()))
    }

    fn take_seen(&mut self) {
        self.gives = self.gives.get(1..).unwrap_or(b"");
    }

    // What it was to give is lost.
    fn give_up(&mut self) {
        self.gives = b"";
        add_one(&self.tracker.given_up);
    }
}

impl Arrival for Talk {
    ghost use Rattle.std.specs.Prelude.{⊤};

    ghost admitted = { λ _ _ _ _. ⊤ };

    ghost refused = { λ _ _ _ _. ⊤ };

    fn admits(&mut self, _asks: Asks) -> bool {
        true
    }

    fn refuse(&mut self, _error: StartupError) -> bool {
        true
    }
}

impl Write for Talk {
    fn write(&mut self, bytes: &[u8]) -> io::Result<usize> {
        if self.take(bytes) {
            self.has_taken = true;
            return Ok(bytes.len());
        }
        // Where memory was refused a client may be told so before its greeting.
        if self.has_taken || !is_out_of_memory(bytes) {
            add_one(&self.tracker.strayed);
        }
        Err(io::Error::from(ErrorKind::BrokenPipe))
    }

    fn flush(&mut self) -> io::Result<()> {
        Ok(())
    }
}

// What connects to servers and poolers that take these turns. Without turns it can't connect.
#[derive(Drop)]
pub(crate) struct Dialer<'a> {
    pub(crate) tracker: &'a Arc<Tracker, Global>,
    pub(crate) turns: &'static [Turn],
}

impl Dialer<'_> {
    fn dial(&self) -> io::Result<Talk> {
        if self.turns.is_empty() {
            return Err(io::Error::from(ErrorKind::ConnectionRefused));
        }
        Ok(Talk::new(self.tracker, self.turns)?)
    }
}

impl Opener for Dialer<'_> {
    ghost use Rattle.std.specs.Prelude.{⊤};

    type Stream = Talk;

    type Observer = NoObserver;

    ghost connects = { λ _ _ _. ⊤ };

    ghost cancels = { λ _ _ _. ⊤ };

    ghost reaches = { λ _ _ _. ⊤ };

    fn observer(&self) -> &NoObserver {
        &NoObserver
    }

    fn server<R: Wait>(&self, _rt: &R, _database: DatabaseNo) -> io::Result<Talk> {
        self.dial()
    }

    fn cancel<R: Wait>(&self, _rt: &R, _database: DatabaseNo) -> io::Result<Talk> {
        self.dial()
    }

    fn peer<R: Wait>(&self, _rt: &R, _peer: PeerNo) -> io::Result<Talk> {
        self.dial()
    }
}
