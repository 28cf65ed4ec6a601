//! Writers that take little at a time, are interrupted, fail or can't be flushed.
ghost use Rattle.std.specs.Prelude.{◌≤◌};

use super::EMPTY;
use answer::answer;
use std::alloc::Global;
use std::io::{self, ErrorKind, Write};
use std::process::Abort;
use std::sync::Wait;

// What a writer does once it has taken all that it takes.
#[derive(Clone, Copy)]
enum End {
    // It fails.
    Fails,
    // It takes nothing.
    Takes0,
}

// How a writer takes bytes.
#[derive(Clone, Copy)]
struct Manner {
    // How many writes are interrupted first.
    interrupts: u8,
    // How many bytes a write takes at most.
    at_once: usize,
    // How many bytes it takes in all, and what then happens.
    in_all: usize,
    end: End,
    // Whether its flush fails.
    flush_fails: bool,
}

// A writer that takes all at once.
const EASY: Manner = Manner {
    interrupts: 0,
    at_once: 1000,
    in_all: 1000,
    end: End::Fails,
    flush_fails: false,
};

// A writer, what it took, and how often it was flushed.
#[derive(Drop)]
struct Outlet {
    manner: Manner,
    taken: Vec<u8>,
    flushes: u8,
}

impl Outlet {
    fn new(alloc: Global, manner: Manner) -> Outlet {
        Outlet {
            manner,
            taken: Vec::new(alloc),
            flushes: 0,
        }
    }

    // How many of that many bytes a write takes.
    fn room(&self, bytes: usize) -> usize
        ensures { result ≤ bytes }
    {
        let left = self.manner.in_all.saturating_sub(self.taken.len());
        bytes.min(left).min(self.manner.at_once)
    }
}

impl Write for Outlet {
    fn write(&mut self, buf: &[u8]) -> io::Result<usize> {
        if self.manner.interrupts > 0 {
            self.manner.interrupts -= 1;
            return Err(io::Error::from(ErrorKind::Interrupted));
        }
        let count = self.room(buf.len());
        if count == 0 {
            return match self.manner.end {
                End::Fails => Err(io::Error::from(ErrorKind::BrokenPipe)),
                End::Takes0 => Ok(0),
            };
        }
        match self.taken.extend_from_slice(buf.split_at(count).0) {
            Ok(()) => Ok(count),
            Err(_) => Err(io::Error::from(ErrorKind::OutOfMemory)),
        }
    }

    fn flush(&mut self) -> io::Result<()> {
        self.flushes = self.flushes.saturating_add(1);
        if self.manner.flush_fails {
            Err(io::Error::from(ErrorKind::BrokenPipe))
        } else {
            Ok(())
        }
    }
}

// How the writer takes bytes, whether the answer is written whole, how many bytes are taken where
// it isn't, and how often the writer is flushed.
const MANNERS: [(Manner, bool, usize, u8); 6] = [
    (EASY, true, 0, 1),
    (
        Manner {
            at_once: 1,
            interrupts: 1,
            ..EASY
        },
        true,
        0,
        1,
    ),
    (
        Manner {
            interrupts: 200,
            ..EASY
        },
        true,
        0,
        1,
    ),
    (Manner { in_all: 5, ..EASY }, false, 5, 0),
    (
        Manner {
            in_all: 5,
            at_once: 2,
            end: End::Takes0,
            ..EASY
        },
        false,
        5,
        0,
    ),
    (
        Manner {
            flush_fails: true,
            ..EASY
        },
        false,
        1000,
        1,
    ),
];

#[test]
fn standard_output(rt: HostRuntime) {
    let text = "peer 2 slot 0 secret 1 hops 3\n";
    for (manner, whole, taken, flushes) in MANNERS {
        let mut out = Outlet::new(rt.alloc(), manner);
        let mut err = Outlet::new(rt.alloc(), EASY);
        let status = told(&rt, &["key", "0008000000000007"], &mut out, &mut err);
        assert_eq!(&rt; status, if whole { 0 } else { 1 });
        expect_taken(&rt, &out, text, whole, taken, flushes);
        expect_taken(&rt, &err, "", true, 0, 0);
    }
}

#[test]
fn standard_error(rt: HostRuntime) {
    let text = "empty:0: 26 Missing\n";
    for (manner, whole, taken, flushes) in MANNERS {
        let mut out = Outlet::new(rt.alloc(), EASY);
        let mut err = Outlet::new(rt.alloc(), manner);
        let status = told(&rt, &["check", "empty"], &mut out, &mut err);
        assert_eq!(&rt; status, if whole { 2 } else { 1 });
        expect_taken(&rt, &err, text, whole, taken, flushes);
        expect_taken(&rt, &out, "", true, 0, 0);
    }
}

// The status that the program ends with.
fn told(
    rt: &(impl Wait + Alloc<A = Global>),
    words: &[&str],
    out: &mut Outlet,
    err: &mut Outlet,
) -> u8 {
    answer(rt, rt.alloc(), words, &EMPTY, out, err)
}

// The writer took the text, or that many bytes of it, and was flushed so often.
#[track_caller]
fn expect_taken(
    rt: &impl Abort,
    outlet: &Outlet,
    text: &str,
    whole: bool,
    taken: usize,
    flushes: u8,
) {
    let count = if whole {
        text.len()
    } else {
        taken.min(text.len())
    };
    assert_eq!(rt; outlet.taken.as_slice(), text.as_bytes().split_at(count).0);
    assert_eq!(rt; outlet.flushes, flushes);
}
