//! Streams in memory that are read in given pieces.
use peer_forward::{Arrival, Asks, Requester};
use startup::StartupError;
use std::alloc::{AllocError, Global};
use std::io;
use std::io::{Read, Write};

// A stream that is read in these pieces to its end, and takes everything.
#[derive(Drop)]
pub(crate) struct Wire<'a> {
    pieces: &'a [&'a [u8]],
    piece: usize,
    offset: usize,
    taken: Vec<u8>,
}

// How many bytes a stream has memory for from the start.
const ROOM: usize = 4_096;

impl<'a> Wire<'a> {
    pub(crate) fn new(alloc: Global, pieces: &'a [&'a [u8]]) -> Result<Wire<'a>, AllocError> {
        Ok(Wire {
            pieces,
            piece: 0,
            offset: 0,
            taken: Vec::with_capacity(alloc, ROOM)?,
        })
    }

    // What it took.
    pub(crate) fn taken(&self) -> &[u8] {
        self.taken.as_slice()
    }
}

impl Requester for Wire<'_> {
    ghost use Rattle.std.specs.Prelude.{⊤};

    ghost saw = { λ _ _ _ _. ⊤ };

    ghost takes = { λ _ _. ⊤ };

    ghost resets = { λ _ _. ⊤ };

    fn peek_once(&mut self, buffer: &mut [u8]) -> io::Result<usize> {
        let count = self.copy(buffer);
        Ok(count.min(buffer.len()))
    }

    fn take_seen(&mut self) {
        self.pass(1);
    }

    fn give_up(&mut self) {}
}

impl Arrival for Wire<'_> {
    ghost use Rattle.std.specs.Prelude.{⊤};

    ghost admitted = { λ _ _ _ _. ⊤ };

    ghost refused = { λ _ _ _ _. ⊤ };

    fn admits(&mut self, _asks: Asks) -> bool {
        true
    }

    fn refuse(&mut self, _error: StartupError) -> bool {
        true
    }
}

impl Wire<'_> {
    // Copies what comes next, and returns how many bytes.
    fn copy(&self, buf: &mut [u8]) -> usize {
        let Some(piece) = self.pieces.get(self.piece) else {
            return 0;
        };
        let rest = piece.split_at(self.offset.min(piece.len())).1;
        let count = rest.len().min(buf.len());
        buf.split_at_mut(count)
            .0
            .copy_from_slice(rest.split_at(count).0);
        count
    }

    // Goes on behind so many bytes of the piece that comes next.
    fn pass(&mut self, count: usize) {
        let Some(piece) = self.pieces.get(self.piece) else {
            return;
        };
        self.offset = self.offset.saturating_add(count);
        if self.offset >= piece.len() {
            self.piece = self.piece.saturating_add(1);
            self.offset = 0;
        }
    }
}

impl Read for Wire<'_> {
    fn read(&mut self, buf: &mut [u8]) -> io::Result<usize> {
        let count = self.copy(buf);
        self.pass(count);
        Ok(count.min(buf.len()))
    }
}

impl Write for Wire<'_> {
    fn write(&mut self, buf: &[u8]) -> io::Result<usize> {
        self.taken.extend_from_slice(buf)?;
        Ok(buf.len())
    }

    fn flush(&mut self) -> io::Result<()> {
        Ok(())
    }
}
