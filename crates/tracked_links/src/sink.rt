//! What takes a client's place where the pooler itself asks a server something.
ghost use Rattle.std.specs.Prelude.{◌≡◌, ◌++◌, ℕ, List, [], IfOk};
ghost use Rattle.tracked_links.specs.Sets.{HasTaken};

use peer_forward::{ReadCalls, WriteCalls};
use std::alloc::{AllocError, Global};
use std::io;
use std::marker::Model;

// How many bytes are kept of what is written.
const KEPT: usize = 4_096;

/// Takes all that is written, keeps the first 4,096 bytes, and has nothing to read. In contracts it
/// is a `SinkView`; `HasTaken` says what it has taken.
#[derive(Drop)]
pub(crate) struct Sink {
    kept: Vec<u8>,
    // Whether more was written than is kept.
    is_over: bool,
}

impl Model for Sink {
    ghost use Rattle.tracked_links.specs.Sets.{SinkView};

    ghost Value = { SinkView };

    ghost view = { λ s. record {
      kept = s.kept.items;
      is_over = s.is_over;
    } };
}

impl Sink {
    /// One to which nothing was written. It takes its memory here.
    pub(crate) fn new(alloc: Global) -> Result<Sink, AllocError>
        ensures { IfOk result (λ sink. HasTaken sink []) }
    {
        Ok(Sink {
            kept: Vec::with_capacity(alloc, KEPT)?,
            is_over: false,
        })
    }

    /// What is kept of what was written.
    pub(crate) fn kept(&self) -> &[u8]
        ensures { result.now ≡ self.now.kept }
    {
        self.kept.as_slice()
    }

    /// Whether more was written.
    pub(crate) fn is_over(&self) -> bool
        ensures { result ≡ self.now.is_over }
    {
        self.is_over
    }

    // Takes these bytes, and keeps what there is room for, unless something was left out before.
    fn take(&mut self, bytes: &[u8])
        ensures { (text : List ℕ) → HasTaken self.old text → HasTaken self.new (text ++ bytes.now) }
    {
        if self.is_over {
            return;
        }
        let count = bytes.len().min(KEPT.saturating_sub(self.kept.len()));
        if self
            .kept
            .extend_from_slice(bytes.split_at(count).0)
            .is_err()
        {
            self.is_over = true;
            return;
        }
        self.is_over = count < bytes.len();
    }
}

impl WriteCalls for Sink {
    ghost use Rattle.tracked_links.specs.Sets.{Takes};

    ghost wrote = { Takes };

    fn write_once(&mut self, bytes: &[u8]) -> io::Result<usize> {
        self.take(bytes);
        Ok(bytes.len())
    }
}

impl ReadCalls for Sink {
    ghost use Rattle.tracked_links.specs.Sets.{GivesNothing};

    ghost gave = { GivesNothing };

    fn read_once(&mut self, _buffer: &mut [u8]) -> io::Result<usize> {
        Ok(0)
    }
}
