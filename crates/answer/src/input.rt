//! Readers whose single calls can be named in contracts. Each of std's readers is one, known by the
//! bytes that it has left where it knows them; a reader that lists its calls is known by that list.
ghost use Rattle.std.specs.Prelude.{ℕ, List, Option, Result};
ghost use Rattle.std.specs.Io.{ReadsAtMost};
ghost use Rattle.std.specs.Io.KnownBytes.{ReadConsumes};
ghost use Rattle.std.specs.declared.io.Error.{Error};

use std::io;
use std::io::Read;

/// What a file is read from, call by call.
pub trait Input {
    /// The bytes that it has left, where they are known.
    ghost left: { Self → Option (List ℕ) };

    /// What a read that left this in its buffer, with this result, makes of it.
    ghost gave: { Self → List ℕ → Result ℕ Error → Self → Type 0 };

    /// One read. It returns how many bytes it gave, none at the end.
    fn read_once(&mut self, buffer: &mut [u8]) -> io::Result<usize>
        ensures bound { ReadsAtMost result buffer.new }
        ensures bytes { ReadConsumes (left self.old) (left self.new) result buffer.new }
        ensures call { gave self.old buffer.new result self.new };
}

impl<T: Read> Input for T {
    ghost left = { λ reader. T.remaining reader };

    ghost gave = { λ old buffer result new.
        ReadConsumes (T.remaining old) (T.remaining new) result buffer };

    fn read_once(&mut self, buffer: &mut [u8]) -> io::Result<usize> {
        self.read(buffer)
    }
}
