//! Streams whose single calls can be named in contracts. Each of std's readers and writers is one,
//! known by its bytes where it knows them; a stream that lists its calls is known by that list.
ghost use Rattle.std.specs.Prelude.{ℕ, List, Result};
ghost use Rattle.std.specs.Io.{ReadsAtMost, WritesAtMost};
ghost use Rattle.std.specs.Io.KnownBytes.{ReadConsumes, WriteAppends};
ghost use Rattle.std.specs.declared.io.Error.{Error};

use std::io;
use std::io::{Read, Write};

/// A stream that is written call by call.
pub trait WriteCalls {
    /// What a write of these bytes with this result makes of the stream.
    ghost wrote: { Self → List ℕ → Result ℕ Error → Self → Type 0 };

    /// One write. It returns how many of the bytes were taken.
    fn write_once(&mut self, bytes: &[u8]) -> io::Result<usize>
        ensures bound { WritesAtMost result bytes.now }
        ensures call { wrote self.old bytes.now result self.new };
}

/// A stream that is read call by call.
pub trait ReadCalls {
    /// What a read that left this in its buffer, with this result, makes of the stream.
    ghost gave: { Self → List ℕ → Result ℕ Error → Self → Type 0 };

    /// One read. It returns how many bytes it gave, none at the end of the input.
    fn read_once(&mut self, buffer: &mut [u8]) -> io::Result<usize>
        ensures bound { ReadsAtMost result buffer.new }
        ensures call { gave self.old buffer.new result self.new };
}

impl<T: Write> WriteCalls for T {
    ghost wrote = { λ old bytes result new.
        WriteAppends (T.contents old) (T.contents new) result bytes };

    #[inline(always)]
    fn write_once(&mut self, bytes: &[u8]) -> io::Result<usize> {
        self.write(bytes)
    }
}

impl<T: Read> ReadCalls for T {
    ghost gave = { λ old buffer result new.
        ReadConsumes (T.remaining old) (T.remaining new) result buffer };

    #[inline(always)]
    fn read_once(&mut self, buffer: &mut [u8]) -> io::Result<usize> {
        self.read(buffer)
    }
}
