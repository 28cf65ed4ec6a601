//! Writers whose single calls can be named in contracts. Each of std's writers is one, known by the
//! bytes that it holds where it knows them; a writer that lists its calls is known by that list.
ghost use Rattle.std.specs.Prelude.{◌≡◌, ◌↔◌, ℕ, true, List, Option, Result, ⊤};
ghost use Rattle.std.specs.Io.{WritesAtMost};
ghost use Rattle.std.specs.Io.KnownBytes.{Keeps, WriteAppends};
ghost use Rattle.std.specs.declared.io.Error.{Error};
ghost use Rattle.std.specs.IoError.{error_kind};
ghost use Rattle.std.specs.declared.io.ErrorKind.TheVariants.{Interrupted};

use std::io::{self, Error, ErrorKind, Write};

/// What an answer is written to, call by call.
pub trait Output {
    /// The bytes that it holds, where they are known.
    ghost holds: { Self → Option (List ℕ) };

    /// What a write of these bytes with this result makes of it.
    ghost wrote: { Self → List ℕ → Result ℕ Error → Self → Type 0 };

    /// What a flush with this result makes of it.
    ghost flushed: { Self → Result ⊤ Error → Self → Type 0 };

    /// One write. It returns how many of the bytes were taken.
    fn write_once(&mut self, bytes: &[u8]) -> io::Result<usize>
        ensures bound { WritesAtMost result bytes.now }
        ensures bytes { WriteAppends (holds self.old) (holds self.new) result bytes.now }
        ensures call { wrote self.old bytes.now result self.new };

    /// One flush.
    fn flush_once(&mut self) -> io::Result<()>
        ensures bytes { Keeps (holds self.old) (holds self.new) }
        ensures call { flushed self.old result self.new };
}

impl<T: Write> Output for T {
    ghost holds = { λ writer. T.contents writer };

    ghost wrote = { λ old bytes result new.
        WriteAppends (T.contents old) (T.contents new) result bytes };

    ghost flushed = { λ old _ new. Keeps (T.contents old) (T.contents new) };

    fn write_once(&mut self, bytes: &[u8]) -> io::Result<usize> {
        self.write(bytes)
    }

    fn flush_once(&mut self) -> io::Result<()> {
        self.flush()
    }
}

/// Whether a call was only interrupted, so that it is made again.
pub(crate) fn is_interrupted(error: &Error) -> bool
    ensures { (result ≡ true) ↔ (error_kind error.now ≡ Interrupted) }
{
    error.kind() == ErrorKind::Interrupted
}
