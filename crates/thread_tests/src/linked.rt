//! Links over streams of a test.
ghost use Rattle.std.specs.Prelude.{◌≡◌, IfOk};
ghost use Rattle.pg_frames.specs.Passage.{start};

use crate::messages::LOGIN;
use node_threads::Link;
use pg_frames::MessageLimit;
use session_io::{NoListener, log_in};
use std::alloc::Global;
use std::io;
use std::io::{Read, Write};
use std::sync::Wait;
use std::test::Fail;

// A stream before which a login comes: the first write is the StartupMessage, and the first reads
// are of the server's answer to it.
#[derive(Drop)]
pub(crate) struct AfterLogin<S> {
    pub(crate) stream: S,
    is_asked: bool,
    answer: &'static [u8],
}

impl<S: Read> Read for AfterLogin<S> {
    fn read(&mut self, buffer: &mut [u8]) -> io::Result<usize> {
        if self.answer.is_empty() {
            return self.stream.read(buffer);
        }
        let count = self.answer.len().min(buffer.len());
        let (first, rest) = self.answer.split_at(count);
        buffer[..count].copy_from_slice(first);
        self.answer = rest;
        Ok(count)
    }
}

impl<S: Write> Write for AfterLogin<S> {
    fn write(&mut self, bytes: &[u8]) -> io::Result<usize> {
        if self.is_asked {
            return self.stream.write(bytes);
        }
        self.is_asked = true;
        Ok(bytes.len())
    }

    fn flush(&mut self) -> io::Result<()> {
        Ok(())
    }
}

// A link over this stream, whose messages have this limit.
pub(crate) fn link_over<R: Wait, S: Read + Write + Drop>(
    rt: &R,
    alloc: Global,
    limit: MessageLimit,
    stream: S,
) -> Result<Link<AfterLogin<S>>, Fail>
    ensures { IfOk result (λ link. link.flow ≡ start limit) }
{
    let stream = AfterLogin {
        stream,
        is_asked: false,
        answer: LOGIN,
    };
    match log_in(rt, alloc, &NoListener, limit, stream, "plain", "plain") {
        Ok(logged) => Ok(logged.link),
        Err(_) => Err(Fail::from("no login")),
    }
}
