//! Commands that run as a line of arguments asks, with settings files in memory.
use crate::group::await_listening;
use crate::host::TestHost;
use answer::Opener;
use command_line::Running;
use running::run;
use std::alloc::{AllocError, Global};
use std::io::{ErrorKind, Write};
use std::sync::Arc;
use std::sync::atomic::{AtomicBool, Ordering};
use std::test::Fail;
use std::{io, thread};

// The names of the settings files.
const NAMES: [&str; 3] = ["one.ini", "two.ini", "three.ini"];

// Settings files with these texts.
#[derive(Drop)]
struct Files<'a> {
    texts: &'a [String],
}

impl<'a> Opener for Files<'a> {
    ghost use Rattle.std.specs.Prelude.{⊤};

    type Reader = &'a [u8];

    ghost opens = { λ _ _ _. ⊤ };

    fn open(&self, name: &str) -> io::Result<&'a [u8]> {
        for (known, text) in NAMES.iter().zip(self.texts) {
            if *known == name {
                return Ok(text.as_bytes());
            }
        }
        Err(io::Error::from(ErrorKind::NotFound))
    }
}

// Runs what a line of arguments asks for, with settings files of these texts. Returns the status
// with which it ends, and none where the line asks for no command that runs.
pub(crate) fn run_line<R: TestHost, W: Write, E: Write>(
    rt: &R,
    line: &str,
    texts: &[String],
    out: &mut W,
    err: &mut E,
) -> Option<u8> {
    let words: Vec<&str> = line.split(' ').collect(rt.alloc()).ok()?;
    let Ok(Some(running)) = Running::read(rt.alloc(), &words) else {
        return None;
    };
    let mut input = b"".as_slice();
    Some(run(
        rt,
        rt.alloc(),
        &Files { texts },
        running,
        &mut input,
        out,
        err,
    ))
}

// A command, with the settings files that it names.
#[derive(Drop)]
pub(crate) struct Command {
    pub(crate) line: String,
    pub(crate) texts: Vec<String>,
}

// A writer that takes this text alone.
#[derive(Drop)]
struct Awaited {
    text: Vec<u8>,
    taken: usize,
    // Whether it is whole.
    is_whole: Arc<AtomicBool, Global>,
}

impl Write for Awaited {
    fn write(&mut self, bytes: &[u8]) -> io::Result<usize> {
        for byte in bytes {
            if self.text.as_slice().get(self.taken) != Some(byte) {
                self.is_whole.store(false, Ordering::SeqCst);
                return Err(io::Error::from(ErrorKind::InvalidData));
            }
            self.taken = self.taken.saturating_add(1);
        }
        if self.taken == self.text.len() {
            self.is_whole.store(true, Ordering::SeqCst);
        }
        Ok(bytes.len())
    }

    fn flush(&mut self) -> io::Result<()> {
        Ok(())
    }
}

// Runs a command in a thread of its own. It has said that it listens at this port when this
// returns.
pub(crate) fn start<R: TestHost>(rt: &R, command: Command, port: u16) -> Result<(), Fail> {
    let listens = Arc::new(rt.alloc(), AtomicBool::new(false))?;
    let awaited = Awaited {
        text: format!(in rt.alloc(); "listening {port}\n")?.into_bytes(),
        taken: 0,
        is_whole: Arc::try_clone(&listens)?,
    };
    let own = *rt;
    thread::spawn(rt, move || run_apart(&own, command, awaited)).map_err(AllocError::from)?;
    await_listening(rt, &listens)
}

fn run_apart<R: TestHost>(rt: &R, command: Command, mut out: Awaited) {
    let Command { line, texts } = command;
    let mut err = Vec::new(rt.alloc());
    let _ = run_line(rt, line.as_str(), &texts, &mut out, &mut err);
}
