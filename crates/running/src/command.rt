//! Runs the command that the arguments name.
ghost use Rattle.std.specs.Prelude.{◌≡◌, OnOk, OnErr};

use crate::loops::refuse_loops;
use crate::serving::serve;
use crate::shared::shared_text;
use crate::standing_in::stand_in;
use answer::{Fault, Opener, answer, group_of, seed_of, usage_fault, write_fault};
use command_line::{Running, ServeRequest};
use group_server::{ServeError, Unbound};
use sockets::Host;
use std::alloc::Global;
use std::io;
use std::io::{Read, Write};

// The status of a command that has succeeded, and of one that has failed.
const DONE: u8 = 0;

const FAILED: u8 = 1;

/// Runs the command that these arguments name: answers it, or runs a group of nodes or a stand-in
/// server. `input` is only read by a group that drains when it ends. Returns the program's status.
pub fn execute<H: Host, O: Opener, I: Read, W: Write, E: Write>(
    host: &H,
    alloc: Global,
    arguments: &[&str],
    opener: &O,
    input: &mut I,
    out: &mut W,
    err: &mut E,
) -> u8 {
    match Running::read(alloc, arguments) {
        Ok(Some(running)) => run(host, alloc, opener, running, input, out, err),
        Ok(None) => answer(host, alloc, arguments, opener, out, err),
        Err(wrong) => write_fault(alloc, err, &usage_fault(alloc, arguments, wrong)),
    }
}

/// Runs a group of nodes or a stand-in server, until the process is stopped or the group has
/// drained. Writes to `out` once it listens, and an error to `err`. Returns the program's status.
pub fn run<H: Host, O: Opener, I: Read, W: Write, E: Write>(
    host: &H,
    alloc: Global,
    opener: &O,
    running: Running<'_>,
    input: &mut I,
    out: &mut W,
    err: &mut E,
) -> u8 {
    let ended = match running {
        Running::Serve(request) => {
            match serve_files(host, alloc, opener, &request, input, out, err) {
                Ok(ended) => ended,
                Err(fault) => return write_fault(alloc, err, &fault),
            }
        }
        Running::Stub(request) => {
            let ended = stand_in(host, alloc, request, out);
            write_end(err, &ended, "");
            ended
        }
    };
    status_of(&ended)
}

// Returns the status for the result of a command.
fn status_of(ended: &Result<(), ServeError>) -> u8
    ensures done { OnOk ended.now (result ≡ 0) }
    ensures failed { OnErr ended.now (result ≡ 1) }
{
    match ended {
        Ok(()) => DONE,
        Err(_) => FAILED,
    }
}

// Serves the group of these settings files, and writes the error with which that ends. Fails if a
// file can't be used, or if an entry leads back to this process.
fn serve_files<H: Host, O: Opener, I: Read, W: Write, E: Write>(
    host: &H,
    alloc: Global,
    opener: &O,
    request: &ServeRequest<'_>,
    input: &mut I,
    out: &mut W,
    err: &mut E,
) -> Result<Result<(), ServeError>, Fault> {
    let group = group_of(alloc, opener, &request.files)?;
    refuse_loops(host, alloc, opener, &group, request)?;
    let seed = seed_of(alloc, opener, request.seed)?;
    let shared = shared_text(host, alloc, opener, &group, request)?;
    let ended = serve(host, alloc, group, request, seed, input, out);
    write_end(err, &ended, shared.as_str());
    Ok(ended)
}

// Writes the error with which a command ended, if there is one. `shared` names parts of it that
// listen at one address, if there are any.
fn write_end<E: Write>(err: &mut E, ended: &Result<(), ServeError>, shared: &str) {
    if let Err(error) = ended {
        let _ = write_error(err, error, shared);
    }
}

fn write_error<E: Write>(err: &mut E, error: &ServeError, shared: &str) -> io::Result<()> {
    match error {
        ServeError::Address(unbound) => {
            let Unbound {
                address,
                port,
                error,
            } = unbound;
            writeln!(err, "cannot listen {port}")?;
            writeln!(err, "{address}:{port}: {error}")?;
            if address.as_str().as_bytes().contains(&b',') {
                writeln!(err, "listen_addr is one address: a list is not supported")?;
            }
            err.write_all(shared.as_bytes())
        }
        _ => writeln!(err, "{}", error.text()),
    }
}
