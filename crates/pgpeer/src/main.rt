//! The program `pgpeer`: its arguments, the files and the writers are handed to `running`.
#![tactic(auto)]

use answer::{Disk, Fault, write_fault};
use running::execute;
use std::alloc::{AllocError, Global};
use std::io::{Eprint, ErrorKind, Read, Write};
use std::net::{Net, TcpListener, TcpStream};
use std::process::ExitCode;
use std::sync::Wait;
use std::thread::Threads;
use std::time::Clock;

fn main(rt: HostRuntime) -> ExitCode {
    let alloc = rt.alloc();
    let given = match arguments_given(&rt) {
        Ok(given) => given,
        Err(fault) => return failed(&rt, &fault),
    };
    let Ok(arguments) = slices(alloc, &given) else {
        return failed(&rt, &Fault::Memory);
    };
    let opener = Disk::new(&rt);
    let (mut input, mut out, mut err) = (rt.stdin(), rt.stdout(), rt.stderr());
    ExitCode::from(run(
        &rt, alloc, &arguments, &opener, &mut input, &mut out, &mut err,
    ))
}

// Does what the arguments ask for. Returns the status that the program ends with.
fn run<
    H: Net<Listener = TcpListener, Stream = TcpStream>
        + Wait
        + Threads
        + Clock
        + Eprint
        + Copy
        + Send
        + Sync
        + 'static,
    I: Read,
    O: Write,
    E: Write,
>(
    host: &H,
    alloc: Global,
    arguments: &[&str],
    opener: &Disk<'_>,
    input: &mut I,
    out: &mut O,
    err: &mut E,
) -> u8 {
    execute(host, alloc, arguments, opener, input, out, err)
}

// The arguments, without the program's name.
fn arguments_given(rt: &HostRuntime) -> Result<Vec<String>, Fault> {
    let alloc = rt.alloc();
    match std::env::args(rt) {
        Ok(arguments) => Ok(arguments.skip(1).collect(alloc)?),
        Err(error) if error.kind() == ErrorKind::InvalidData => Err(Fault::Usage(String::from_str(
            alloc,
            "error: the arguments aren't UTF-8\n",
        )?)),
        Err(_) => Err(Fault::Memory),
    }
}

fn slices(alloc: Global, given: &[String]) -> Result<Vec<&str>, AllocError> {
    let mut slices = Vec::with_capacity(alloc, given.len())?;
    for argument in given {
        slices.push(argument.as_str())?;
    }
    Ok(slices)
}

fn failed(rt: &HostRuntime, fault: &Fault) -> ExitCode {
    ExitCode::from(write_fault(rt.alloc(), &mut rt.stderr(), fault))
}
