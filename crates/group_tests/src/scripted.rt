//! A server that writes a script to each connection.
use crate::host::TestHost;
use std::alloc::AllocError;
use std::io::{ErrorKind, Read, Write};
use std::net::{TcpListener, TcpStream};
use std::test::Fail;
use std::{io, thread};

// What a connection writes: when its StartupMessage came, and when each message after that came. It
// is ended behind the last.
#[derive(Clone, Copy)]
pub(crate) struct Script {
    pub(crate) login: &'static [u8],
    pub(crate) answers: &'static [&'static [u8]],
}

// Starts a server at this listener whose connections write what these scripts say, one after
// another. Returns its port.
pub(crate) fn start<R: TestHost>(
    rt: &R,
    listener: TcpListener,
    scripts: &'static [Script],
) -> Result<u16, Fail> {
    let port = listener.local_addr()?.port();
    let own = *rt;
    thread::spawn(rt, move || accept(&own, &listener, scripts)).map_err(AllocError::from)?;
    Ok(port)
}

fn accept<R: TestHost>(rt: &R, listener: &TcpListener, scripts: &'static [Script]) {
    let mut scripts = scripts.iter();
    for stream in listener.incoming() {
        let (Some(script), Ok(stream)) = (scripts.next(), stream) else {
            return;
        };
        let script = *script;
        let _ = thread::spawn(rt, move || play(stream, script));
    }
}

fn play(stream: TcpStream, script: Script) {
    let _ = try_play(stream, script);
}

// Reads a first packet, and nothing of what follows it.
fn read_packet(stream: &mut TcpStream, buffer: &mut [u8]) -> io::Result<()> {
    let mut head = [0; 4];
    stream.read_exact(&mut head)?;
    let rest = (u32::from_be_bytes(head) as usize).saturating_sub(head.len());
    match buffer.get_mut(..rest) {
        Some(rest) => stream.read_exact(rest),
        None => Err(io::Error::from(ErrorKind::InvalidData)),
    }
}

fn try_play(stream: TcpStream, script: Script) -> io::Result<()> {
    let mut stream = stream;
    let mut buffer = [0; 1_024];
    read_packet(&mut stream, &mut buffer)?;
    stream.write_all(script.login)?;
    for answer in script.answers {
        stream.read(&mut buffer)?;
        stream.write_all(answer)?;
    }
    stream.read(&mut buffer)?;
    Ok(())
}
