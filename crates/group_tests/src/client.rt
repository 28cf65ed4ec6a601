//! A client over TCP, whose reads don't wait.
use crate::host::TestHost;
use crate::messages::{CANCEL, GREETING, IDLE, KEY, LONG_CANCEL, LONG_KEY, STARTUP, joined, query};
use std::io::{ErrorKind, Read, Write};
use std::net::TcpStream;
use std::test::Fail;
use std::thread;
use std::time::Duration;

// How many turns a test waits for an answer. A turn is a sleep of a millisecond and one read.
pub(crate) const TURNS: u32 = 20_000;

// How many turns a cancel request is after the one before it. One that comes before its query runs
// has no effect.
const TURNS_A_CANCEL: u32 = 500;

// How many bytes are read at once.
const MAX_READ: usize = 1_024;

// How far a client reads.
#[derive(Clone, Copy)]
pub(crate) enum Until<'a> {
    // Until what came ends with these bytes.
    Bytes(&'a [u8]),
    // Until the connection is ended.
    End,
}

impl Until<'_> {
    fn is_reached(&self, got: &[u8], at_end: bool) -> bool {
        match self {
            Until::Bytes(bytes) => got.ends_with(bytes),
            Until::End => at_end,
        }
    }
}

// Whether these bytes stand somewhere among others.
fn contains(got: &[u8], bytes: &[u8]) -> bool {
    for start in 0..got.len() {
        if got.split_at(start).1.starts_with(bytes) {
            return true;
        }
    }
    false
}

// How a connection was closed behind these bytes. A client gets out of memory before its
// greeting alone, and of a lost server where the stand-in server closed its link.
fn closed(got: &[u8]) -> &'static str {
    if !contains(got, b"SFATAL\0") {
        "the connection was closed"
    } else if got
        .split_at(got.len().min(5))
        .1
        .starts_with(b"SFATAL\0VFATAL\0C53200\0")
    {
        "the connection was closed: out of memory"
    } else if contains(got, b"SFATAL\0VFATAL\0C08006\0") {
        "the connection was closed: a server was lost"
    } else {
        "the connection was closed by an error"
    }
}

// A cancel request for a key, to the node at a port.
#[derive(Drop)]
pub(crate) struct Cancel {
    port: u16,
    packet: Vec<u8>,
}

impl Cancel {
    pub(crate) fn new<R: TestHost>(rt: &R, port: u16, key: &[u8]) -> Result<Cancel, Fail> {
        let head = if key.len() == 8 { CANCEL } else { LONG_CANCEL };
        let packet = joined(rt.alloc(), &[head, key])?;
        Ok(Cancel { port, packet })
    }

    // Sends it over a connection of its own, whose answer is still to be read.
    pub(crate) fn send<R: TestHost>(&self, rt: &R) -> Result<Client, Fail> {
        let mut client = Client::connect(rt, self.port)?;
        client.send(self.packet.as_slice())?;
        Ok(client)
    }
}

// A client, whose connection is closed when it is dropped.
#[derive(Drop)]
pub(crate) struct Client {
    stream: TcpStream,
}

impl Client {
    pub(crate) fn connect<R: TestHost>(rt: &R, port: u16) -> Result<Client, Fail> {
        let stream = TcpStream::connect(rt, ("127.0.0.1", port))?;
        stream.set_nodelay(true)?;
        stream.set_nonblocking(true)?;
        Ok(Client { stream })
    }

    // A client of the database `shop`, that is logged in.
    pub(crate) fn log_in<R: TestHost>(rt: &R, port: u16) -> Result<(Client, Vec<u8>), Fail> {
        Client::log_in_by(rt, port, STARTUP, 8)
    }

    // A client that is logged in by this StartupMessage, and its key, which has this length.
    pub(crate) fn log_in_by<R: TestHost>(
        rt: &R,
        port: u16,
        startup: &[u8],
        length: usize,
    ) -> Result<(Client, Vec<u8>), Fail> {
        let mut client = Client::connect(rt, port)?;
        client.send(startup)?;
        let key = client.greeted(rt, b"", length)?;
        Ok((client, key))
    }

    // A client of the database `shop` that is logged in, and whose login has these messages before
    // its key.
    pub(crate) fn log_in_told<R: TestHost>(
        rt: &R,
        port: u16,
        told: &[u8],
    ) -> Result<(Client, Vec<u8>), Fail> {
        let mut client = Client::connect(rt, port)?;
        client.send(STARTUP)?;
        let key = client.greeted(rt, told, 8)?;
        Ok((client, key))
    }

    // Reads the greeting of a login, which has these messages before its key, and returns the key,
    // which has this length.
    fn greeted<R: TestHost>(
        &mut self,
        rt: &R,
        told: &[u8],
        length: usize,
    ) -> Result<Vec<u8>, Fail> {
        let head = if length == 8 { KEY } else { LONG_KEY };
        let got = self.read(rt, Until::Bytes(IDLE), None)?;
        let start = joined(rt.alloc(), &[GREETING, told, head])?;
        let rest = got
            .as_slice()
            .strip_prefix(start.as_slice())
            .ok_or("no greeting")?;
        let key = rest.strip_suffix(IDLE).ok_or("no end of a greeting")?;
        assert_eq!(rt; key.len(), length);
        Ok(Vec::from_slice(rt.alloc(), key)?)
    }

    // Its own port, by which a log names it.
    pub(crate) fn port(&self) -> Result<u16, Fail> {
        Ok(self.stream.local_addr()?.port())
    }

    pub(crate) fn send(&mut self, bytes: &[u8]) -> Result<(), Fail> {
        Ok(self.stream.write_all(bytes)?)
    }

    pub(crate) fn ask<R: TestHost>(&mut self, rt: &R, text: &str) -> Result<(), Fail> {
        let query = query(rt.alloc(), text)?;
        self.send(query.as_slice())
    }

    // Reads until that. A request that is given is made now and then meanwhile.
    pub(crate) fn read<R: TestHost>(
        &mut self,
        rt: &R,
        until: Until<'_>,
        meanwhile: Option<&Cancel>,
    ) -> Result<Vec<u8>, Fail> {
        let mut got = Vec::new(rt.alloc());
        for turn in 0..TURNS {
            if let Some(cancel) = meanwhile {
                if turn % TURNS_A_CANCEL == 0 {
                    let _ = cancel.send(rt)?;
                }
            }
            thread::sleep(rt, Duration::from_millis(1));
            let at_end = self.look(&mut got)?;
            if until.is_reached(got.as_slice(), at_end) {
                return Ok(got);
            }
            if at_end {
                return Err(Fail::from(closed(got.as_slice())));
            }
        }
        Err(Fail::from("no answer within the limit of turns"))
    }

    // Reads once, and appends what came. Whether the connection was ended.
    fn look(&mut self, got: &mut Vec<u8>) -> Result<bool, Fail> {
        let mut buffer = [0; MAX_READ];
        match self.stream.read(&mut buffer) {
            Ok(count) => {
                got.extend_from_slice(&buffer[..count])?;
                Ok(count == 0)
            }
            Err(error) if error.kind() == ErrorKind::WouldBlock => Ok(false),
            Err(error) => Err(Fail::from(error)),
        }
    }

    // The next bytes are these.
    pub(crate) fn expect<R: TestHost>(
        &mut self,
        rt: &R,
        answer: &[&[u8]],
        meanwhile: Option<&Cancel>,
    ) -> Result<(), Fail> {
        let expected = joined(rt.alloc(), answer)?;
        let last = answer.last().copied().unwrap_or(b"");
        let got = self.read(rt, Until::Bytes(last), meanwhile)?;
        assert_eq!(rt; got.as_slice(), expected.as_slice());
        Ok(())
    }

    // Nothing comes for this many turns.
    pub(crate) fn expect_nothing<R: TestHost>(&mut self, rt: &R, turns: u32) -> Result<(), Fail> {
        let mut got = Vec::new(rt.alloc());
        for _turn in 0..turns {
            thread::sleep(rt, Duration::from_millis(1));
            assert!(rt; !self.look(&mut got)?);
        }
        assert_eq!(rt; got.as_slice(), b"".as_slice());
        Ok(())
    }

    // A query has this answer.
    pub(crate) fn expect_answer<R: TestHost>(
        &mut self,
        rt: &R,
        text: &str,
        answer: &[&[u8]],
    ) -> Result<(), Fail> {
        self.ask(rt, text)?;
        self.expect(rt, answer, None)
    }

    // The connection is reset, and nothing came before.
    pub(crate) fn expect_reset<R: TestHost>(&mut self, rt: &R) -> Result<(), Fail> {
        let mut buffer = [0; MAX_READ];
        for _turn in 0..TURNS {
            thread::sleep(rt, Duration::from_millis(1));
            match self.stream.read(&mut buffer) {
                Ok(0) => return Err(Fail::from("the connection was closed")),
                Ok(_) => return Err(Fail::from("a byte came")),
                Err(error) if error.kind() == ErrorKind::WouldBlock => {}
                Err(error) if error.kind() == ErrorKind::ConnectionReset => return Ok(()),
                Err(error) => return Err(Fail::from(error)),
            }
        }
        Err(Fail::from("no end within the limit of turns"))
    }

    // The connection is ended after these bytes.
    pub(crate) fn expect_end<R: TestHost>(&mut self, rt: &R, last: &[u8]) -> Result<(), Fail> {
        let got = self.read(rt, Until::End, None)?;
        assert_eq!(rt; got.as_slice(), last);
        Ok(())
    }
}
