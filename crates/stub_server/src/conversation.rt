//! A client's session over its stream.
use crate::messages::texts_of;
use crate::{Act, Server, Session, login_text};
use pg_frames::{Cutter, Frame, FrameError};
use pg_ids::ServerKey;
use std::io;
use std::io::{ErrorKind, Read, Write};
use std::sync::Wait;

// A client that is logged in: its key, its session, and what it has sent.
#[derive(Drop)]
struct Client {
    key: ServerKey,
    session: Session,
    cutter: Cutter,
}

/// Serves a client from its login to its end. `first` is what stood behind its StartupMessage.
pub(crate) fn converse<R: Wait, S: Read + Write>(
    rt: &R,
    server: &Server,
    stream: &mut S,
    first: &[u8],
) -> io::Result<()> {
    let Some(key) = server.log_in(rt) else {
        return Err(io::Error::from(ErrorKind::QuotaExceeded));
    };
    stream.write_all(login_text(server.alloc(), key)?.as_slice())?;
    let mut client = Client {
        key,
        session: Session::new(server.alloc()),
        cutter: Cutter::new(server.alloc()),
    };
    let mut fed = client.cutter.feed(first);
    let mut buffer = [0; 4096];
    for _ in rt.forever() {
        if !client.answer_all(rt, server, stream)? {
            return Ok(());
        }
        fed.map_err(fault)?;
        let count = stream.read(&mut buffer)?;
        if count == 0 {
            return Ok(());
        }
        fed = client.cutter.feed(&buffer[..count]);
    }
    unreachable!()
}

impl Client {
    // Answers each message that is whole. Whether the connection goes on.
    fn answer_all<R: Wait, S: Write>(
        &mut self,
        rt: &R,
        server: &Server,
        stream: &mut S,
    ) -> io::Result<bool> {
        for _ in rt.forever() {
            let Some(message) = self.cutter.next().map_err(fault)? else {
                return Ok(true);
            };
            let Some(answer) = self.answer(rt, server, &message)? else {
                return Ok(false);
            };
            let text = texts_of(server.alloc(), answer.as_slice())?;
            stream.write_all(text.as_slice())?;
        }
        unreachable!()
    }

    // The answer to a message, none if the connection is to be closed.
    fn answer<R: Wait>(
        &mut self,
        rt: &R,
        server: &Server,
        message: &Frame,
    ) -> io::Result<Option<Vec<Frame>>> {
        match self.session.on_message(message)? {
            Act::Reply(answer) => Ok(Some(answer)),
            Act::Hold => {
                server.hold(rt, self.key)?;
                Ok(Some(self.session.on_interrupt()?))
            }
            Act::Close => Ok(None),
        }
    }
}

// The fault of a client whose stream isn't a list of messages.
fn fault(error: FrameError) -> io::Error {
    match error {
        FrameError::Memory => io::Error::from(ErrorKind::OutOfMemory),
        FrameError::BadLength | FrameError::TooLong | FrameError::BadType => {
            io::Error::from(ErrorKind::InvalidData)
        }
    }
}
