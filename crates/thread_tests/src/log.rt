//! What happens on the way of a request, one after the other: streams, a desk, an opener and a gate
//! that log it.
use lease::{Lease, Ticket};
use node_threads::{Desk, Gate, NoObserver, Opener, Point};
use peer_forward::Requester;
use pg_ids::{DatabaseNo, PeerNo};
use startup::Packet;
use std::alloc::Global;
use std::cell::{Cell, RefCell};
use std::io;
use std::io::{ErrorKind, Read, Write};
use std::process::Abort;
use std::sync::Wait;

// What happened.
#[derive(Clone, Copy, Debug, PartialEq, Eq)]
pub(crate) enum Event {
    Passed(Point),
    // A connection was asked for: to the server of this database, for a link or a cancel request,
    // or to this peer.
    Server(u8),
    Cancel(u8),
    Peer(u16),
    // A stream was written to: a whole packet, one byte, or this many bytes.
    Sent(Packet),
    Byte(u8),
    Part(usize),
    // The end of a stream was awaited.
    Read,
    // The byte that was seen was taken.
    TakesSeen,
    // The request of the ticket with this number was reported to a desk.
    Ended(u64),
    Failed(u64),
}

#[derive(Drop)]
pub(crate) struct Log {
    events: RefCell<Vec<Event>>,
    // Whether an event isn't among them, since there was no memory for it.
    is_short: Cell<bool>,
}

impl Log {
    pub(crate) fn new(alloc: Global) -> Log {
        Log {
            events: RefCell::new(Vec::new(alloc)),
            is_short: Cell::new(false),
        }
    }

    pub(crate) fn add(&self, event: Event) {
        if let Ok(mut events) = self.events.try_borrow_mut() {
            if events.push(event).is_err() {
                self.is_short.set(true);
            }
        }
    }
}

// Exactly these events were logged, in this order.
#[track_caller]
pub(crate) fn assert_logged(rt: &impl Abort, log: &Log, events: &[Event]) {
    assert!(rt; !log.is_short.get(), "out of memory for the log");
    if let Ok(logged) = log.events.try_borrow() {
        assert_eq!(rt; logged.as_slice(), events);
    } else {
        panic!(rt; "the log is in use");
    }
}

// What a read returns.
#[derive(Clone, Copy, Debug)]
pub(crate) enum Reply {
    End,
    Byte(u8),
    Fails,
}

// A stream that takes `room` bytes and then fails.
#[derive(Drop)]
pub(crate) struct Wire<'a> {
    log: &'a Log,
    room: usize,
    reply: Reply,
}

impl<'a> Wire<'a> {
    pub(crate) fn new(log: &'a Log, room: usize, reply: Reply) -> Wire<'a> {
        Wire { log, room, reply }
    }
}

// What was written.
fn written(bytes: &[u8]) -> Event {
    let mut short = [0; 16];
    match bytes.len() {
        1 => Event::Byte(bytes[0]),
        16 => {
            short.copy_from_slice(bytes);
            Event::Sent(Packet::Short(short))
        }
        count => Event::Part(count),
    }
}

impl Write for Wire<'_> {
    fn write(&mut self, bytes: &[u8]) -> io::Result<usize> {
        let count = self.room.min(bytes.len());
        if count == 0 {
            return Err(io::Error::from(ErrorKind::BrokenPipe));
        }
        self.room -= count;
        self.log.add(written(bytes.split_at(count).0));
        Ok(count)
    }

    fn flush(&mut self) -> io::Result<()> {
        Ok(())
    }
}

impl Read for Wire<'_> {
    fn read(&mut self, buffer: &mut [u8]) -> io::Result<usize> {
        self.log.add(Event::Read);
        match self.reply {
            Reply::End => Ok(0),
            Reply::Byte(byte) => {
                if buffer.is_empty() {
                    return Ok(0);
                }
                buffer[0] = byte;
                Ok(1)
            }
            Reply::Fails => Err(io::Error::from(ErrorKind::ConnectionReset)),
        }
    }
}

impl Requester for Wire<'_> {
    ghost use Rattle.std.specs.Prelude.{⊤};

    ghost saw = { λ _ _ _ _. ⊤ };

    ghost takes = { λ _ _. ⊤ };

    ghost resets = { λ _ _. ⊤ };

    fn peek_once(&mut self, _buffer: &mut [u8]) -> io::Result<usize> {
        Ok(0)
    }

    fn take_seen(&mut self) {
        self.log.add(Event::TakesSeen);
    }

    fn give_up(&mut self) {}
}

// A gate that logs each point.
#[derive(Drop)]
pub(crate) struct Marks<'a>(pub(crate) &'a Log);

impl Gate for Marks<'_> {
    fn pass<R: Wait>(&self, _rt: &R, point: Point) {
        self.0.add(Event::Passed(point));
    }
}

// A desk that logs the calls that hand in tickets.
#[derive(Drop)]
pub(crate) struct LoggedDesk<'a>(pub(crate) &'a Log);

impl Desk<u8> for LoggedDesk<'_> {
    ghost use Rattle.std.specs.Prelude.{⊤};

    ghost ready = { λ _. ⊤ };

    ghost told = { λ _ _ _. ⊤ };

    ghost took = { λ _ _ _. ⊤ };

    fn ended<R: Wait>(&mut self, _rt: &R, ticket: Ticket) {
        self.0.add(Event::Ended(ticket.forfeit().number));
    }

    fn failed<R: Wait>(&mut self, _rt: &R, ticket: Ticket) {
        self.0.add(Event::Failed(ticket.forfeit().number));
    }

    fn release<R: Wait>(&mut self, _rt: &R, lease: Lease<u8>)
        requires ready { ⊤ }
        ensures told { ⊤ }
        ensures took { ⊤ }
    {
        let _stream = lease.forfeit();
    }

    fn close<R: Wait>(&mut self, _rt: &R, lease: Lease<u8>)
        requires ready { ⊤ }
        ensures told { ⊤ }
        ensures took { ⊤ }
    {
        let _stream = lease.forfeit();
    }
}

// What connects to streams that take whole packets and end with this reply.
#[derive(Drop)]
pub(crate) struct Dialer<'a> {
    pub(crate) log: &'a Log,
    pub(crate) reply: Reply,
}

impl<'a> Dialer<'a> {
    fn dial(&self) -> io::Result<Wire<'a>> {
        Ok(Wire::new(self.log, 32, self.reply))
    }
}

impl<'a> Opener for Dialer<'a> {
    ghost use Rattle.std.specs.Prelude.{⊤};

    type Stream = Wire<'a>;

    type Observer = NoObserver;

    ghost connects = { λ _ _ _. ⊤ };

    ghost cancels = { λ _ _ _. ⊤ };

    ghost reaches = { λ _ _ _. ⊤ };

    fn observer(&self) -> &NoObserver {
        &NoObserver
    }

    fn server<R: Wait>(&self, _rt: &R, database: DatabaseNo) -> io::Result<Wire<'a>> {
        self.log.add(Event::Server(database.get()));
        self.dial()
    }

    fn cancel<R: Wait>(&self, _rt: &R, database: DatabaseNo) -> io::Result<Wire<'a>> {
        self.log.add(Event::Cancel(database.get()));
        self.dial()
    }

    fn peer<R: Wait>(&self, _rt: &R, peer: PeerNo) -> io::Result<Wire<'a>> {
        self.log.add(Event::Peer(peer.get()));
        self.dial()
    }
}
