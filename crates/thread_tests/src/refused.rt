//! Clients, cancel requests and the console of a node, while one allocation may be refused, as
//! `tools/refused_memory` does it: what each gets then, and that nothing stays held. A connection
//! that is refused memory gets less than all, and no other does.
use crate::calls::{assert_spent, calls_of};
use crate::heard::Counts;
use crate::messages::{
    BEGIN, BEGUN, COMMIT, COMMITTED, IDLE, LOGIN, OPEN, QUERY, ROW, STARTUP, TERMINATE, WELCOME,
};
use crate::shown::{CONSOLE, SHOW_CLIENTS};
use crate::story::{NODE, SEED, calling, serve};
use crate::talk::is_out_of_memory;
use crate::wire::Wire;
use locked_node::{CallAnswer, Caller};
use node_threads::{Calling, Gate, Open, Opener, Point};
use pg_ids::{Boot, DatabaseNo, PeerNo};
use std::alloc::{AllocError, Global};
use std::cell::{Cell, RefCell};
use std::io;
use std::io::{ErrorKind, Read, Write};
use std::process::Abort;
use std::sync::{Arc, Wait};
use std::test::Fail;

// How many clients come, one after another.
const CLIENTS: u32 = 3;

// BackendKeyData, up to the eight bytes of its key.
const KEY: &[u8] = b"K\0\0\0\x0c";

const KEY_LENGTH: usize = 8;

// The answer to a group: ParseComplete, BindComplete, NoData, CommandComplete.
const GROUP_DONE: &[u8] = b"1\0\0\0\x04\
    2\0\0\0\x04\
    n\0\0\0\x04\
    C\0\0\0\x0bVACUUM\0";

// A client that sends a group in two parts, has a transaction, and leaves.
const ASKS: &[&[u8]] = &[
    STARTUP,
    b"P\0\0\0\x0e\0vacuum\0\0\0B\0\0",
    b"\0\x0c\0\0\0\0\0\0\0\0D\0\0\0\x06P\0E\0\0\0\x09\0\0\0\0\0S\0\0\0\x04",
    BEGIN,
    QUERY,
    COMMIT,
    TERMINATE,
];

// What it reads behind its key: first, and then of its transactions, of which the first is the
// group.
const TRANSACTIONS: [&[&[u8]]; 3] = [
    &[IDLE],
    &[GROUP_DONE, IDLE],
    &[BEGUN, OPEN, ROW, OPEN, COMMITTED, IDLE],
];

// A client of the console, which asks once.
const LOOKS: &[&[u8]] = &[CONSOLE, SHOW_CLIENTS, TERMINATE];

// The end of the console's answer.
const SHOWN: &[u8] = b"C\0\0\0\x09SHOW\0Z\0\0\0\x05I";

// Requests with the keys of the first three clients, as in `keys`, and one with a key of peer 3.
const REQUESTS: [&[&[u8]]; 4] = [
    &[b"\0\0\0\x10\x04\xd2\x16\x2e\0\x08\0\x03\x45\xd6\xc9\x53"],
    &[b"\0\0\0\x10\x04\xd2\x16\x2e\0\x08\0\0\x5f\x61\x95\x33"],
    &[b"\0\0\0\x10\x04\xd2\x16\x2e\0\x08\0\x02\x66\x93\x0d\x2b"],
    &[b"\0\0\0\x10\x04\xd2\x16\x2e\0\x0c\0\0\0\0\0\x07"],
];

// How many of them are carried while a client has a link: its own, and the peer's.
const CARRIED: u32 = 2;

// How long a request is.
const REQUEST_LENGTH: usize = 16;

// What a server sends: the login, and the answers to a client's requests.
const ANSWERS: &[&[u8]] = &[
    LOGIN, GROUP_DONE, IDLE, BEGUN, OPEN, ROW, OPEN, COMMITTED, IDLE,
];

// Where the answers to a client's requests begin.
const FIRST_ANSWER: usize = 1;

// A server or a peer, which is read in these pieces to its end, and takes everything. Each client's
// first request is a group, so that a Parse begins the answers again: a client that is refused
// memory between two requests leaves its server connection to the next one.
#[derive(Drop)]
pub(crate) struct Server {
    pieces: &'static [&'static [u8]],
    // How many pieces were read, and how many bytes it took.
    given: usize,
    taken: usize,
    // How many requests were taken whole and ended.
    ended: Arc<Cell<u32>, Global>,
}

impl Read for Server {
    fn read(&mut self, buffer: &mut [u8]) -> io::Result<usize> {
        let Some(piece) = self.pieces.get(self.given) else {
            if self.taken == REQUEST_LENGTH {
                self.ended.set(self.ended.get().wrapping_add(1));
            }
            return Ok(0);
        };
        if piece.len() > buffer.len() {
            return Err(io::Error::from(ErrorKind::InvalidInput));
        }
        let count = piece.len();
        buffer[..count].copy_from_slice(piece);
        self.given = self.given.saturating_add(1);
        Ok(count)
    }
}

impl Write for Server {
    fn write(&mut self, bytes: &[u8]) -> io::Result<usize> {
        self.taken = self.taken.saturating_add(bytes.len());
        if bytes.first() == Some(&b'P') {
            self.given = FIRST_ANSWER;
        }
        Ok(bytes.len())
    }

    fn flush(&mut self) -> io::Result<()> {
        Ok(())
    }
}

// What connects to servers, and to peers and servers that end a cancel request cleanly.
#[derive(Drop)]
pub(crate) struct Servers {
    ended: Arc<Cell<u32>, Global>,
    counts: Counts,
}

impl Servers {
    pub(crate) fn new(alloc: Global) -> Result<Servers, AllocError> {
        let ended = Arc::new(alloc, Cell::new(0))?;
        let counts = Counts::new();
        Ok(Servers { ended, counts })
    }

    // The same, with counts of its own.
    fn again(&self) -> Result<Servers, AllocError> {
        let ended = Arc::try_clone(&self.ended)?;
        let counts = Counts::new();
        Ok(Servers { ended, counts })
    }

    // How many requests have ended cleanly.
    fn ended(&self) -> u32 {
        self.ended.get()
    }

    fn connect(&self, pieces: &'static [&'static [u8]]) -> io::Result<Server> {
        let ended = Arc::try_clone(&self.ended)?;
        Ok(Server {
            pieces,
            given: 0,
            taken: 0,
            ended,
        })
    }
}

impl Opener for Servers {
    ghost use Rattle.std.specs.Prelude.{⊤};

    type Stream = Server;

    type Observer = Counts;

    ghost connects = { λ _ _ _. ⊤ };

    ghost cancels = { λ _ _ _. ⊤ };

    ghost reaches = { λ _ _ _. ⊤ };

    fn observer(&self) -> &Counts {
        &self.counts
    }

    fn server<R: Wait>(&self, _rt: &R, _database: DatabaseNo) -> io::Result<Server> {
        self.connect(ANSWERS)
    }

    fn cancel<R: Wait>(&self, _rt: &R, _database: DatabaseNo) -> io::Result<Server> {
        self.connect(&[])
    }

    fn peer<R: Wait>(&self, _rt: &R, _peer: PeerNo) -> io::Result<Server> {
        self.connect(&[])
    }
}

// What a connection got.
#[derive(Clone, Copy, Debug, PartialEq, Eq)]
enum Got {
    // All that it asked for.
    Whole,
    // What it may get where memory was refused.
    Part,
    // Something else.
    Other,
}

// What is left behind the next of these messages, and whether all of them were there.
fn behind<'a>(taken: &'a [u8], messages: &[&[u8]]) -> (&'a [u8], bool) {
    let mut rest = taken;
    for message in messages {
        let Some(next) = rest.strip_prefix(*message) else {
            return (rest, false);
        };
        rest = next;
    }
    (rest, true)
}

// How many transactions a client has the whole answer of, by what it took behind its key; none if
// it took anything else than answers, to the end of a message. A session ends without an error.
fn transactions(taken: &[u8]) -> Option<u32> {
    let mut rest = taken;
    let mut whole = 0u32;
    for messages in TRANSACTIONS {
        let (left, is_whole) = behind(rest, messages);
        rest = left;
        if !is_whole {
            break;
        }
        whole = whole.wrapping_add(1);
    }
    if rest.is_empty() {
        whole.checked_sub(1)
    } else {
        None
    }
}

// What follows the key of a greeting.
pub(crate) fn behind_key(taken: &[u8]) -> Option<&[u8]> {
    let key = taken.strip_prefix(WELCOME)?;
    let key = key.strip_prefix(KEY)?;
    let (_key, rest) = key.split_at_checked(KEY_LENGTH)?;
    Some(rest)
}

// How many transactions a client had. One that isn't greeted gets the error of out of memory, or
// nothing.
fn transactions_of<R: Abort>(rt: &R, taken: &[u8]) -> u32 {
    if taken.is_empty() || is_out_of_memory(taken) {
        return 0;
    }
    let found = match behind_key(taken) {
        Some(rest) => transactions(rest),
        None => None,
    };
    match found {
        Some(found) => found,
        None => panic!(rt; "a client took {taken:?}"),
    }
}

// What a client of the console got.
fn got_by_console(taken: &[u8]) -> Got {
    if taken.is_empty() || is_out_of_memory(taken) {
        return Got::Part;
    }
    let (rest, is_greeted) = behind(taken, &[WELCOME, IDLE]);
    if !is_greeted {
        return Got::Other;
    }
    if rest.is_empty() {
        return Got::Part;
    }
    if rest.first() == Some(&b'T') && rest.ends_with(SHOWN) {
        return Got::Whole;
    }
    Got::Other
}

// A connection, which is read in these pieces, is served with this gate. Returns what it took, and
// none where there is no memory for it.
pub(crate) fn visit<R: Wait, G: Gate>(
    rt: &R,
    alloc: Global,
    calling: &mut Calling<Server>,
    servers: &Servers,
    gate: &G,
    pieces: &'static [&'static [u8]],
) -> Option<Wire<'static>> {
    let Ok(mut client) = Wire::new(alloc, pieces) else {
        return None;
    };
    serve(rt, alloc, calling, servers, gate, &mut client);
    Some(client)
}

// How many requests the node gave an order for.
fn orders<S: Drop>(caller: &Caller<S>) -> u128 {
    calls_of(caller, CallAnswer::Served).wrapping_add(calls_of(caller, CallAnswer::Forwarded))
}

// The gate of the clients: each time that one has a link the requests come.
#[derive(Drop)]
struct Requests {
    alloc: Global,
    servers: Servers,
    calling: RefCell<Calling<Server>>,
    // How many requests weren't carried that would have been with memory enough, and how many got
    // what they shouldn't.
    lacking: Cell<u32>,
    other: Cell<u32>,
}

impl Requests {
    fn new(alloc: Global, servers: Servers, calling: Calling<Server>) -> Requests {
        Requests {
            alloc,
            servers,
            calling: RefCell::new(calling),
            lacking: Cell::new(0),
            other: Cell::new(0),
        }
    }

    // One request comes. Returns whether it was carried and ended cleanly. It takes nothing then;
    // the byte E where its order wasn't carried out; and where there is no order the error of out
    // of memory, or nothing.
    fn come<R: Wait>(
        &self,
        rt: &R,
        calling: &mut Calling<Server>,
        pieces: &'static [&'static [u8]],
    ) -> bool {
        let (ordered, ended) = (orders(calling.caller()), self.servers.ended());
        let Some(requester) = visit(rt, self.alloc, calling, &self.servers, &Open, pieces) else {
            return false;
        };
        let taken = requester.taken();
        let has_ended = self.servers.ended() != ended;
        let is_right = if has_ended {
            taken.is_empty()
        } else if orders(calling.caller()) != ordered {
            taken == b"E".as_slice()
        } else {
            taken.is_empty() || is_out_of_memory(taken)
        };
        if !is_right {
            self.other.set(self.other.get().wrapping_add(1));
        }
        has_ended
    }

    fn come_all<R: Wait>(&self, rt: &R, calling: &mut Calling<Server>) {
        let mut carried = 0u32;
        for pieces in REQUESTS {
            if self.come(rt, calling, pieces) {
                carried = carried.wrapping_add(1);
            }
        }
        let lacking = CARRIED.wrapping_sub(carried);
        self.lacking.set(self.lacking.get().wrapping_add(lacking));
    }

    // Who made their calls.
    fn into_calling(self) -> Calling<Server> {
        let Requests { calling, .. } = self;
        calling.into_inner()
    }
}

impl Gate for Requests {
    fn pass<R: Wait>(&self, rt: &R, point: Point) {
        if point != Point::Acquired {
            return;
        }
        if let Ok(mut calling) = self.calling.try_borrow_mut() {
            self.come_all(rt, &mut calling);
        }
    }
}

// The clients come. Returns how many transactions they had, and how many clients had less than two.
fn come<R: Wait + Abort>(
    rt: &R,
    alloc: Global,
    calling: &mut Calling<Server>,
    servers: &Servers,
    gate: &Requests,
) -> (u32, u32) {
    let (mut whole, mut lacking) = (0u32, 0u32);
    for _i in 0..CLIENTS {
        let had = match visit(rt, alloc, calling, servers, gate, ASKS) {
            Some(client) => transactions_of(rt, client.taken()),
            None => 0,
        };
        whole = whole.wrapping_add(had);
        if had < 2 {
            lacking = lacking.wrapping_add(1);
        }
    }
    (whole, lacking)
}

// A link is given back by a client that had the whole answer alone: else it is closed.
#[track_caller]
fn assert_closed<S: Drop>(rt: &impl Abort, caller: &Caller<S>, whole: u32) {
    let idle = calls_of(caller, CallAnswer::ReleasedIdle);
    let quarantined = calls_of(caller, CallAnswer::ReleasedQuarantined);
    let released = idle.wrapping_add(quarantined);
    assert!(rt; released <= u128::from(whole), "{released} of {whole}");
}

// A ticket is reported as ended exactly where the request has ended cleanly at the server. Those of
// peers have no ticket.
fn assert_reported<S: Drop>(rt: &impl Abort, caller: &Caller<S>, ended: u32) {
    let settled = calls_of(caller, CallAnswer::EndedCounted);
    let forwarded = calls_of(caller, CallAnswer::Forwarded);
    let ended = u128::from(ended);
    assert!(rt; settled <= ended && ended <= settled.wrapping_add(forwarded));
}

// What a client of the console gets.
fn look<R: Wait + Abort>(
    rt: &R,
    alloc: Global,
    calling: &mut Calling<Server>,
    servers: &Servers,
) -> Got {
    match visit(rt, alloc, calling, servers, &Open, LOOKS) {
        Some(client) => got_by_console(client.taken()),
        None => Got::Part,
    }
}

fn assert_served<R: Wait + Abort>(
    rt: &R,
    alloc: Global,
    mut calling: Calling<Server>,
    servers: &Servers,
    gate: Requests,
) {
    let (whole, lacking) = come(rt, alloc, &mut calling, servers, &gate);
    let got = look(rt, alloc, &mut calling, servers);
    assert!(rt; got != Got::Other, "the console's client");
    let unseen = u32::from(got == Got::Part);
    let unsettled = gate.lacking.get();
    let short = lacking.wrapping_add(unseen).wrapping_add(unsettled);
    assert!(rt;
        short <= 1,
        "{lacking} clients, {unseen} of the console, {unsettled} requests"
    );
    assert_eq!(rt; gate.other.get(), 0);
    assert_closed(rt, calling.caller(), whole);
    assert_spent(rt, calling.caller());
    servers.counts.assert_even(rt);
    gate.servers.counts.assert_even(rt);
    let requests = gate.into_calling();
    assert_reported(rt, requests.caller(), servers.ended());
    assert_spent(rt, requests.caller());
}

#[test]
fn little_is_lost(rt: HostRuntime) -> Result<(), Fail> {
    let mut calling = calling(rt.alloc(), NODE, SEED, Boot(9))?;
    let servers = Servers::new(rt.alloc())?;
    let theirs = servers.again()?;
    let Some(second) = calling.split() else {
        return Err(Fail::from(AllocError));
    };
    let gate = Requests::new(rt.alloc(), theirs, second);
    assert_served(&rt, rt.alloc(), calling, &servers, gate);
    Ok(())
}
