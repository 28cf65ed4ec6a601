//! What an observer hears of sessions and their ends.
use crate::heard::{Heard, HeardBy, Notice, assert_heard};
use crate::messages::{LOGIN, PROCESS, QUERY, STARTUP, Script, TERMINATE};
use crate::shown::CONSOLE;
use crate::story::{NODE, SEED, calling, serve_within};
use crate::talk::Turn;
use crate::tracked::{Dialer, Talk, Tracker};
use client_state::Refusal;
use node_threads::{Calling, Gate, Open, Sender};
use pg_frames::MessageLimit;
use pg_ids::Boot;
use startup::ErrorCode;
use std::alloc::{AllocError, Global};
use std::process::Abort;
use std::sync::{Arc, Wait};
use std::test::Fail;

// The limit of a message.
const LIMIT: u32 = 8_192;

// The fields with which the errors 0A000, 08P01 and 08006 begin.
const UNSUPPORTED: &[u8] = b"SFATAL\0VFATAL\0C0A000\0";

const VIOLATION: &[u8] = b"SFATAL\0VFATAL\0C08P01\0";

pub(crate) const FAILURE: &[u8] = b"SFATAL\0VFATAL\0C08006\0";

// What a connection's two sides do, and what its observer hears.
#[derive(Clone, Copy)]
pub(crate) struct Case {
    pub(crate) script: Script,
    // Whether its client is gone when it could have a link.
    pub(crate) is_gone: bool,
    pub(crate) notices: &'static [Notice],
}

// What became of a connection's streams, and what its observer heard.
#[derive(Drop)]
pub(crate) struct Watched {
    tracker: Arc<Tracker, Global>,
    heard: Heard,
}

impl Watched {
    pub(crate) fn new(alloc: Global) -> Result<Watched, AllocError> {
        Ok(Watched {
            tracker: Tracker::new(alloc)?,
            heard: Heard::new(alloc),
        })
    }

    // A connection is served.
    pub(crate) fn serve<R: Wait, G: Gate>(
        &self,
        rt: &R,
        alloc: Global,
        calling: &mut Calling<Talk>,
        gate: &G,
        case: &Case,
    ) {
        let dialer = Dialer {
            tracker: &self.tracker,
            turns: case.script.server,
        };
        let opener = HeardBy {
            opener: &dialer,
            heard: &self.heard,
            is_gone: case.is_gone,
        };
        let limit = MessageLimit::new(LIMIT).unwrap_or(MessageLimit::DEFAULT);
        if let Ok(mut client) = Talk::new(&self.tracker, case.script.client) {
            serve_within(rt, alloc, calling, &opener, gate, &mut client, &limit);
        }
    }

    // Both sides did what the case says, and the observer heard that.
    pub(crate) fn assert(&self, rt: &impl Abort, case: &Case) {
        assert_heard(rt, &self.heard, case.notices);
        assert_eq!(rt; self.tracker.ends().strayed, 0);
    }
}

// A connection is served at a new node.
fn assert_case<R: Wait + Abort>(rt: &R, alloc: Global, case: &Case) -> Result<(), Fail> {
    let mut calling = calling(alloc, NODE, SEED, Boot(9))?;
    let watched = Watched::new(alloc)?;
    watched.serve(rt, alloc, &mut calling, &Open, case);
    watched.assert(rt, case);
    Ok(())
}

// A client that does this once it has logged in, which takes 103 bytes, without a link; or with
// one, whose server does this once it has taken a query.
macro_rules! case {
    ($($turn:expr),*; $code:expr, $refusal:expr) => {
        Case {
            script: Script {
                client: &[Turn::Gives(STARTUP), Turn::TakesLength(103), $($turn,)*],
                server: &[],
            },
            is_gone: false,
            notices: &[Notice::LoggedIn(0, 0), Notice::SessionEnded($code, $refusal)],
        }
    };
    ($error:expr; with $($turn:expr),*; $code:expr, $refusal:expr) => {
        Case {
            script: Script {
                client: &[
                    Turn::Gives(STARTUP),
                    Turn::TakesLength(103),
                    Turn::Gives(QUERY),
                    Turn::TakesError($error),
                ],
                server: &[
                    Turn::Takes(STARTUP),
                    Turn::Gives(LOGIN),
                    Turn::Takes(QUERY),
                    $($turn,)*
                ],
            },
            is_gone: false,
            notices: &[
                Notice::LoggedIn(0, 0),
                Notice::LinkOpened(PROCESS),
                Notice::LinkGiven,
                Notice::LinkReturned,
                Notice::SessionEnded($code, $refusal),
            ],
        }
    };
}

// A client that sends this, which is refused with 0A000 or with 08P01.
macro_rules! unsupported {
    ($bytes:expr, $refusal:ident) => {
        case![
            Turn::Gives($bytes), Turn::TakesError(UNSUPPORTED);
            Some(ErrorCode::FeatureNotSupported), Some(Refusal::$refusal)
        ]
    };
}

macro_rules! violation {
    ($bytes:expr, $refusal:ident) => {
        case![
            Turn::Gives($bytes), Turn::TakesError(VIOLATION);
            Some(ErrorCode::ProtocolViolation), Some(Refusal::$refusal)
        ]
    };
}

// A server that does this, by which its link is lost.
macro_rules! failure {
    ($refusal:ident $(, $turn:expr)?) => {
        case![
            FAILURE; with $($turn)?;
            Some(ErrorCode::ConnectionFailure), Some(Refusal::$refusal)
        ]
    };
}

// Clients that leave, or whose stream fails.
const LEAVES: [Case; 3] = [
    case![Turn::Gives(TERMINATE); None, None],
    case![; None, None],
    case![Turn::Breaks; None, None],
];

// Clients that send this: Parse, Bind, Describe with the statement s; Bind, Close, Execute with the
// portal p; Flush, FunctionCall and CopyData.
const NOT_SUPPORTED: [Case; 9] = [
    unsupported![b"P\0\0\0\x11s\0select 1\0\0\0", NamedStatement],
    unsupported![b"B\0\0\0\x0d\0s\0\0\0\0\0\0\0", NamedStatement],
    unsupported![b"D\0\0\0\x07Ss\0", NamedStatement],
    unsupported![b"B\0\0\0\x0dp\0\0\0\0\0\0\0\0", Portal],
    unsupported![b"C\0\0\0\x07Pp\0", Portal],
    unsupported![b"E\0\0\0\x0ap\0\0\0\0\0", Portal],
    unsupported![b"H\0\0\0\x04", Flush],
    unsupported![b"F\0\0\0\x04", FunctionCall],
    unsupported![b"d\0\0\0\x05x", Copy],
];

// A Query without a zero byte, the type byte 00, a Query after a Parse, and a type that no client
// has.
const VIOLATIONS: [Case; 4] = [
    violation![b"Q\0\0\0\x0cselect 1", Malformed],
    violation![b"\0\0\0\0\x04", Malformed],
    violation![
        b"P\0\0\0\x10\0select 1\0\0\0Q\0\0\0\x0dselect 1\0",
        OutOfPlace
    ],
    violation![b"z\0\0\0\x04", UnknownType],
];

// Servers that send NotificationResponse, AuthenticationOk, a ReadyForQuery with another status or
// CopyOutResponse, that leave, or whose stream fails.
const LINKS: [Case; 6] = [
    failure![Notification, Turn::Gives(b"A\0\0\0\x0c\0\0\0\x01a\0b\0")],
    failure![LinkMessage, Turn::Gives(b"R\0\0\0\x08\0\0\0\0")],
    failure![LinkMessage, Turn::Gives(b"Z\0\0\0\x05X")],
    case![
        UNSUPPORTED; with Turn::Gives(b"H\0\0\0\x07\0\0\0");
        Some(ErrorCode::FeatureNotSupported), Some(Refusal::Copy)
    ],
    failure![LinkLost],
    failure![LinkLost, Turn::Breaks],
];

pub(crate) fn assert_cases<R: Wait + Abort>(
    rt: &R,
    alloc: Global,
    cases: &[Case],
) -> Result<(), Fail> {
    for case in cases {
        assert_case(rt, alloc, case)?;
    }
    Ok(())
}

#[test]
fn ends_by_a_client(rt: HostRuntime) -> Result<(), Fail> {
    assert_cases(&rt, rt.alloc(), &LEAVES)?;
    assert_cases(&rt, rt.alloc(), &NOT_SUPPORTED)?;
    assert_cases(&rt, rt.alloc(), &VIOLATIONS)
}

#[test]
fn ends_by_a_link(rt: HostRuntime) -> Result<(), Fail> {
    assert_cases(&rt, rt.alloc(), &LINKS)
}

// Bytes of a query's text.
const THOUSAND: &[u8] = &[b'x'; 1_000];

// The head of a Parse whose text has 5,000 bytes: 4 for the length, 1 for the name, 5,001 for the
// text and 2 for the parameters are 5,008. With its type it has 5,009 bytes.
const PARSE: Turn = Turn::Gives(b"P\0\0\x13\x90\0");

const PART: Turn = Turn::Gives(THOUSAND);

const PARSED: Turn = Turn::Gives(b"\0\0\0");

// Messages above the limit: a client's and a server's, of 8,193 bytes each, and two of an extended
// query, of 10,018 bytes together.
const LONG: [Case; 3] = [
    Case {
        script: Script {
            client: &[
                Turn::Gives(STARTUP),
                Turn::TakesLength(103),
                Turn::Gives(b"Q\0\0\x20\x01"),
                Turn::TakesError(VIOLATION),
            ],
            server: &[],
        },
        is_gone: false,
        notices: &[
            Notice::LoggedIn(0, 0),
            Notice::MessageRefused(0, Sender::Client, 8_193, LIMIT),
            Notice::SessionEnded(Some(ErrorCode::ProtocolViolation), Some(Refusal::Malformed)),
        ],
    },
    Case {
        script: Script {
            client: &[
                Turn::Gives(STARTUP),
                Turn::TakesLength(103),
                PARSE,
                PART,
                PART,
                PART,
                PART,
                PART,
                PARSED,
                PARSE,
                PART,
                PART,
                PART,
                PART,
                PART,
                PARSED,
                Turn::TakesError(VIOLATION),
            ],
            server: &[],
        },
        is_gone: false,
        notices: &[
            Notice::LoggedIn(0, 0),
            Notice::MessageRefused(0, Sender::Client, 10_018, LIMIT),
            Notice::SessionEnded(
                Some(ErrorCode::ProtocolViolation),
                Some(Refusal::TooLong(10_018)),
            ),
        ],
    },
    Case {
        script: Script {
            client: &[
                Turn::Gives(STARTUP),
                Turn::TakesLength(103),
                Turn::Gives(QUERY),
                Turn::TakesError(FAILURE),
            ],
            server: &[
                Turn::Takes(STARTUP),
                Turn::Gives(LOGIN),
                Turn::Takes(QUERY),
                Turn::Gives(b"D\0\0\x20\x01"),
            ],
        },
        is_gone: false,
        notices: &[
            Notice::LoggedIn(0, 0),
            Notice::LinkOpened(PROCESS),
            Notice::LinkGiven,
            Notice::MessageRefused(0, Sender::Server, 8_193, LIMIT),
            Notice::LinkReturned,
            Notice::SessionEnded(Some(ErrorCode::ConnectionFailure), Some(Refusal::LinkLost)),
        ],
    },
];

#[test]
fn messages_above_the_limit(rt: HostRuntime) -> Result<(), Fail> {
    assert_cases(&rt, rt.alloc(), &LONG)
}

// A client of the console that does this, once it has logged in, which takes 90 bytes.
macro_rules! at_console {
    ($($turn:expr),*; $code:expr) => {
        Case {
            script: Script {
                client: &[Turn::Gives(CONSOLE), Turn::TakesLength(90), $($turn),*],
                server: &[],
            },
            is_gone: false,
            notices: &[Notice::ConsoleLoggedIn, Notice::SessionEnded($code, None)],
        }
    };
}

const CONSOLES: [Case; 5] = [
    at_console![Turn::Gives(TERMINATE); None],
    at_console![Turn::Breaks; None],
    // A Sync, a Query without a zero byte, and the type byte 00.
    at_console![
        Turn::Gives(b"S\0\0\0\x04"), Turn::TakesError(UNSUPPORTED);
        Some(ErrorCode::FeatureNotSupported)
    ],
    at_console![
        Turn::Gives(b"Q\0\0\0\x0cselect 1"), Turn::TakesError(VIOLATION);
        Some(ErrorCode::ProtocolViolation)
    ],
    at_console![
        Turn::Gives(b"\0\0\0\0\x04"), Turn::TakesError(VIOLATION);
        Some(ErrorCode::ProtocolViolation)
    ],
];

#[test]
fn the_console(rt: HostRuntime) -> Result<(), Fail> {
    assert_cases(&rt, rt.alloc(), &CONSOLES)
}
