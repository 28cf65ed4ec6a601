//! What an observer hears of a connection that comes while a client has a link: of a login that is
//! refused, a wait, and cancel requests. And of a session whose node is started anew meanwhile.
use crate::heard::Notice;
use crate::messages::{IDLE, LOWERED, PROCESS, QUERY, ROW, SERVES_ONE, STARTUP, Script, TERMINATE};
use crate::observers::{Case, Watched};
use crate::story::{NODE, SEED, TWO_SLOTS, calling};
use crate::talk::Turn;
use crate::tracked::Talk;
use cancel_router::RouteRefusal;
use node_core::CancelRefusal;
use node_threads::{Calling, Gate, Open, Point};
use peer_forward::{Outcome, Verdict};
use pg_ids::Boot;
use startup::ErrorCode;
use std::alloc::Global;
use std::cell::{Cell, RefCell};
use std::process::Abort;
use std::sync::Wait;
use std::test::Fail;

// A client that is served once, and leaves.
const SERVED: Case = Case {
    script: Script {
        client: &[
            Turn::Gives(STARTUP),
            Turn::TakesLength(103),
            Turn::Gives(QUERY),
            Turn::Takes(ROW),
            Turn::Takes(IDLE),
            Turn::Gives(TERMINATE),
        ],
        server: SERVES_ONE,
    },
    is_gone: false,
    notices: &[
        Notice::LoggedIn(0, 0),
        Notice::LinkOpened(PROCESS),
        Notice::LinkGiven,
        Notice::LinkReturned,
        Notice::SessionEnded(None, None),
    ],
};

// A gate at which a guest comes when the client has its link.
#[derive(Drop)]
struct Visited<'a> {
    alloc: Global,
    calling: RefCell<Calling<Talk>>,
    guest: &'a Case,
    watched: &'a Watched,
    has_come: Cell<bool>,
}

impl Gate for Visited<'_> {
    fn pass<R: Wait>(&self, rt: &R, point: Point) {
        if point != Point::Acquired || self.has_come.replace(true) {
            return;
        }
        if let Ok(mut calling) = self.calling.try_borrow_mut() {
            self.watched
                .serve(rt, self.alloc, &mut calling, &Open, self.guest);
        }
    }
}

// A guest comes while the client of a node with these settings has its link.
fn assert_guest<R: Wait + Abort>(
    rt: &R,
    alloc: Global,
    settings: &str,
    guest: &Case,
) -> Result<(), Fail> {
    let mut calling = calling(alloc, settings, SEED, Boot(9))?;
    let theirs = calling.split().ok_or("no second caller")?;
    let (watched, own) = (Watched::new(alloc)?, Watched::new(alloc)?);
    let gate = Visited {
        alloc,
        calling: RefCell::new(theirs),
        guest,
        watched: &watched,
        has_come: Cell::new(false),
    };
    own.serve(rt, alloc, &mut calling, &gate, &SERVED);
    watched.assert(rt, guest);
    own.assert(rt, &SERVED);
    Ok(())
}

// The node's only slot is taken.
const FULL: Case = Case {
    script: Script {
        client: &[
            Turn::Gives(STARTUP),
            Turn::TakesError(b"SFATAL\0VFATAL\0C53300\0"),
        ],
        server: &[],
    },
    is_gone: false,
    notices: &[Notice::LoginRefused(ErrorCode::TooManyConnections)],
};

// There is no database of this name.
const UNKNOWN: Case = Case {
    script: Script {
        client: &[
            Turn::Gives(b"\0\0\0\x22\0\x03\0\0user\0plain\0database\0gone\0\0"),
            Turn::TakesError(b"SFATAL\0VFATAL\0C3D000\0"),
        ],
        server: &[],
    },
    is_gone: false,
    notices: &[Notice::LoginRefused(ErrorCode::InvalidCatalogName)],
};

#[test]
fn logins_are_refused(rt: HostRuntime) -> Result<(), Fail> {
    assert_guest(&rt, rt.alloc(), NODE, &FULL)?;
    assert_guest(&rt, rt.alloc(), NODE, &UNKNOWN)
}

// A gate at which the node is started anew when the client has its link.
#[derive(Drop)]
struct Restarted {
    calling: RefCell<Calling<Talk>>,
    has_come: Cell<bool>,
}

impl Gate for Restarted {
    fn pass<R: Wait>(&self, rt: &R, point: Point) {
        if point != Point::Acquired || self.has_come.replace(true) {
            return;
        }
        if let Ok(mut calling) = self.calling.try_borrow_mut() {
            let _reply = calling.restart(rt);
        }
    }
}

// A client whose second request gets the error of a node that was started anew.
const OUTLIVES: Case = Case {
    script: Script {
        client: &[
            Turn::Gives(STARTUP),
            Turn::TakesLength(103),
            Turn::Gives(QUERY),
            Turn::Takes(ROW),
            Turn::Takes(IDLE),
            Turn::Gives(QUERY),
            Turn::TakesError(b"SFATAL\0VFATAL\0C57P01\0"),
        ],
        server: SERVES_ONE,
    },
    is_gone: false,
    notices: &[
        Notice::LoggedIn(0, 0),
        Notice::LinkOpened(PROCESS),
        Notice::LinkGiven,
        Notice::LinkReturned,
        Notice::SessionEnded(Some(ErrorCode::AdminShutdown), None),
    ],
};

#[test]
fn a_node_is_started_anew(rt: HostRuntime) -> Result<(), Fail> {
    let alloc = rt.alloc();
    let mut calling = calling(alloc, NODE, SEED, Boot(9))?;
    let second = calling.split().ok_or("no second caller")?;
    let gate = Restarted {
        calling: RefCell::new(second),
        has_come: Cell::new(false),
    };
    let watched = Watched::new(alloc)?;
    watched.serve(&rt, alloc, &mut calling, &gate, &OUTLIVES);
    watched.assert(&rt, &OUTLIVES);
    Ok(())
}

// A client that waits before it may ask for a link, and is gone then.
const WAITS: Case = Case {
    script: Script {
        client: &[
            Turn::Gives(STARTUP),
            Turn::TakesLength(103),
            Turn::Gives(QUERY),
        ],
        server: &[],
    },
    is_gone: true,
    notices: &[
        Notice::LoggedIn(0, 1),
        Notice::WaitBegun,
        Notice::Waited,
        Notice::SessionEnded(None, None),
    ],
};

#[test]
fn a_client_waits(rt: HostRuntime) -> Result<(), Fail> {
    assert_guest(&rt, rt.alloc(), TWO_SLOTS, &WAITS)
}

// Requests with the key of the client, as in `refused`, with that of peer 3, secret 1, and with
// keys that nobody has: of another secret, without hops, and of a peer that isn't listed.
const OWN: &[u8] = b"\0\0\0\x10\x04\xd2\x16\x2e\0\x08\0\x03\x45\xd6\xc9\x53";

const FOREIGN: &[u8] = b"\0\0\0\x10\x04\xd2\x16\x2e\0\x0c\0\0\0\0\0\x07";

const OTHER: &[u8] = b"\0\0\0\x10\x04\xd2\x16\x2e\0\x08\0\0\0\0\0\x07";

const SPENT: &[u8] = b"\0\0\0\x10\x04\xd2\x16\x2e\0\x08\0\0\0\0\0\x04";

const UNLISTED: &[u8] = b"\0\0\0\x10\x04\xd2\x16\x2e\0\x10\0\0\0\0\0\x07";

// What the server of the client's link is sent, by its key.
const SENT: &[u8] = b"\0\0\0\x10\x04\xd2\x16\x2e\x21\x22\x23\x24\x25\x26\x27\x28";

const ENDED: Verdict = Verdict::Carried(Outcome::Ended);

const FAILED: Verdict = Verdict::Carried(Outcome::Failed);

// A request of this peer's key, whose client takes this, and whose server or peer does this. The
// order and the verdict are these.
macro_rules! cancel {
    ($key:expr, $peer:expr; [$($takes:expr)?], [$($turn:expr),*]; $order:expr, $verdict:expr) => {
        Case {
            script: Script {
                client: &[Turn::Gives($key), $(Turn::Takes($takes))?],
                server: &[$($turn),*],
            },
            is_gone: false,
            notices: &[
                Notice::CancelAsked($peer, 0),
                $order,
                Notice::CancelEnded($verdict),
            ],
        }
    };
}

// One that is refused for this reason.
macro_rules! refused {
    ($key:expr, $peer:expr; $reason:ident) => {
        cancel![
            $key, $peer; [], [];
            Notice::CancelRefused(CancelRefusal::Route(RouteRefusal::$reason)), Verdict::Refused
        ]
    };
}

const CANCELS: [Case; 7] = [
    cancel![OWN, 2; [], [Turn::Takes(SENT)]; Notice::CancelToServer(0, PROCESS), ENDED],
    cancel![
        OWN, 2; [b"E"], [Turn::Takes(SENT), Turn::Gives(b"N")];
        Notice::CancelToServer(0, PROCESS), FAILED
    ],
    cancel![FOREIGN, 3; [], [Turn::Takes(LOWERED)]; Notice::CancelToPeer(3), ENDED],
    cancel![
        FOREIGN, 3; [b"E"], [Turn::Takes(LOWERED), Turn::Breaks];
        Notice::CancelToPeer(3), FAILED
    ],
    refused![OTHER, 2; Unknown],
    refused![SPENT, 2; Spent],
    refused![UNLISTED, 4; NoPeer],
];

#[test]
fn requests(rt: HostRuntime) -> Result<(), Fail> {
    for case in &CANCELS {
        assert_guest(&rt, rt.alloc(), NODE, case)?;
    }
    Ok(())
}

// Nobody can be connected to.
const UNCONNECTED: [Case; 2] = [
    cancel![OWN, 2; [b"E"], []; Notice::CancelToServer(0, PROCESS), Verdict::NoConnect],
    cancel![FOREIGN, 3; [b"E"], []; Notice::CancelToPeer(3), Verdict::NoConnect],
];

#[test]
fn requests_without_a_connection(rt: HostRuntime) -> Result<(), Fail> {
    for case in &UNCONNECTED {
        assert_guest(&rt, rt.alloc(), NODE, case)?;
    }
    Ok(())
}
