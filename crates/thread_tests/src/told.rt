//! What a client reads whose login finds no memory.
use crate::calls::{assert_calls, assert_spent};
use crate::heard::{Heard, Notice, assert_heard};
use crate::messages::{IDLE, STARTUP, Script, TERMINATE};
use crate::refused::{Servers, behind_key, visit};
use crate::scene::all_done;
use crate::scene_node::{Node, Visit};
use crate::story::{NODE, SEED, calling};
use crate::talk::Turn;
use crate::tracked::{Talk, Tracker};
use ini_config::read_settings;
use locked_node::CallAnswer;
use node_threads::{Admission, Open, Opener};
use pg_ids::{Boot, DatabaseNo, PeerNo, Secret};
use startup::ErrorCode;
use std::alloc::AllocError;
use std::io;
use std::io::ErrorKind;
use std::sync::Wait;
use std::test::Fail;

// The error of out of memory, by the manual's "Error and Notice Message Fields".
const OUT_OF_MEMORY: &[u8] = b"E\0\0\0\x29SFATAL\0VFATAL\0C53200\0Mout of memory\0\0";

// What a client read that logs in and leaves.
fn read_by(taken: &[u8]) -> Option<&'static str> {
    if taken.is_empty() {
        return Some("nothing");
    }
    if taken == OUT_OF_MEMORY {
        return Some("FATAL 53200");
    }
    if behind_key(taken) == Some(IDLE) {
        return Some("its greeting");
    }
    None
}

// `tools/refused_memory` refuses each allocation of this test in turn, and looks for a client that
// read the error.
#[test]
fn a_login_is_answered(rt: HostRuntime) -> Result<(), Fail> {
    let mut calling = calling(rt.alloc(), NODE, SEED, Boot(9))?;
    let servers = Servers::new(rt.alloc())?;
    let come = visit(
        &rt,
        rt.alloc(),
        &mut calling,
        &servers,
        &Open,
        &[STARTUP, TERMINATE],
    );
    let Some(client) = come else {
        return Err(Fail::from(AllocError));
    };
    let Some(read) = read_by(client.taken()) else {
        return Err(Fail::from("a client read something else"));
    };
    assert_spent(&rt, calling.caller());
    println!(rt; "a client read {read}")?;
    Ok(())
}

// Settings of a node without a database.
const BARE: &str = "[pgbouncer]
pool_mode = transaction
auth_type = trust
listen_addr = 127.0.0.1
peer_id = 2
max_client_conn = 4
";

// A client that is told at once.
const TOLD: Script = Script {
    client: &[Turn::Takes(OUT_OF_MEMORY)],
    server: &[],
};

// An opener that connects to nothing, with this observer.
#[derive(Drop)]
struct Unconnected<'a> {
    heard: &'a Heard,
}

impl Opener for Unconnected<'_> {
    ghost use Rattle.std.specs.Prelude.{⊤};

    type Stream = Talk;

    type Observer = Heard;

    ghost connects = { λ _ _ _. ⊤ };

    ghost cancels = { λ _ _ _. ⊤ };

    ghost reaches = { λ _ _ _. ⊤ };

    fn observer(&self) -> &Heard {
        self.heard
    }

    fn server<R: Wait>(&self, _rt: &R, _database: DatabaseNo) -> io::Result<Talk> {
        Err(io::Error::from(ErrorKind::ConnectionRefused))
    }

    fn cancel<R: Wait>(&self, _rt: &R, _database: DatabaseNo) -> io::Result<Talk> {
        Err(io::Error::from(ErrorKind::ConnectionRefused))
    }

    fn peer<R: Wait>(&self, _rt: &R, _peer: PeerNo) -> io::Result<Talk> {
        Err(io::Error::from(ErrorKind::ConnectionRefused))
    }
}

// With the semaphores of another node, among which there is none for its database, a session is
// answered as if there were no memory for its state there. Its client reads the whole error, and
// leaves.
#[test]
fn a_client_is_told(rt: HostRuntime) -> Result<(), Fail> {
    let tracker = Tracker::new(rt.alloc())?;
    let told = Visit {
        script: TOLD,
        clients: &tracker,
        servers: &tracker,
        secret: Secret(5),
    };
    let (mut node, mut caller) = Node::new(rt.alloc(), 1)?;
    let bare = read_settings(rt.alloc(), BARE)?;
    node.admission = Admission::new(rt.alloc(), &bare)?;
    let Some(mut client) = told.client() else {
        return Err(Fail::from(AllocError));
    };
    let heard = Heard::new(rt.alloc());
    let opener = Unconnected { heard: &heard };
    node.serve_over(&rt, &mut caller, &Open, &opener, told.secret, &mut client);
    assert_heard(&rt, &heard, &[Notice::LoginRefused(ErrorCode::OutOfMemory)]);
    drop(client);
    assert_eq!(rt; tracker.ends(), all_done(1));
    let calls = [(CallAnswer::Joined, 1), (CallAnswer::Left, 1)];
    let counted = assert_calls(&rt, &caller, &calls);
    assert_eq!(rt; node.total_calls(caller), counted);
    Ok(())
}
