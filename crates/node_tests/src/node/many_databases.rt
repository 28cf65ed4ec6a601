//! A node with as many databases as a file may have: each has its own pool and its own queue.
use ini_config::{Settings, read_settings};
use node_core::{AcquireReply, DatabaseNo, Lease, NodeCore, Permit};
use pg_ids::{Boot, Kind, Secret};
use std::alloc::{AllocGlobal, Global};
use std::process::Abort;
use std::test::Fail;

const DATABASES: u8 = 64;

const HEAD: &str =
    "[pgbouncer]\npool_mode = transaction\nauth_type = trust\nlisten_addr = 127.0.0.1\npeer_id = 1\nmax_client_conn = 128\n[databases]\n";

// The settings of a node with 64 databases, each with room for one link.
fn settings(alloc: Global) -> Result<Settings, Fail> {
    let mut text = String::from_str(alloc, HEAD)?;
    for database in 0..DATABASES {
        let line = format!(in alloc;
            "d{database} = host=127.0.0.1 port=7100 user=app pool_size=1\n"
        )?;
        text.push_str(line.as_str())?;
    }
    match read_settings(alloc, text.as_str()) {
        Ok(settings) => Ok(settings),
        Err(fault) => Err(Fail::from(fault)),
    }
}

// What a client that asks for a link gets.
#[derive(Clone, Copy, Debug, PartialEq, Eq)]
enum Told {
    Open,
    Wait,
    Other,
}

fn what(reply: AcquireReply<Lease<u32>, Permit>) -> Told {
    match reply {
        AcquireReply::Open(permit) => {
            let _details = permit.forfeit();
            Told::Open
        }
        AcquireReply::Waiting => Told::Wait,
        AcquireReply::Got(lease) => {
            let _stream = lease.forfeit();
            Told::Other
        }
        AcquireReply::Cancelled
        | AcquireReply::Holding
        | AcquireReply::Exhausted
        | AcquireReply::Stale => Told::Other,
    }
}

// A client of this database logs in, and asks for a link.
fn asks(core: &mut NodeCore<u32>, database: DatabaseNo) -> Told {
    if database.get() as usize >= core.pool_sizes().len() {
        return Told::Other;
    }
    let Ok(pass) = core.join(database, Secret(1), Kind::Short) else {
        return Told::Other;
    };
    let reply = core.acquire(&pass);
    let _details = pass.forfeit();
    what(reply)
}

// At each database the first client opens the one link, and the second waits.
fn try_databases(rt: &impl Abort, core: &mut NodeCore<u32>) {
    for database in 0..DATABASES {
        assert_eq!(rt; asks(core, DatabaseNo(database)), Told::Open);
        assert_eq!(rt; asks(core, DatabaseNo(database)), Told::Wait);
    }
}

// No function owns both settings and a node, since each exit would drop both.
fn try_node(rt: &(impl Abort + AllocGlobal), settings: &Settings) -> Result<(), Fail> {
    let mut core = NodeCore::<u32>::new(rt.alloc(), settings, Boot(3))?;
    try_databases(rt, &mut core);
    Ok(())
}

#[test]
fn sixty_four_databases(rt: HostRuntime) -> Result<(), Fail> {
    let settings = settings(rt.alloc())?;
    try_node(&rt, &settings)
}
