//! What a node has of its settings.
use ini_config::{Settings, read_settings};
use node_core::NodeCore;
use pg_ids::{Boot, PeerNo, SlotNo};
use std::alloc::{AllocGlobal, Global};
use std::process::Abort;
use std::test::Fail;

const TWO_DATABASES: &str =
    "[pgbouncer]\npool_mode = transaction\nauth_type = trust\nlisten_addr = 127.0.0.1\npeer_id = 1\n[databases]\nshop = host=127.0.0.1 port=7100 user=app pool_size=2\nnews = host=127.0.0.1 port=7101 user=app\n[peers]\n3 = host=127.0.0.1 port=7003\n2 = host=127.0.0.1 port=7002\n";

fn settings_of(alloc: Global, text: &str) -> Result<Settings, Fail> {
    match read_settings(alloc, text) {
        Ok(settings) => Ok(settings),
        Err(fault) => Err(Fail::from(fault)),
    }
}

// What a node has of the file, and of its start.
fn assert_fresh(rt: &impl Abort, core: &NodeCore<u32>, peers: &[PeerNo]) {
    assert_eq!(rt; core.me().get(), 1);
    assert_eq!(rt; core.peers(), peers);
    assert_eq!(rt; core.pool_sizes(), [2, 20].as_slice());
    assert_eq!(rt; core.incarnation(), 0);
    assert_eq!(rt; core.boot(), Boot(3));
}

// A node has no clients and no links yet.
fn assert_empty(rt: &impl Abort, core: &NodeCore<u32>) {
    assert_eq!(rt; core.next_slot(), Some(SlotNo(0)));
    assert_eq!(rt; core.client(SlotNo(0)), None);
    assert_eq!(rt; core.links().incarnation(), 0);
}

// No function owns both settings and a node, since each exit would drop both.
fn try_node(rt: &(impl Abort + AllocGlobal), settings: &Settings) -> Result<(), Fail> {
    let three = PeerNo::new(3).ok_or("no peer 3")?;
    let two = PeerNo::new(2).ok_or("no peer 2")?;
    let core = NodeCore::<u32>::new(rt.alloc(), settings, Boot(3))?;
    assert_fresh(rt, &core, &[three, two]);
    assert_empty(rt, &core);
    Ok(())
}

#[test]
fn a_node_of_a_file(rt: HostRuntime) -> Result<(), Fail> {
    let settings = settings_of(rt.alloc(), TWO_DATABASES)?;
    try_node(&rt, &settings)
}
