//! Settings that come from no file.
use ini_config::{DatabaseNo, Settings};
use pg_ids::PeerNo;
use std::alloc::{AllocError, Global};
use std::process::Abort;
use std::test::Fail;

// The node 2 with peers 3 and 1.
fn with_peers(rt: &(impl Abort + Alloc<A = Global>)) -> Result<Settings, Fail> {
    let number = PeerNo::new(2).expect(rt, "a peer");
    let others = [
        PeerNo::new(3).expect(rt, "a peer"),
        PeerNo::new(1).expect(rt, "a peer"),
    ];
    let others = others.to_vec(rt.alloc())?;
    Ok(Settings::plain(rt.alloc(), number, others, 7, 65536)?)
}

// A node without peers, with one link and one client.
fn least(alloc: Global, number: PeerNo) -> Result<Settings, AllocError> {
    Settings::plain(alloc, number, Vec::new(alloc), 1, 1)
}

fn expect_values(rt: &impl Abort, settings: &Settings) {
    assert_eq!(rt; settings.peer_id().get(), 2);
    assert_eq!(rt; settings.max_client_conn(), 65536);
    assert_eq!(rt; settings.database_count(), 1);
    let database = settings.database(DatabaseNo(0)).expect(rt, "the database");
    assert_eq!(rt; database.pool_size, 7);
}

fn expect_peers(rt: &(impl Abort + Alloc<A = Global>), settings: &Settings) -> Result<(), Fail> {
    let others = [
        PeerNo::new(3).expect(rt, "a peer"),
        PeerNo::new(1).expect(rt, "a peer"),
    ];
    let numbers = settings.peer_numbers(rt.alloc())?;
    assert_eq!(rt; numbers.as_slice(), others.as_slice());
    Ok(())
}

fn expect_same_server(rt: &impl Abort, one: &Settings, other: &Settings) {
    let database = one.database(DatabaseNo(0)).expect(rt, "the database");
    let same = other.database(DatabaseNo(0)).expect(rt, "the database");
    assert_eq!(rt; same.host, database.host);
    assert_eq!(rt; same.port, database.port);
}

#[test]
fn plain_settings(rt: HostRuntime) -> Result<(), Fail> {
    let settings = with_peers(&rt)?;
    expect_values(&rt, &settings);
    expect_peers(&rt, &settings)
}

#[test]
fn servers_of_plain_nodes(rt: HostRuntime) -> Result<(), Fail> {
    let settings = with_peers(&rt)?;
    let other = least(rt.alloc(), PeerNo::new(3).expect(&rt, "a peer"))?;
    expect_same_server(&rt, &settings, &other);
    Ok(())
}
