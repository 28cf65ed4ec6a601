//! The rows of sessions and links.
use crate::{Board, ClientNames, ClientRow, ClientState, LinkRow, LinkState};
use std::net::{Ipv4Addr, SocketAddr, SocketAddrV4};
use std::test::Fail;
use std::time::Duration;

// This many seconds after the clock's start.
const fn at(seconds: u64) -> Duration {
    Duration::from_secs(seconds)
}

// The client at port 7 of 127.0.0.1 that has slot 3, on the second database.
fn names() -> ClientNames {
    let address = SocketAddrV4::new(Ipv4Addr::new(127, 0, 0, 1), 7);
    ClientNames {
        address: Some(SocketAddr::V4(address)),
        database: Some(1),
        slot: Some(3),
    }
}

// A session waits from the second second on, a link is opened for it from the fourth on, which it has
// from the fifth to the ninth.
#[test]
fn a_session_has_its_states(rt: HostRuntime) -> Result<(), Fail> {
    let board = Board::new(rt.alloc());
    let row = ClientRow::new(names(), ClientState::Idle, at(1));
    let (row, place) = board.add_client(&rt, row).ok_or("no row")?;
    row.wait(at(2));
    let sight = row.sight(at(3));
    assert_eq!(&rt;
        (sight.state, sight.micros),
        (ClientState::Waiting, 1_000_000)
    );
    row.open(at(4));
    let sight = row.sight(at(5));
    assert_eq!(&rt;
        (sight.state, sight.micros),
        (ClientState::Opening, 1_000_000)
    );
    assert_eq!(&rt; sight.wait, Some(3_000_000));
    let oldest = board.oldest_waits(&rt, 2, at(5))?;
    assert_eq!(&rt; oldest.as_slice(), [0, 3_000_000].as_slice());
    row.end_wait(at(5));
    row.begin(4_711, at(5));
    let clients = board.clients(&rt, at(7))?;
    let sight = clients.first().ok_or("no client")?;
    assert_eq!(&rt; sight.names, names());
    assert_eq!(&rt;
        (sight.state, sight.micros),
        (ClientState::Active, 2_000_000)
    );
    assert_eq!(&rt; (sight.process, sight.wait), (Some(4_711), None));
    row.rest(at(9));
    let sight = row.sight(at(9));
    assert_eq!(&rt; (sight.state, sight.micros), (ClientState::Idle, 0));
    assert_eq!(&rt; sight.process, None);
    board.remove_client(&rt, place);
    assert!(&rt; board.clients(&rt, at(9))?.is_empty());
    Ok(())
}

// A link is opened from the second second on, is idle from the fourth on, and its client has it from
// the fifth on. It is gone when nobody else has its row.
#[test]
fn a_link_has_its_states(rt: HostRuntime) -> Result<(), Fail> {
    let board = Board::new(rt.alloc());
    let client = ClientRow::new(names(), ClientState::Idle, at(1));
    let (client, place) = board.add_client(&rt, client).ok_or("no client")?;
    let link = board
        .add_link(&rt, LinkRow::new(1, at(2)))
        .ok_or("no link")?;
    link.connect(5_432);
    let sight = link.sight(at(3));
    assert_eq!(&rt;
        (sight.state, sight.micros),
        (LinkState::Opening, 1_000_000)
    );
    assert_eq!(&rt; (sight.port, sight.process), (5_432, None));
    link.log_in(4_711, at(4));
    let sight = link.sight(at(4));
    assert_eq!(&rt; (sight.state, sight.micros), (LinkState::Idle, 0));
    assert_eq!(&rt; (sight.process, sight.client), (Some(4_711), None));
    client.begin(link.give(place, at(5)), at(5));
    let links = board.links(&rt, at(8))?;
    let (sight, address) = links.first().ok_or("no link")?;
    assert_eq!(&rt; (sight.state, sight.micros), (LinkState::Active, 3_000_000));
    assert_eq!(&rt; (sight.database, sight.client), (1, Some(place)));
    assert_eq!(&rt; *address, names().address);
    drop(link);
    assert!(&rt; board.links(&rt, at(8))?.is_empty());
    Ok(())
}
