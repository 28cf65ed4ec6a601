//! A node with two databases on two servers, whose links have one key: a cancel strikes a server
//! process of its own client's server alone.
use crate::schedules::{group_of, play};
use ini_config::{Settings, read_settings};
use node_core::DatabaseNo;
use pg_ids::{Kind, Secret, ServerKey};
use std::alloc::{AllocError, Global};
use std::test::Fail;
use world::{ArrivalNo, BackendNo, Bytes, ConnectionNo, Event, FlightNo, Interrupt, Label, NodeNo};

const SETTINGS: &str = "[pgbouncer]\npool_mode = transaction\nauth_type = trust\n\
    listen_addr = 127.0.0.1\npeer_id = 2\n\
    [databases]\n\
    shop = host=127.0.0.1 port=7100 user=app pool_size=1\n\
    books = host=127.0.0.1 port=7101 user=app pool_size=1\n";

const KEY: ServerKey = ServerKey([0, 0, 0, 1, 0, 0, 0, 2]);

// The text is a parameter, since the check would work out what a known text says.
fn settings(alloc: Global, text: &str) -> Result<Settings, Fail> {
    match read_settings(alloc, text) {
        Ok(settings) => Ok(settings),
        Err(fault) => Err(Fail::from(fault)),
    }
}

// Cancel requests with the key of the first client (slot 0, secret 1) and of the second (slot 1,
// secret 2).
const FIRST: [u8; 16] = [0, 0, 0, 16, 4, 210, 22, 46, 0, 8, 0, 0, 0, 0, 0, 7];

const SECOND: [u8; 16] = [0, 0, 0, 16, 4, 210, 22, 46, 0, 8, 0, 4, 0, 0, 0, 11];

fn request(alloc: Global, slot: u8) -> Result<Event, AllocError> {
    let mut bytes = Vec::new(alloc);
    match slot {
        0 => bytes.extend_from_slice(&FIRST)?,
        _ => bytes.extend_from_slice(&SECOND)?,
    }
    Ok(Event::Put(Bytes::from_vec(bytes)))
}

// A client logs in to a database of its own, opens a link, and runs a query.
fn runs_query(events: &mut Vec<Event>, node: NodeNo, place: u8) -> Result<(), Fail> {
    let label = Label(10 + u32::from(place));
    let secret = Secret(1 + u32::from(place));
    events.push(Event::Login(node, label, DatabaseNo(place), secret, Kind::Short))?;
    events.push(Event::Acquire(label))?;
    events.push(Event::Up(label, KEY))?;
    events.push(Event::Send(label))?;
    events.push(Event::Take(BackendNo(u64::from(place))))?;
    Ok(())
}

// A cancel for that client comes, and its server acts.
fn is_cancelled(
    alloc: Global,
    events: &mut Vec<Event>,
    node: NodeNo,
    place: u8,
) -> Result<(), Fail> {
    events.push(request(alloc, place)?)?;
    events.push(Event::Deliver(FlightNo(u64::from(place)), node))?;
    events.push(Event::Act(ConnectionNo(u64::from(place))))?;
    Ok(())
}

fn schedule(alloc: Global, node: NodeNo) -> Result<Vec<Event>, Fail> {
    let mut events = Vec::new(alloc);
    runs_query(&mut events, node, 0)?;
    runs_query(&mut events, node, 1)?;
    is_cancelled(alloc, &mut events, node, 0)?;
    is_cancelled(alloc, &mut events, node, 1)?;
    Ok(events)
}

const STRUCK: [Interrupt; 2] = [
    Interrupt {
        backend: BackendNo(0),
        label: Label(10),
        arrival: ArrivalNo(0),
    },
    Interrupt {
        backend: BackendNo(1),
        label: Label(11),
        arrival: ArrivalNo(1),
    },
];

#[test]
fn each_strikes_its_own_server(rt: HostRuntime) -> Result<(), Fail> {
    let settings = settings(rt.alloc(), SETTINGS)?;
    let node = NodeNo(u32::from(settings.peer_id().get()));
    let events = schedule(rt.alloc(), node)?;
    let group = group_of(vec![in rt.alloc(); settings]?)?;
    let played = play(rt.alloc(), group, &events)?;
    assert_eq!(rt; played.interrupts.as_slice(), STRUCK.as_slice());
    Ok(())
}
