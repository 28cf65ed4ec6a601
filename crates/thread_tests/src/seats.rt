//! The seats at a node's board: how many requests have one at a time, and that all come back.
use crate::calls::assert_calls;
use crate::messages::LOWERED;
use crate::scene::all_done;
use crate::story::{NODE, calling, serve};
use crate::talk::Turn;
use crate::tracked::{Dialer, Talk, Tracker};
use locked_node::CallAnswer;
use node_threads::{Calling, Destination, Open, Seat, Seats};
use pg_ids::{AnyKey, Boot, DatabaseNo, PeerNo};
use std::alloc::Global;
use std::process::Abort;
use std::sync::{Arc, Wait};
use std::test::Fail;

// How many seats there are for requests. The console has one of the 256.
const SEATS: usize = 255;

// How many of them requests for other nodes have at most, those for one place, and those with one
// key.
const FORWARD_SHARE: usize = 128;

const PLACE_SHARE: usize = 64;

const KEY_SHARE: usize = 32;

// The short key with this secret of node 2, slot 0, three hops.
fn key(secret: u8) -> AnyKey {
    AnyKey::from_short_bytes([0, 8, 0, 0, 0, 0, secret, 3])
}

// Requests of one kind: with a key with this secret, for this place.
#[derive(Clone, Copy, Debug)]
struct Requests {
    secret: u8,
    to: Destination,
}

fn asked_with(secret: u8, to: Destination) -> Requests {
    Requests { secret, to }
}

impl Requests {
    // The same with another key, so many further.
    fn further(&self, more: u8) -> Requests {
        Requests {
            secret: self.secret.wrapping_add(more),
            to: self.to,
        }
    }
}

// Takes seats for such requests until there is none, and returns how many.
fn take_all<R: Wait>(rt: &R, seats: &Seats, requests: &Requests, taken: &mut Vec<Seat>) -> usize {
    for count in 0..1_000 {
        let Some(seat) = seats.take(rt, key(requests.secret), requests.to) else {
            return count;
        };
        if let Err(failed) = taken.push(seat) {
            seats.give_back(rt, failed.value);
            return count;
        }
    }
    1_000
}

// Takes seats for such requests, and for those with the next keys, until there is none for each.
// Returns how many.
fn take_at<R: Wait>(rt: &R, seats: &Seats, first: &Requests, taken: &mut Vec<Seat>) -> usize {
    let mut count: usize = 0;
    for more in 0..8u8 {
        let next = first.further(more);
        count = count.saturating_add(take_all(rt, seats, &next, taken));
    }
    count
}

// As many of these are given back.
fn give_back<R: Wait>(rt: &R, seats: &Seats, taken: &mut Vec<Seat>, count: usize) {
    for _i in 0..count {
        if let Some(seat) = taken.pop() {
            seats.give_back(rt, seat);
        }
    }
}

// The rest is given back.
fn give_all_back<R: Wait>(rt: &R, seats: &Seats, taken: Vec<Seat>) {
    let mut taken = taken;
    while let Some(seat) = taken.pop() {
        seats.give_back(rt, seat);
    }
    taken.destroy_empty();
}

// Two servers, and other nodes.
const FIRST: Destination = Destination::Server(DatabaseNo(0));

const SECOND: Destination = Destination::Server(DatabaseNo(1));

fn peer(number: u16) -> Destination {
    match PeerNo::new(number) {
        Some(peer) => Destination::Peer(peer),
        None => Destination::Nowhere,
    }
}

// So many are taken for these requests, and for those with the next keys.
fn assert_taken<R: Wait + Abort>(
    rt: &R,
    seats: &Seats,
    first: &Requests,
    taken: &mut Vec<Seat>,
    expected: usize,
) {
    assert_eq!(rt; take_at(rt, seats, first, taken), expected);
}

// Requests with one key have an eighth of the seats at most; those for one place a quarter; and
// those for other nodes half of them. Then there is none for others, until one is given back.
fn assert_shares<R: Wait + Abort>(rt: &R, seats: &Seats, taken: &mut Vec<Seat>) {
    let one = asked_with(1, FIRST);
    assert_eq!(rt; take_all(rt, seats, &one, taken), KEY_SHARE);
    assert_eq!(rt; take_all(rt, seats, &one, taken), 0);
    let rest = PLACE_SHARE.wrapping_sub(KEY_SHARE);
    assert_taken(rt, seats, &asked_with(2, FIRST), taken, rest);
    assert_taken(rt, seats, &asked_with(10, peer(3)), taken, PLACE_SHARE);
    assert_taken(rt, seats, &asked_with(20, peer(4)), taken, PLACE_SHARE);
    assert_taken(rt, seats, &asked_with(30, peer(5)), taken, 0);
    let rest = SEATS.wrapping_sub(PLACE_SHARE).wrapping_sub(FORWARD_SHARE);
    assert_taken(rt, seats, &asked_with(40, SECOND), taken, rest);
    assert_taken(rt, seats, &asked_with(50, Destination::Nowhere), taken, 0);
    give_back(rt, seats, taken, 1);
    assert_taken(rt, seats, &asked_with(50, Destination::Nowhere), taken, 1);
    give_back(rt, seats, taken, SEATS);
}

#[test]
fn shares(rt: HostRuntime) -> Result<(), Fail> {
    let seats = Seats::new(rt.alloc())?;
    let mut taken = Vec::new(rt.alloc());
    for _ in 0..2u32 {
        assert_shares(&rt, &seats, &mut taken);
    }
    give_all_back(&rt, &seats, taken);
    Ok(())
}

// A request for a client that isn't there, and one for peer 3, which gives a byte back.
const UNKNOWN: &[Turn] = &[Turn::Gives(b"\0\0\0\x10\x04\xd2\x16\x2e\0\x08\0\0\0\0\0\x07")];

const FORWARDED: &[Turn] = &[
    Turn::Gives(b"\0\0\0\x10\x04\xd2\x16\x2e\0\x0c\0\0\0\0\0\x07"),
    Turn::Takes(b"E"),
];

const PEER: &[Turn] = &[Turn::Takes(LOWERED), Turn::Gives(b"N")];

// A request is served.
fn visit<R: Wait>(
    rt: &R,
    alloc: Global,
    calling: &mut Calling<Talk>,
    tracker: &Arc<Tracker, Global>,
    turns: &'static [Turn],
) {
    let dialer = Dialer {
        tracker,
        turns: PEER,
    };
    if let Ok(mut client) = Talk::new(tracker, turns) {
        serve(rt, alloc, calling, &dialer, &Open, &mut client);
    }
}

// Twice as many requests as there are seats, of each kind, one after another.
fn assert_served<R: Wait + Abort>(
    rt: &R,
    alloc: Global,
    calling: &mut Calling<Talk>,
    tracker: &Arc<Tracker, Global>,
) {
    for _i in 0..512u32 {
        visit(rt, alloc, calling, tracker, UNKNOWN);
        visit(rt, alloc, calling, tracker, FORWARDED);
    }
    let calls = [
        (CallAnswer::CancelUnknown, 512),
        (CallAnswer::Forwarded, 512),
    ];
    assert_calls(rt, calling.caller(), &calls);
    // Two requests and a connection to the peer, each time.
    assert_eq!(rt; tracker.ends(), all_done(1_536));
}

#[test]
fn seats_come_back(rt: HostRuntime) -> Result<(), Fail> {
    let tracker = Tracker::new(rt.alloc())?;
    let mut calling = calling(rt.alloc(), NODE, [0; 32], Boot(9))?;
    assert_served(&rt, rt.alloc(), &mut calling, &tracker);
    Ok(())
}
