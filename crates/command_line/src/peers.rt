//! Numbers of poolers among the arguments.
ghost use Rattle.std.specs.Prelude.{◌≡◌, ◌≢◌, ◌<◌, ◌≤◌, All, AllPairs, IfOk, length, true, false};
ghost use Rattle.std.specs.Option.{option_map};
ghost use Rattle.command_line.specs.Finds.{Finds, Reads};
ghost use Rattle.command_line.specs.Numbers.{all_differ, number_from, peer_of, peers_of};

use crate::list::{Item, items};
use crate::wrong::{Place, Wrong};
use ini_config::number_in;
use pg_ids::PeerNo;
use std::alloc::Global;

/// The most peers that a pooler has.
pub const PEERS: usize = 64;

impl Item for PeerNo {
    ghost use Rattle.std.specs.Prelude.{◌<◌};
    ghost use Rattle.command_line.specs.Numbers.{peer_of};

    ghost item_of = { peer_of };

    ghost holds = { λ number. 0 < number };

    fn read<'a>(text: &'a str) -> Result<PeerNo, Wrong<'a>> {
        number(Place::Peer, 1, text)
    }
}

/// The number of the pooler itself.
pub fn own_number<'a>(text: &'a str) -> Result<PeerNo, Wrong<'a>>
    ensures { Reads (λ me. me) result (number_from 0 16383 text.now) }
{
    number(Place::Me, 0, text)
}

fn number<'a>(place: Place, least: u32, text: &'a str) -> Result<PeerNo, Wrong<'a>>
    ensures value { Reads (λ number. number) result (number_from least 16383 text.now) }
    ensures range { IfOk result (λ number. least ≤ number) }
{
    let Ok(number) = number_in(least, 16383, text) else {
        return Err(Wrong::Value(place, text));
    };
    match PeerNo::new(number as u16) {
        Some(number) => Ok(number),
        None => Err(Wrong::Value(place, text)),
    }
}

/// The peers that a text names, at most 64 and none twice.
pub fn peer_numbers<'a>(alloc: Global, text: Option<&'a str>) -> Result<Vec<PeerNo>, Wrong<'a>>
    ensures value { Finds (λ peers. peers.items) result
        (peers_of (option_map (λ t. t.now) text.entry)) }
    ensures limit { IfOk result (λ peers. length peers.items ≤ 64) }
    ensures numbered { IfOk result (λ peers. All (λ number. 0 < number) peers.items) }
    ensures distinct { IfOk result (λ peers. AllPairs (λ a b. a ≢ b) peers.items) }
{
    let peers = items::<PeerNo>(alloc, text)?;
    if peers.len() > PEERS {
        return Err(Wrong::Value(Place::PeerTooMany, ""));
    }
    if !all_differ(&peers) {
        return Err(Wrong::Value(Place::PeerAgain, text.unwrap_or("")));
    }
    Ok(peers)
}

// Whether no number comes twice.
fn all_differ(peers: &[PeerNo]) -> bool
    ensures value { result ≡ all_differ peers.now }
    ensures distinct { result ≡ true → AllPairs (λ a b. a ≢ b) peers.now }
{
    let mut at = 0;
    while at < peers.len() {
        if peers.split_at(at + 1).1.contains(&peers[at]) {
            return false;
        }
        at += 1;
    }
    true
}
