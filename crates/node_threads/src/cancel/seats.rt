//! The seats at a node's board, for its cancel connections.
ghost use Rattle.std.specs.Prelude.{◌≡◌, ◌⊎◌, ◌≤◌, ◌<◌, ◌+◌, ◌*◌, ◌++◌, ◌∷◌, ◌==◌, [], None, IfSome, OnOk, vec_len, vec_capacity, Contains, count_by, nat_le};
ghost use Rattle.node_threads.specs.Words.{AreRead};

use crate::Counting;
use pg_ids::{AnyKey, DatabaseNo, Identity, PeerNo};
use std::alloc::{AllocError, Global};
use std::sync::{Mutex, Wait};

// How often the first seat is halved, all of its parts likewise: there are 256 seats.
const HALVINGS: u32 = 8;

// How many seats requests for other poolers have at most; how many those for one server, and those
// for one other pooler; and how many those of one key.
const FORWARD_SHARE: usize = 128;

const PLACE_SHARE: usize = 64;

const KEY_SHARE: usize = 32;

// The numbers of places: those of databases are below 256, and those of other poolers above it.
const NOWHERE: u32 = 256;

const PEERS: u32 = 257;

/// Where a cancel request goes.
#[derive(Clone, Copy, Debug, PartialEq, Eq)]
pub enum Destination {
    /// To the server of this database.
    Server(DatabaseNo),
    /// To this other pooler.
    Peer(PeerNo),
    /// Nowhere: its key's slot has no client.
    Nowhere,
}

impl Destination {
    // Its number.
    fn place(self) -> u32 {
        match self {
            Destination::Server(database) => u32::from(database.get()),
            Destination::Nowhere => NOWHERE,
            Destination::Peer(peer) => u32::from(peer.get()).saturating_add(PEERS),
        }
    }
}

/// The seats at a node's board: those that no cancel connection has, and one for the console.
#[derive(Drop)]
pub struct Seats {
    free: Mutex<Free>,
    console: Mutex<Counting>,
}

/// A seat that a cancel connection has, which has to be given back.
pub struct Seat {
    counting: Counting,
    purpose: Purpose,
}

impl Seat {
    /// What it counts by.
    pub fn counting(&mut self) -> &mut Counting {
        &mut self.counting
    }
}

// The 255 seats for requests: those that are free, and what the others are for.
#[derive(Drop)]
struct Free {
    seats: Vec<Counting>,
    taken: Vec<Purpose>,
    ghost all: { vec_len seats + vec_len taken ≡ 255 },
    ghost room: { (255 ≤ vec_capacity seats) × (255 ≤ vec_capacity taken) },
}

// What a seat is for: a request with this key, that goes to this place.
#[derive(Clone, Copy, Debug, PartialEq, Eq)]
struct Purpose {
    place: u32,
    key: Identity,
}

impl Seats {
    /// A board on which nothing is counted, with 256 seats, which may count as much as each other.
    pub fn new(alloc: Global) -> Result<Seats, AllocError> {
        let mut seats = Vec::with_capacity(alloc, 1 << HALVINGS)?;
        let first = Counting::new(alloc)?;
        seats.push(first)?;
        for _i in 0..HALVINGS {
            halve_each(alloc, &mut seats)?;
        }
        let Some(console) = seats.pop() else {
            unreachable!()
        };
        let taken = Vec::with_capacity(alloc, seats.len())?;
        Ok(Seats {
            free: Mutex::new(Free { seats, taken }),
            console: Mutex::new(console),
        })
    }

    /// Takes a seat for a request with this key that goes there, if one is free. It gets none while
    /// requests for the same server, or for the same other pooler, have a quarter of the seats,
    /// those with the same key an eighth, or, if it goes to another pooler, all such requests half
    /// of them: so no server, no pooler and no key keeps the node's other clients from cancelling.
    pub fn take<R: Wait>(&self, rt: &R, key: AnyKey, to: Destination) -> Option<Seat> {
        let purpose = Purpose {
            place: to.place(),
            key: key.identity(),
        };
        self.free.lock(rt).take(purpose)
    }

    /// Gives a seat back.
    pub fn give_back<R: Wait>(&self, rt: &R, seat: Seat) {
        self.free.lock(rt).give_back(seat);
    }

    /// The words of the board, in the order of its counters.
    pub fn words<R: Wait>(&self, rt: &R) -> [u64; 8]
        ensures read { AreRead result }
    {
        self.console.lock(rt).words()
    }
}

impl Free {
    // Takes a seat for this, if one is free and its shares aren't taken.
    fn take(&mut self, purpose: Purpose) -> Option<Seat>
        ensures taken { IfSome result (λ seat. (vec_len self.new.seats + 1 ≡ vec_len self.old.seats)
            × (self.new.taken.items ≡ self.old.taken.items ++ seat.purpose ∷ [])
            × (seat.purpose ≡ purpose)) }
        ensures none { result ≡ None → (vec_len self.new.seats ≡ vec_len self.old.seats)
            × (self.new.taken.items ≡ self.old.taken.items) }
        // There is none only where no seat is free, or a share is taken, of which the least is 32.
        ensures needed { result ≡ None
            → (vec_len self.old.seats ≡ 0) ⊎ (32 ≤ vec_len self.old.taken) }
        // Requests for one place never have more than a quarter of the seats.
        ensures places { IfSome result (λ _. count_by (λ taken. taken.place == purpose.place)
            self.old.taken.items < 64) }
        // Those for other poolers never have more than half of them.
        ensures forwards { IfSome result (λ _. 257 ≤ purpose.place
            → count_by (λ taken. nat_le 257 taken.place) self.old.taken.items < 128) }
    {
        if self.alike(&purpose.key) >= KEY_SHARE || self.at(purpose.place) >= PLACE_SHARE {
            return None;
        }
        if purpose.place >= PEERS && self.forwards() >= FORWARD_SHARE {
            return None;
        }
        let counting = self.seats.pop()?;
        self.taken.push_reserved(purpose);
        Some(Seat { counting, purpose })
    }

    // How many seats are taken for requests with this key.
    fn alike(&self, key: &Identity) -> usize
        ensures { result ≤ vec_len self.now.taken }
    {
        let mut alike: usize = 0;
        for taken in &self.taken {
            if taken.key == *key {
                alike = alike.saturating_add(1);
            }
        }
        alike
    }

    // How many seats are taken for requests that go to this place.
    fn at(&self, place: u32) -> usize
        ensures count { result ≡ count_by (λ taken. taken.place == place) self.now.taken.items }
        ensures most { result ≤ vec_len self.now.taken }
    {
        self.taken
            .iter()
            .filter(|taken| taken.place == place)
            .count()
    }

    // How many seats are taken for requests that go to other poolers.
    fn forwards(&self) -> usize
        ensures count { result ≡ count_by (λ taken. nat_le 257 taken.place) self.now.taken.items }
        ensures most { result ≤ vec_len self.now.taken }
    {
        self.taken
            .iter()
            .filter(|taken| taken.place >= PEERS)
            .count()
    }

    // Gives back a seat that was taken here. If none is noted as taken for its purpose, another's
    // note goes: no seat is lost.
    fn give_back(&mut self, seat: Seat)
        ensures given { 0 < vec_len self.old.taken
            → vec_len self.new.seats ≡ vec_len self.old.seats + 1 }
    {
        let Seat { counting, purpose } = seat;
        let place = self.find(&purpose).unwrap_or(0);
        if place < self.taken.len() {
            self.taken.swap_remove(place);
            self.seats.push_reserved(counting);
        }
    }

    // The place of a seat that is taken for this.
    fn find(&self, purpose: &Purpose) -> Option<usize>
        ensures found { IfSome result (λ place. place < vec_len self.now.taken) }
        ensures missing { result ≡ None → Contains self.now.taken.items purpose.now → ⊥ }
    {
        for place in 0..self.taken.len() {
            if self.taken[place] == *purpose {
                return Some(place);
            }
        }
        None
    }
}

// Halves each seat, and puts the new halves behind them.
fn halve_each(alloc: Global, seats: &mut Vec<Counting>) -> Result<(), AllocError>
    ensures { OnOk result (vec_len seats.new ≡ 2 * vec_len seats.old) }
{
    let mut halves = Vec::with_capacity(alloc, seats.len())?;
    for seat in seats.iter_mut() {
        halves.push(seat.split()?)?;
    }
    seats.append(&mut halves)
}
