//! The connections by which nodes forward requests.
ghost use Rattle.std.specs.Prelude.{◌≡◌, ◌≢◌, ◌<◌, ◌++◌, ◌∷◌, [], ℕ, List, Some, IfSome, OnOk, length, slice_get, slice_set};
ghost use Rattle.world.specs.declared.request.Forward.{Forward as ForwardRow};
ghost use Rattle.world.specs.Table.{IsFound};

use crate::index::Index;
use crate::numbers::{ArrivalNo, FlightNo};
use crate::request::Forward;
use crate::table::{Found, Row, Table};
use std::alloc::{AllocError, Global};
use std::marker::Model;

impl Row for Forward {
    type Key = FlightNo;

    ghost key_of = { λ forward. forward.flight };

    fn key(&self) -> FlightNo {
        self.flight
    }
}

/// Forward connections in the order in which they were made: no two have the same flight, or are
/// for the same arrival.
#[derive(Drop)]
pub(crate) struct Forwards {
    by_flight: Table<Forward>,
    origins: Index<ArrivalNo>,
}

impl Model for Forwards {
    ghost use Rattle.std.specs.Prelude.{◌≡◌, map, min};
    ghost use Rattle.world.specs.declared.request.Forward.{Forward as ForwardRow};
    ghost use Rattle.world.specs.Table.{Rows};

    ghost Value = { Rows ForwardRow };

    ghost view = { λ f. record {
      rows = f.by_flight.rows;
      room = min f.by_flight.room f.origins.room;
    } };

    ghost invariant = { λ f. map (λ row. row.origin) f.by_flight.rows ≡ f.origins.keys };
}

impl Forwards {
    /// No forward connections.
    pub fn new(alloc: Global) -> Forwards
        ensures { result.rows ≡ [] }
    {
        Forwards {
            by_flight: Table::new(alloc),
            origins: Index::new(alloc),
        }
    }

    /// The forward connection of a flight.
    pub fn of_flight(&self, flight: FlightNo) -> Option<Found<Forward>>
        ensures found { IfSome result (λ found.
            slice_get self.now.rows found.place ≡ Some found.row) }
        ensures key { IfSome result (λ found. found.row.flight ≡ flight) }
        // There is no other.
        ensures only { (place : ℕ) (row : ForwardRow) → slice_get self.now.rows place ≡ Some row
            → row.flight ≡ flight → result ≡ Some record { place = place; row = row } }
    {
        self.by_flight.find(flight)
    }

    /// The forward connection for an arrival.
    pub fn of_arrival(&self, origin: ArrivalNo) -> Option<Found<Forward>>
        ensures found { IfSome result (λ found.
            slice_get self.now.rows found.place ≡ Some found.row) }
        ensures key { IfSome result (λ found. found.row.origin ≡ origin) }
        // There is no other.
        ensures only { (place : ℕ) (row : ForwardRow) → slice_get self.now.rows place ≡ Some row
            → row.origin ≡ origin → result ≡ Some record { place = place; row = row } }
    {
        let place = self.origins.find(origin)?;
        let row = self.by_flight.get(place)?;
        Some(Found { place, row })
    }

    /// Makes room for one more.
    pub fn reserve(&mut self) -> Result<(), AllocError>
        ensures rows { self.new.rows ≡ self.old.rows }
        ensures room { OnOk result (0 < self.new.room) }
    {
        self.by_flight.reserve()?;
        self.origins.reserve()
    }

    /// Adds one, for which there is room.
    pub fn push(&mut self, forward: Forward)
        requires room { 0 < self.old.room }
        requires flight { (place : ℕ) (other : ForwardRow)
            → slice_get self.old.rows place ≡ Some other → other.flight ≢ forward.flight }
        requires origin { (place : ℕ) (other : ForwardRow)
            → slice_get self.old.rows place ≡ Some other → other.origin ≢ forward.origin }
        ensures { self.new.rows ≡ self.old.rows ++ forward ∷ [] }
    {
        self.origins.push(forward.origin);
        self.by_flight.push(forward);
    }

    /// Puts one in the place of another with the same flight and arrival.
    pub fn set(&mut self, place: usize, forward: Forward)
        requires flight { IsFound (λ row. row.flight) self.old.rows place forward.flight }
        requires origin { IsFound (λ row. row.origin) self.old.rows place forward.origin }
        ensures rows { self.new.rows ≡ slice_set self.old.rows place forward }
        ensures room { self.new.room ≡ self.old.room }
    {
        self.by_flight.set(place, forward);
    }
}
