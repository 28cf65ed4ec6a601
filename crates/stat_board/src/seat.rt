//! Who counts on a board.
ghost use Rattle.std.specs.Prelude.{◌≡◌, ◌↔◌, ◌+◌, ◌≤◌, [], IsErr, OnOk, OnErr, length, slice_index};
ghost use Rattle.stat_board.specs.Places.{place_of};
ghost use Rattle.stat_board.specs.Counts.{BOARD_LIMIT, first_note};
ghost use Rattle.stat_board.specs.Seats.{IsFirst, Splits, JoinsUp, Raises, Reads};

use crate::board::Board;
use crate::counter::{COUNTERS, Counter};
use crate::note::Place;
use crate::refusal::NoAllowance;
use crate::row::{Row, maxima, sums};
use std::marker::Model;

/// Who counts on a board: how much it may still count, what it has counted, and its last reading of
/// each word.
#[derive(Drop)]
pub struct BoardSeat {
    place: Place,
    allowance: u64,
    counts: Row,
    readings: Row,
}

impl Model for BoardSeat {
    ghost use Rattle.stat_board.specs.Seats.{SeatView};

    ghost Value = { SeatView };

    ghost use Rattle.stat_board.specs.SeatOf.{seat_of, IsSeat};

    ghost view = { seat_of };

    ghost invariant = { IsSeat };
}

// What all seats of a board may count.
const LIMIT: u64 = 1 << 63;

impl BoardSeat {
    // The first seat of a board, at this place.
    pub(crate) fn first(place: Place) -> BoardSeat
        requires { place.me ≡ (first_note, []) }
        ensures own { result.board ≡ place.table_id }
        ensures first { IsFirst result }
    {
        BoardSeat {
            place,
            allowance: LIMIT,
            counts: [0; COUNTERS],
            readings: [0; COUNTERS],
        }
    }

    // Its place at the board, whose notes agree with the fields.
    pub(crate) fn into_place(self) -> Place
        ensures own { result.table_id ≡ self.board }
        ensures empty { result.me.1 ≡ [] }
        ensures allowance { result.me.0.allowance ≡ self.allowance }
        ensures counts { result.me.0.counts ≡ self.counts }
        ensures row { length result.me.0.counts ≡ 8 }
        ensures readings { result.me.0.readings ≡ self.readings }
    {
        let BoardSeat {
            place,
            allowance: _,
            counts: _,
            readings: _,
        } = self;
        place
    }

    /// Hands half of the allowance, rounded down, to a new seat of the same board, which has
    /// counted nothing and has the same readings.
    pub fn split(&mut self, board: &Board) -> BoardSeat
        requires own { self.old.board ≡ board.now }
        ensures { Splits self.old self.new result }
    {
        let place = board.hand(&mut self.place);
        let half = self.allowance / 2;
        self.allowance -= half;
        BoardSeat {
            place,
            allowance: half,
            counts: [0; COUNTERS],
            readings: self.readings,
        }
    }

    /// Adds the allowance and the counts of another seat of this board, and keeps the greater
    /// readings.
    pub fn join(&mut self, board: &Board, other: BoardSeat)
        requires own { self.old.board ≡ board.now }
        requires same { other.board ≡ board.now }
        ensures { JoinsUp self.old other self.new }
    {
        let BoardSeat {
            place,
            allowance,
            counts,
            readings,
        } = other;
        board.unite(&mut self.place, place);
        self.allowance += allowance;
        self.counts = sums(&self.counts, &counts);
        self.readings = maxima(&self.readings, &readings);
    }

    /// Counts one more, on the board and in this seat. Fails with `NoAllowance` exactly at
    /// allowance 0.
    pub fn count(&mut self, board: &Board, counter: Counter) -> Result<(), NoAllowance>
        requires own { self.old.board ≡ board.now }
        ensures refused { IsErr result ↔ (self.old.allowance ≡ 0) }
        ensures counted { OnOk result (Raises self.old (place_of counter) self.new) }
        ensures err { OnErr result (self.new ≡ self.old) }
    {
        if self.allowance == 0 {
            return Err(NoAllowance);
        }
        let at = counter.place();
        board.raise(&mut self.place, at);
        self.allowance -= 1;
        self.counts[at] += 1;
        Ok(())
    }

    /// The value of a counter. It isn't below the seat's own count or its last reading, and isn't
    /// above 2^63 less the seat's allowance. It becomes the seat's last reading.
    pub fn read(&mut self, board: &Board, counter: Counter) -> u64
        requires own { self.old.board ≡ board.now }
        ensures read { Reads self.old (place_of counter) result self.new }
        ensures counted { slice_index self.old.counts (place_of counter) ≤ result }
        ensures again { slice_index self.old.readings (place_of counter) ≤ result }
        ensures most { result + self.old.allowance ≤ BOARD_LIMIT }
    {
        let at = counter.place();
        let word = board.look(&mut self.place, at);
        self.readings[at] = word;
        word
    }
}
