//! The rule of a board, and what a seat learns at each step. These types are for the proofs alone:
//! no value of them is made.
use crate::counter::COUNTERS;
use atomic_table::{Join, Play, Seat, Split, TableRule};

/// What a seat knows: how much it may still count, what it has counted, and the last reading of
/// each word.
pub struct Note {
    pub allowance: u64,
    pub counts: [u64; COUNTERS],
    pub readings: [u64; COUNTERS],
}

/// A seat's place at the board. It has no bytes.
pub type Place = Seat<(), Note>;

pub struct Rule;

impl TableRule<(), Note, ()> for Rule {
    ghost use Rattle.stat_board.specs.Counts.{IsCounted, first_note};

    ghost holds = { λ _. IsCounted };

    ghost first = { λ _. first_note };
}

pub struct Raise;

impl Play<(), Note> for Raise {
    ghost use Rattle.stat_board.specs.Counts.{raising};

    ghost then = { raising };
}

pub struct Look;

impl Play<(), Note> for Look {
    ghost use Rattle.stat_board.specs.Counts.{Looks};

    ghost then = { Looks };
}

pub struct Weigh;

impl Play<(), Note> for Weigh {
    ghost use Rattle.stat_board.specs.Counts.{weighing};

    ghost then = { weighing };
}

pub struct Halve;

impl Split<Note> for Halve {
    ghost use Rattle.stat_board.specs.Counts.{handing, handed};

    ghost left = { handing };

    ghost right = { handed };
}

pub struct Both;

impl Join<Note> for Both {
    ghost use Rattle.stat_board.specs.Counts.{united, nobody};

    ghost both = { united };

    ghost spent = { nobody };
}
