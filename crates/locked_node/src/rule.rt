//! The rule of the lock, and the meaning of its steps. These types exist for the proofs: no value
//! of them is made.
use crate::locked::Locked;
use crate::log::Entry;
use atomic_table::{Join, Play, Seat, Split, TableRule};
use std::collections::LinkedList;
use std::snapshot::Snapshot;

/// What a caller knows: how many calls it may still make, the journal with which it began, if it is
/// the first caller, the calls that it made, their places in the lock's history, the journal that
/// it found, and the journal with which the lock began.
pub struct Share {
    pub allowance: u128,
    pub begun: LinkedList<Locked<()>>,
    pub made: LinkedList<Entry>,
    pub places: LinkedList<u128>,
    pub found: Option<Locked<()>>,
    pub start: Locked<()>,
}

/// A caller's place at the lock. It has no bytes.
pub type Place<S> = Seat<Locked<S>, Share>;

pub struct Rule;

impl<S> TableRule<Locked<S>, Share, Snapshot<Locked<S>>> for Rule {
    ghost use Rattle.locked_node.specs.Lock.{IsLocked, first_share};

    ghost holds = { λ start. IsLocked start.value };

    ghost first = { λ start. first_share start.value };
}

pub struct Take;

impl<S> Play<Locked<S>, Share> for Take {
    ghost use Rattle.locked_node.specs.Lock.{taking};

    ghost then = { taking };
}

pub struct Give;

impl<S> Play<Locked<S>, Share> for Give {
    ghost use Rattle.locked_node.specs.Lock.{giving};

    ghost then = { giving };
}

pub struct Return;

impl<S> Play<Locked<S>, Share> for Return {
    ghost use Rattle.locked_node.specs.Lock.{returning};

    ghost then = { returning };
}

pub struct Rest;

impl<S> Play<Locked<S>, Share> for Rest {
    ghost use Rattle.locked_node.specs.Lock.{resting};

    ghost then = { resting };
}

pub struct Look;

impl<S> Play<Locked<S>, Share> for Look {
    ghost use Rattle.locked_node.specs.Lock.{looking};

    ghost then = { looking };
}

pub struct Hand;

impl Split<Share> for Hand {
    ghost use Rattle.locked_node.specs.Lock.{handing, handed};

    ghost left = { handing };

    ghost right = { handed };
}

pub struct Both;

impl Join<Share> for Both {
    ghost use Rattle.locked_node.specs.Lock.{joined, nobody};

    ghost both = { joined };

    ghost spent = { nobody };
}
