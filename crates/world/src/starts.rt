//! The starts of nodes, and the greatest boot that each had.
ghost use Rattle.std.specs.Prelude.{◌≡◌, ◌<◌, ◌++◌, ◌∷◌, [], ℕ, List, Some, None, IfSome, IfNone, OnOk};
ghost use Rattle.std.proofs.Common.{rules};
ghost use Rattle.world.specs.World.{HadBoot};
ghost use Rattle.world.specs.Admissible.{IsNextBoot};

use crate::index::Key;
use crate::request::Start;
use crate::table::{Row, Table};
use pg_ids::{Boot, PeerNo};
use std::alloc::{AllocError, Global};
use std::marker::Model;

impl Key for Start {
    ghost exact = { Prim.search rules };
}

impl Row for Start {
    type Key = Start;

    ghost key_of = { λ start. start };

    fn key(&self) -> Start {
        *self
    }
}

/// The greatest boot that a node had.
#[derive(Clone, Copy, Debug)]
struct Greatest {
    node: PeerNo,
    boot: Boot,
}

impl Key for PeerNo {
    ghost exact = { Prim.search rules };
}

impl Row for Greatest {
    type Key = PeerNo;

    ghost key_of = { λ greatest. greatest.node };

    fn key(&self) -> PeerNo {
        self.node
    }
}

/// The starts of nodes in their order, none twice.
#[derive(Drop)]
pub(crate) struct Starts {
    starts: Table<Start>,
    // For each node that was started, its greatest boot.
    greatest: Table<Greatest>,
}

impl Model for Starts {
    ghost use Rattle.std.specs.Prelude.{min};
    ghost use Rattle.world.specs.declared.request.Start.{Start as StartRow};
    ghost use Rattle.world.specs.Table.{Rows};
    ghost use Rattle.world.specs.Starts.{AreGreatest};

    ghost Value = { Rows StartRow };

    ghost view = { λ s. record { rows = s.starts.rows; room = min s.starts.room s.greatest.room } };

    ghost invariant = { λ s. AreGreatest s.starts.rows s.greatest.rows };
}

impl Starts {
    /// No starts.
    pub fn new(alloc: Global) -> Starts
        ensures { result.rows ≡ [] }
    {
        Starts {
            starts: Table::new(alloc),
            greatest: Table::new(alloc),
        }
    }

    /// The boot with which a node may be started anew: the one that is asked for, if the node never
    /// had it; or, where none is asked for, one more than the node's greatest.
    pub fn next(&self, node: PeerNo, asked: Option<Boot>) -> Option<Boot>
        ensures next { IfSome result (λ boot. IsNextBoot self.now.rows node asked boot) }
        ensures none { IfNone result ((boot : ℕ) → IsNextBoot self.now.rows node asked boot → ⊥) }
    {
        match asked {
            Some(boot) => self.unless_had(node, boot),
            None => self.after_greatest(node),
        }
    }

    // The boot, if the node never had it.
    fn unless_had(&self, node: PeerNo, boot: Boot) -> Option<Boot>
        ensures next { IfSome result (λ next. IsNextBoot self.now.rows node (Some boot) next) }
        ensures none { IfNone result (HadBoot self.now.rows node boot) }
    {
        match self.starts.find(Start { node, boot }) {
            Some(_) => None,
            None => Some(boot),
        }
    }

    // One more than the node's greatest boot, if it had any and there are more.
    fn after_greatest(&self, node: PeerNo) -> Option<Boot>
        ensures next { IfSome result (λ boot. IsNextBoot self.now.rows node None boot) }
        ensures none { IfNone result ((boot : ℕ) → IsNextBoot self.now.rows node None boot → ⊥) }
    {
        let greatest = self.greatest.find(node)?;
        let next = greatest.row.boot.get().checked_add(1)?;
        Some(Boot(next))
    }

    /// Makes room for one more.
    pub fn reserve(&mut self) -> Result<(), AllocError>
        ensures rows { self.new.rows ≡ self.old.rows }
        ensures room { OnOk result (0 < self.new.room) }
    {
        self.greatest.reserve()?;
        self.starts.reserve()
    }

    /// Adds one that never was, for which there is room.
    pub fn push(&mut self, start: Start)
        requires room { 0 < self.old.room }
        requires new { HadBoot self.old.rows start.node start.boot → ⊥ }
        ensures { self.new.rows ≡ self.old.rows ++ start ∷ [] }
    {
        let greatest = Greatest {
            node: start.node,
            boot: start.boot,
        };
        match self.greatest.find(start.node) {
            None => self.greatest.push(greatest),
            Some(found) => {
                if found.row.boot < start.boot {
                    self.greatest.set(found.place, greatest);
                }
            }
        }
        self.starts.push(start);
    }
}
