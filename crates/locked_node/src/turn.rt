//! Whom a step wakes.
ghost use Rattle.locked_node.specs.Waking.{Wakes, WokenAt};

use node_core::{DatabaseNo, NodeCore};
use pg_ids::SlotNo;

/// Clients that sleep until it is their turn to get a link.
#[derive(Clone, Copy, Debug, PartialEq, Eq)]
pub(crate) enum Woken {
    /// Nobody is woken.
    Nobody,
    /// The client of this slot is woken.
    One(SlotNo),
    /// Each client is woken.
    All,
}

/// Whom a step wakes, and the node's incarnation after it.
#[derive(Clone, Copy, Debug, PartialEq, Eq)]
pub(crate) struct Turn {
    pub(crate) incarnation: u64,
    pub(crate) woken: Woken,
}

impl Turn {
    // A step was made, which may have made it another client's turn at a database.
    #[inline(always)]
    pub(crate) fn pass_on<S: Drop>(&mut self, core: &NodeCore<S>, database: Option<DatabaseNo>)
        ensures { Wakes self.old.woken database self.new core.now.view }
    {
        self.incarnation = core.incarnation();
        if let Woken::Nobody = self.woken {
            // Most calls wake nobody, and then nothing is written.
            match turn_at(core, database) {
                Woken::Nobody => {}
                woken => self.woken = woken,
            }
        }
    }
}

// The client whose turn it is at a database.
#[inline(always)]
fn turn_at<S: Drop>(core: &NodeCore<S>, database: Option<DatabaseNo>) -> Woken
    ensures { WokenAt database result core.now.view }
{
    let Some(database) = database else {
        return Woken::Nobody;
    };
    match core.turn(database) {
        Some(slot) => Woken::One(slot),
        None => Woken::Nobody,
    }
}
