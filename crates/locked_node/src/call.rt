//! What a call of a node is, whichever step it makes.
ghost use Rattle.std.specs.Prelude.{◌≡◌, ℕ, List, Option, ⊤};
ghost use Rattle.node_core.specs.declared.exchange.Exchange.{Exchange};
ghost use Rattle.node_core.specs.NodeStep.{IsStep};
ghost use Rattle.locked_node.specs.Journal.{Puts};
ghost use Rattle.locked_node.specs.Totals.{IsCountOf};
ghost use Rattle.locked_node.specs.Waking.{database_of, woken_by};

use crate::call_note::CallNote;
use crate::log::Log;
use node_core::{DatabaseNo, NodeCore};

/// A call of one step, with what it hands in. `S` is the stream of a link. The eleven steps are
/// all: outside of this crate `Log` and `CallNote` have no name.
pub trait Call<S>: Sized {
    /// The step's reply.
    type Reply;

    /// What it hands in, as journals keep it.
    type Details: Drop;

    ghost handed: { Self → Self.Details };

    // A call with its reply, as journals keep it.
    ghost exchange: { Self.Details → Self.Reply → Exchange };

    // Holds of a call that may be made at a node whose databases have these pools. A node never
    // changes them.
    ghost can_make: { List ℕ → Self → Type 0 } = { λ _ _. ⊤ };

    // What the step does with the streams that the node stores, and with those handed in and out.
    // No exchange names a stream.
    ghost streams: { Self → Self.Reply → List (List (Option S)) → List (List (Option S)) → Type 0 } = { λ _ _ old new. new ≡ old };

    // The reply where no call is left.
    ghost at_end: { Self → Self.Reply };

    /// What it hands in.
    fn details(&self) -> Self::Details
        ensures { result ≡ handed self.now };

    /// Makes the step.
    fn make(self, core: &mut NodeCore<S>) -> Self::Reply
        requires { can_make core.old.view.pools self }
        ensures step { IsStep (exchange (handed self) result) core.old core.new }
        ensures streams { streams self result core.old.stored core.new.stored };

    /// The database at which the step may make it another client's turn.
    fn database(&self, core: &NodeCore<S>) -> Option<DatabaseNo>
        ensures { (reply : Self.Reply) → result
            ≡ database_of core.now.view (exchange (handed self.now) reply) };

    /// Puts the call with its reply in a log, and notes what of it is counted, and whom the reply
    /// alone wakes.
    fn record(details: &Self::Details, reply: &Self::Reply, log: &mut Log, note: &mut CallNote)
        ensures put { Puts log.old (exchange details.now reply.now) log.new }
        ensures count { IsCountOf (exchange details.now reply.now) note.new }
        ensures woken { note.new.turn.woken ≡ woken_by (exchange details.now reply.now) };

    /// Spends what was handed in, where no call is left.
    fn forfeit(self) -> Self::Reply
        ensures value { result ≡ at_end self }
        ensures streams { (stored : List (List (Option S))) → streams self result stored stored };
}
