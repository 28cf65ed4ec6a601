//! A stream to a server, and what is read of it.
ghost use Rattle.std.specs.Prelude.{◌≡◌, ◌≤◌, [], ◌∷◌, ℕ, List, None, true, false, length};
ghost use Rattle.peer_forward.specs.Calls.{Call, Makes};
ghost use Rattle.pg_frames.specs.FrameText.{HasFault};
ghost use Rattle.pg_frames.specs.Passage.{fed, after, HasNoNext};
ghost use Rattle.session_io.specs.StreamCalls.{Read, IsFailedRead};

use peer_forward::{ReadCalls, WriteCalls};
use pg_frames::Flow;

/// A stream to a server, and what was read of it and isn't passed on.
#[derive(Drop)]
pub(crate) struct Channel<L> {
    /// The stream.
    pub(crate) stream: L,
    /// What was read of it.
    pub(crate) flow: Flow,
}

/// Reads from a server once more, as much as the flow has room for, and returns whether more came.
pub(crate) fn read_more<L: WriteCalls + ReadCalls>(link: &mut Channel<L>) -> bool
    requires dry { HasNoNext link.old.flow.limit link.old.flow.left link.old.flow.bytes }
    requires sound { HasFault link.old.flow.limit (after link.old.flow) None }
    requires few { length link.old.flow.passed ≤ 8 }
    ensures more { result ≡ true → (call : Call)
        × Makes L.wrote L.gave link.old.stream (call ∷ []) link.new.stream
        × (bytes : List ℕ) × Read bytes (call ∷ []) × (link.new.flow ≡ fed link.old.flow bytes) }
    ensures none { result ≡ false → (call : Call)
        × Makes L.wrote L.gave link.old.stream (call ∷ []) link.new.stream × IsFailedRead call }
{
    let room = link.flow.room();
    prove!(room > 0);
    let count = link.flow.read_from(&mut link.stream);
    if count == 0 {
        return false;
    }
    true
}
