//! A message above the limit at the front of what was read.
ghost use Rattle.std.specs.Prelude.{◌≡◌, ◌≢◌, None, Some, IfSome, MatchOption, drop};
ghost use Rattle.byteorder.specs.Endian.{big_number};
ghost use Rattle.pg_frames.specs.FrameText.{fault_at};
ghost use Rattle.pg_frames.specs.declared.error.FrameError.TheVariants.{TooLong};

use byteorder::{BigEndian, ByteOrder};
use pg_frames::{Flow, MessageLimit};

// How many bytes a length field takes.
const FIELD_LEN: usize = 4;

/// The length field of a server's next message, if it is above the limit and stands at the front of
/// what was read: behind a part of another message it isn't looked for.
pub(crate) fn next_above(flow: &mut Flow) -> Option<usize>
    ensures { IfSome result (λ length. (flow.old.left ≡ None)
        × (fault_at flow.old.limit flow.old.bytes ≡ Some TooLong)
        × (length ≡ big_number 4 (drop 1 flow.old.bytes))) }
{
    if flow.next().is_some() {
        return None;
    }
    length_above(flow.limit(), flow.pending())
}

/// The length field of the message at the front of these bytes, if it is above the limit.
#[tactic(auto, unfolding(pg_frames::specs::FrameText::fault_at))]
pub fn length_above(limit: MessageLimit, bytes: &[u8]) -> Option<usize>
    ensures { MatchOption result (fault_at limit bytes.now ≢ Some TooLong)
        (λ length. (fault_at limit bytes.now ≡ Some TooLong)
        × (length ≡ big_number 4 (drop 1 bytes.now))) }
{
    let (kind, after) = bytes.split_first()?;
    if !kind.is_ascii_alphanumeric() || after.len() < FIELD_LEN {
        return None;
    }
    let length = BigEndian::read_u32(after) as usize;
    if length > limit.get() as usize {
        Some(length)
    } else {
        None
    }
}
