//! The whole frames at the front of some bytes, and the fault that follows them.
ghost use Rattle.std.specs.Prelude.{◌≡◌, ◌<◌, ◌≤◌, ℕ, length, drop, slice_index, MatchOption};
ghost use Rattle.pg_frames.specs.FrameText.{fault_at, BeginsNoFrame, HasFault};
ghost use Rattle.pg_frames.specs.Ready.{BeginsFrame, IsReady};

use crate::header::header_at;
use crate::{FrameError, MessageLimit};

// The fault at the front of the rest of the bytes' cutting.
pub fn fault_in(limit: MessageLimit, bytes: &[u8]) -> Option<FrameError>
    ensures { HasFault limit bytes.now result }
{
    fault_after(limit, bytes, whole_len(limit, bytes))
}

// The fault at the front of what follows the whole frames.
pub fn fault_after(limit: MessageLimit, bytes: &[u8], ready: usize) -> Option<FrameError>
    requires { ready ≤ length bytes.now }
    ensures stands { result ≡ fault_at limit (drop ready bytes.now) }
    ensures bytes { (i : ℕ) → slice_index bytes.now i < 256 }
{
    let (_, rest) = bytes.split_at(ready);
    header_at(limit, rest).err()
}

// How many bytes the text at the front takes, none where no frame's text begins the bytes.
fn frame_len(limit: MessageLimit, bytes: &[u8]) -> Option<usize>
    ensures { MatchOption result (BeginsNoFrame limit bytes.now) (BeginsFrame limit bytes.now) }
{
    match header_at(limit, bytes) {
        Err(_) => None,
        Ok(None) => None,
        Ok(Some(header)) => {
            let len = 1 + header.length;
            if bytes.len() < len { None } else { Some(len) }
        }
    }
}

// How many bytes the whole frames at the front take.
pub fn whole_len(limit: MessageLimit, bytes: &[u8]) -> usize
    ensures { IsReady limit bytes.now result }
{
    let mut at = 0;
    while let Some(len) = frame_len(limit, bytes.split_at(at).1) {
        at += len;
    }
    at
}
