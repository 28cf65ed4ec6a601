//! Single reads of a stream.
ghost use Rattle.std.specs.Prelude.{◌≡◌, ◌<◌, ◌≤◌, [], ◌∷◌, length, take};
ghost use Rattle.peer_forward.specs.Calls.{Call, Makes};
ghost use Rattle.session_io.specs.StreamCalls.{IsFailedRead, Read};

use peer_forward::{ReadCalls, WriteCalls};

/// Reads once, and returns how many bytes came: none at the end of the input, and where the read
/// failed.
#[inline(always)]
pub fn read_some<T: WriteCalls + ReadCalls>(stream: &mut T, buffer: &mut [u8]) -> usize
    requires { 0 < length buffer.old }
    ensures within { result ≤ length buffer.new }
    ensures some { 0 < result → (call : Call)
        × Makes T.wrote T.gave stream.old (call ∷ []) stream.new
        × Read (take result buffer.new) (call ∷ []) }
    ensures none { result ≡ 0 → (call : Call)
        × Makes T.wrote T.gave stream.old (call ∷ []) stream.new × IsFailedRead call }
{
    match stream.read_once(buffer) {
        Ok(count) => count,
        Err(_) => 0,
    }
}
