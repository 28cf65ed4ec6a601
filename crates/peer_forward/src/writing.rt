//! Bytes are written whole, by as many writes as that takes.
ghost use Rattle.std.specs.Prelude.{◌≡◌, ◌≤◌, List, length, take, drop, true, false};
ghost use Rattle.peer_forward.specs.Calls.{Call, Makes};
ghost use Rattle.peer_forward.specs.Writing.{Wrote, WroteSome, Writes};

use crate::{ReadCalls, WriteCalls};

// How many bytes a write is handed at most.
const MAX_WRITE: usize = 16_384;

/// Writes the bytes in pieces of at most 16,384 bytes, and returns whether all of them were taken.
/// A call that is interrupted has failed, and none is tried again. It takes no memory and doesn't
/// flush. Most texts are taken whole by the first write, so the others stand apart.
#[inline(always)]
pub fn write_whole<T: WriteCalls + ReadCalls>(stream: &mut T, bytes: &[u8]) -> bool
    ensures whole { result ≡ true → (calls : List Call)
        × Makes T.wrote T.gave stream.old calls stream.new × Wrote bytes.now calls }
    ensures stopped { result ≡ false → (calls : List Call)
        × Makes T.wrote T.gave stream.old calls stream.new × WroteSome bytes.now calls }
    // Which calls are made, and the result, follow from the results of the calls.
    ensures writes { (calls : List Call) × Makes T.wrote T.gave stream.old calls stream.new
        × Writes bytes.now calls result }
{
    let len = bytes.len();
    if len == 0 || len > MAX_WRITE {
        return write_rest(stream, bytes);
    }
    let Ok(count) = stream.write_once(bytes) else {
        return false;
    };
    if count == len {
        return true;
    }
    if count == 0 {
        return false;
    }
    write_rest(stream, bytes.split_at(count).1)
}

// Writes the bytes, by as many writes as that takes.
#[inline(never)]
fn write_rest<T: WriteCalls + ReadCalls>(stream: &mut T, bytes: &[u8]) -> bool
    ensures { (calls : List Call) × Makes T.wrote T.gave stream.old calls stream.new
        × Writes bytes.now calls result }
{
    let mut taken = 0;
    while taken < bytes.len() {
        let Ok(count) = stream.write_once(piece(bytes, taken)) else {
            return false;
        };
        if count == 0 {
            return false;
        }
        taken += count;
    }
    true
}

// The bytes from this place on, or the first of them.
#[inline(always)]
fn piece(bytes: &[u8], at: usize) -> &[u8]
    requires { at ≤ length bytes.now }
    ensures { result.now ≡ take 16384 (drop at bytes.now) }
{
    let rest = bytes.split_at(at).1;
    rest.split_at(MAX_WRITE.min(rest.len())).0
}
