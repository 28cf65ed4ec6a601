//! The messages of a client of the admin console are read.
ghost use Rattle.std.specs.Prelude.{◌≡◌, true, false};
ghost use Rattle.pg_frames.specs.FrameText.{BeginsNoFrame};
ghost use Rattle.session_io.specs.StreamCalls.{SomeCalls};
ghost use Rattle.node_threads.specs.ConsoleSession.{Parting, Parts, ReadsOn, Awaits};

use peer_forward::{ReadCalls, WriteCalls};
use pg_frames::{Cutter, Frame};
use session_io::{read_some, refuse};
use startup::ErrorCode;
use std::alloc::Global;
use std::sync::Wait;

// How many bytes are read at once.
const MAX_READ: usize = 4_096;

/// Reads the client's next message. There is none where the session ends before that is whole; a
/// client whose bytes are no message has been told so then, and the code of that error is noted.
pub(crate) fn next_message<R: Wait, C: WriteCalls + ReadCalls>(
    rt: &R,
    alloc: Global,
    client: &mut C,
    cutter: &mut Cutter,
    code: &mut Option<ErrorCode>,
) -> Option<Frame>
    ensures awaits { SomeCalls C.wrote C.gave client.old client.new (λ calls. Awaits
        cutter.old.limit cutter.old.bytes calls result cutter.new.bytes) }
    ensures limit { cutter.new.limit ≡ cutter.old.limit }
{
    for _ in rt.forever() {
        let Ok(found) = cutter.next() else {
            return None;
        };
        if let Some(message) = found {
            return Some(message);
        }
        if !read_more(alloc, client, cutter, code) {
            return None;
        }
    }
    unreachable!()
}

// Reads more of the client. Returns whether the session goes on.
fn read_more<C: WriteCalls + ReadCalls>(
    alloc: Global,
    client: &mut C,
    cutter: &mut Cutter,
    code: &mut Option<ErrorCode>,
) -> bool
    requires none { BeginsNoFrame cutter.old.limit cutter.old.bytes }
    ensures more { result ≡ true → SomeCalls C.wrote C.gave client.old client.new (λ calls. ReadsOn
        cutter.old.limit cutter.old.bytes calls cutter.new.bytes) }
    ensures ends { result ≡ false → SomeCalls C.wrote C.gave client.old client.new (λ calls.
        (parting : Parting) × Parts cutter.old.limit parting cutter.old.bytes calls
        cutter.new.bytes) }
    ensures limit { cutter.new.limit ≡ cutter.old.limit }
{
    if cutter.fault().is_some() {
        refuse(alloc, client, ErrorCode::ProtocolViolation);
        *code = Some(ErrorCode::ProtocolViolation);
        return false;
    }
    let mut buffer = [0; MAX_READ];
    let count = read_some(client, &mut buffer);
    if count == 0 {
        return false;
    }
    let Ok(()) = cutter.append(&buffer[..count]) else {
        return false;
    };
    true
}
