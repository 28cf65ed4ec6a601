//! A packet is written, and the end of the input awaited.
ghost use Rattle.std.specs.Prelude.{◌≡◌, ℕ, List, Result, length};
ghost use Rattle.std.specs.declared.io.Error.{Error};
ghost use Rattle.startup.specs.CancelPacket.{packet_bytes};
ghost use Rattle.peer_forward.specs.Carrying.{outcome_of, Carried};

use crate::{Outcome, ReadCalls, WriteCalls, write_whole};
use startup::Packet;

/// Writes the packet, of 16 or 32 bytes, and waits until the input ends. `T` is any reader and
/// writer of std, or a stream that lists its calls. A call of the stream that is interrupted has
/// failed, and none is tried again. It takes no memory and doesn't flush: the stream is to be
/// unbuffered, as a socket is. (PostgreSQL manual, "Canceling Requests in Progress": the server
/// closes the connection without a reply.)
pub fn carry<T: WriteCalls + ReadCalls>(stream: &mut T, packet: Packet) -> Outcome
    // Which calls are made, and the outcome, follow from the results of the calls.
    ensures { Carried T.wrote T.gave stream.old (packet_bytes packet) result stream.new }
{
    carry_bytes(stream, packet.as_slice())
}

// The same for any bytes.
fn carry_bytes<T: WriteCalls + ReadCalls>(stream: &mut T, bytes: &[u8]) -> Outcome
    ensures { Carried T.wrote T.gave stream.old bytes.now result stream.new }
{
    if write_whole(stream, bytes) {
        await_end(stream)
    } else {
        Outcome::Failed
    }
}

// Reads once. The outcome is clean where that shows the end.
fn await_end<T: ReadCalls>(stream: &mut T) -> Outcome
    ensures { (buffer : List ℕ) × (answer : Result ℕ Error) × (length buffer ≡ 1)
        × T.gave stream.old buffer answer stream.new × (result ≡ outcome_of answer) }
{
    let mut buffer = [0];
    match stream.read_once(&mut buffer) {
        Ok(0) => Outcome::Ended,
        Ok(_) | Err(_) => Outcome::Failed,
    }
}
