//! Errors that end a connection.
ghost use Rattle.std.specs.Prelude.{Some};
ghost use Rattle.session_io.specs.StreamCalls.{SomeCalls};
ghost use Rattle.session_io.specs.Asking.{SendsError};
ghost use Rattle.session_io.specs.Opening.{WritesError};

use client_state::Reply;
use peer_forward::{ReadCalls, WriteCalls, write_whole};
use startup::{ErrorCode, Severity};
use std::alloc::Global;

/// Writes the error that ends a connection, as far as the client takes it. Nothing is written where
/// memory for its text is refused.
pub fn refuse<C: WriteCalls + ReadCalls>(alloc: Global, client: &mut C, code: ErrorCode)
    ensures written { SomeCalls C.wrote C.gave client.old client.new (WritesError (Some code)) }
    ensures said { SomeCalls C.wrote C.gave client.old client.new (SendsError code) }
{
    let Ok(reply) = Reply::error(alloc, Severity::Fatal, code) else {
        return;
    };
    let _ = write_whole(client, reply.as_slice());
}
