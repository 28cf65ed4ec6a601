//! The texts of `decide`, read.
ghost use Rattle.std.specs.Prelude.{◌≡◌};
ghost use Rattle.std.specs.Option.{option_map};
ghost use Rattle.std.specs.Result.{result_ok};
ghost use Rattle.hex.specs.Hex.{decode_of};
ghost use Rattle.command_line.specs.Finds.{Finds};
ghost use Rattle.command_line.specs.Request.{decision_in, decision_of};

use crate::decide_request::DecideRequest;
use crate::live_client::live_clients;
use crate::peers::{own_number, peer_numbers};
use crate::wrong::{Place, Wrong};
use hex::FromHexError;
use std::alloc::Global;

/// The node and the packet that these texts name.
pub fn read_decide<'a>(
    alloc: Global,
    me: &'a str,
    peers: Option<&'a str>,
    live: Option<&'a str>,
    packet: &'a str,
) -> Result<DecideRequest, Wrong<'a>>
    ensures { Finds decision_in result (decision_of me.now (option_map (λ t. t.now) peers.entry)
        (option_map (λ t. t.now) live.entry) packet.now) }
{
    let me = own_number(me)?;
    let peers = peer_numbers(alloc, peers)?;
    let clients = live_clients(alloc, live)?;
    let packet = packet_bytes(alloc, packet)?;
    Ok(DecideRequest {
        me,
        peers,
        clients,
        packet,
    })
}

fn packet_bytes<'a>(alloc: Global, text: &'a str) -> Result<Vec<u8>, Wrong<'a>>
    ensures { Finds (λ packet. packet.items) result (result_ok (decode_of text.now)) }
{
    match hex::decode(alloc, text) {
        Ok(packet) => Ok(packet),
        Err(FromHexError::OutOfMemory) => Err(Wrong::Memory),
        Err(_) => Err(Wrong::Value(Place::Packet, text)),
    }
}
