//! `pgpeer decide`: what a pooler does with the first packet of a connection.
ghost use Rattle.std.specs.Prelude.{◌≡◌, ℕ, List, IfErr, IfOk, length, take, true, string_bytes};
ghost use Rattle.pg_ids.specs.AnyKey.{IsAnyKey, any_key_bytes};
ghost use Rattle.startup.specs.CancelPacket.{cancel_packet, packet_bytes};
ghost use Rattle.startup.specs.FirstPacket.{Cancel, IsOutcome};
ghost use Rattle.startup.specs.Kinds.{none_seen};
ghost use Rattle.answer.specs.Answer.{IsDecideFault, IsOrderLine, IsPacketFault, IsUsage};
ghost use Rattle.command_line.specs.Request.{decision_in};
ghost use Rattle.answer.specs.Texts.{order_text, serve_text, forward_text, unwait_text, refused_text};

use crate::decision::decided;
use crate::fault::Fault;
use command_line::{DecideRequest, longer_packet};
use lease::TicketRecord;
use node_core::Order;
use pg_ids::{AnyKey, ServerKey};
use startup::{First, Opening, Packet, write_cancel};
use std::alloc::{AllocError, Global};
use std::sync::Wait;

/// The line that names what a pooler does with a packet.
pub fn decide_line<R: Wait>(rt: &R, alloc: Global, request: DecideRequest) -> Result<String, Fault>
    ensures line { IfOk result (λ line. IsOrderLine (decision_in request) (string_bytes line)) }
    ensures fault { IfErr result (λ fault. IsDecideFault (decision_in request) fault) }
{
    let DecideRequest {
        me,
        peers,
        clients,
        packet,
    } = request;
    let key = cancel_key(alloc, &packet)?;
    let order = decided(rt, alloc, me, peers, &clients, key)?;
    Ok(order_line(alloc, order)?)
}

// The key of a CancelRequest that is the whole packet.
fn cancel_key(alloc: Global, packet: &[u8]) -> Result<AnyKey, Fault>
    ensures key { IfOk result (λ key. IsAnyKey key
        × (packet.now ≡ packet_bytes (cancel_packet key))) }
    ensures fault { IfErr result (λ fault. IsPacketFault packet.now fault) }
{
    let first = match Opening::new(alloc).read(packet, true) {
        Ok(first) => first,
        Err(refusal) => return Err(Fault::Packet(refusal.number())),
    };
    match &first {
        First::Cancel { key } => whole_request(alloc, packet, key),
        _ => Err(Fault::NotACancel),
    }
}

// The key of a packet that begins with its CancelRequest, where nothing follows that.
fn whole_request(alloc: Global, packet: &[u8], key: &AnyKey) -> Result<AnyKey, Fault>
    requires { IsOutcome none_seen packet.now true (Cancel (any_key_bytes key.now)) }
    ensures key { IfOk result (λ key. IsAnyKey key
        × (packet.now ≡ packet_bytes (cancel_packet key))) }
    ensures fault { IfErr result (λ fault. IsPacketFault packet.now fault) }
{
    let length = request_length(*key);
    match packet.len().saturating_sub(length) {
        0 => Ok(*key),
        more => Err(longer_packet_fault(alloc, length, more)),
    }
}

// The fault of a packet whose CancelRequest has this length, and that has more bytes behind it.
fn longer_packet_fault(alloc: Global, length: usize, more: usize) -> Fault
    ensures { IsUsage result }
{
    match longer_packet(alloc, length, more) {
        Ok(text) => Fault::Usage(text),
        Err(_) => Fault::Memory,
    }
}

// How many bytes the CancelRequest of a key has.
fn request_length(key: AnyKey) -> usize
    ensures length { result ≡ length (packet_bytes (cancel_packet key)) }
    ensures key { IsAnyKey key }
    // Bytes that are read as a request with this key begin with it.
    ensures begins { (text : List ℕ) → IsOutcome none_seen text true (Cancel (any_key_bytes key))
        → take result text ≡ packet_bytes (cancel_packet key) }
{
    let request = write_cancel(key);
    request.as_slice().len()
}

// The line that names an order.
fn order_line(alloc: Global, order: Order<TicketRecord>) -> Result<String, AllocError>
    ensures { IfOk result (λ line. string_bytes line ≡ order_text order) }
{
    match order {
        Order::Serve(_, _, key) => serve_line(alloc, key),
        Order::Forward(peer, packet) => forward_line(alloc, peer.get(), packet),
        Order::Unwait(slot) => unwait_line(alloc, slot.get()),
        Order::Refused(refusal) => refused_line(alloc, refusal.number()),
    }
}

fn serve_line(alloc: Global, key: ServerKey) -> Result<String, AllocError>
    ensures { IfOk result (λ line. string_bytes line ≡ serve_text key) }
{
    let key = hex::encode(alloc, key.to_bytes())?;
    let key = key.as_str();
    format!(in alloc; "serve {key}\n")
}

fn forward_line(alloc: Global, peer: u16, packet: Packet) -> Result<String, AllocError>
    ensures { IfOk result (λ line. string_bytes line ≡ forward_text peer packet) }
{
    let packet = hex::encode(alloc, packet.as_slice())?;
    let packet = packet.as_str();
    format!(in alloc; "forward {peer} {packet}\n")
}

fn unwait_line(alloc: Global, slot: u16) -> Result<String, AllocError>
    ensures { IfOk result (λ line. string_bytes line ≡ unwait_text slot) }
{
    format!(in alloc; "unwait {slot}\n")
}

fn refused_line(alloc: Global, number: u8) -> Result<String, AllocError>
    ensures { IfOk result (λ line. string_bytes line ≡ refused_text number) }
{
    format!(in alloc; "refused {number}\n")
}
