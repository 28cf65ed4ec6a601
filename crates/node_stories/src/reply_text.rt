//! What is written of a reply.
use crate::words::{Trouble, told};
use node_core::{
    CloseReply, EndedReply, FailedReply, LeaveReply, Order, PassRecord, ReleaseReply, RestartReply,
    StepRefusal, TicketRecord, UpFailedReply,
};
use pg_ids::{AnyKey, ServerKey};
use startup::Packet;
use std::alloc::Global;
use std::fmt::Display;

/// A word with a number behind it.
pub(crate) fn counted(alloc: Global, word: &str, number: u64) -> Result<String, Trouble> {
    Ok(format!(in alloc; " -> {word} {number}")?)
}

/// A refusal with its number.
pub(crate) fn refused<T: Display>(
    alloc: Global,
    number: u8,
    refusal: &T,
) -> Result<String, Trouble> {
    Ok(format!(in alloc; " -> refused {number}: {refusal}")?)
}

/// A refusal of a step.
pub(crate) fn refused_step(alloc: Global, refusal: StepRefusal) -> Result<String, Trouble> {
    refused(alloc, refusal.number(), &refusal)
}

// That no number is left.
fn exhausted(alloc: Global) -> Result<String, Trouble> {
    refused_step(alloc, StepRefusal::Exhausted)
}

/// A client's key.
pub(crate) fn key_told(alloc: Global, key: AnyKey) -> Result<String, Trouble> {
    let key = hex::encode(alloc, key.to_bytes().as_slice())?;
    Ok(format!(in alloc; " -> key {key}")?)
}

pub(crate) fn leave_told(alloc: Global, reply: LeaveReply<PassRecord>) -> Result<String, Trouble> {
    match reply {
        LeaveReply::Left => told(alloc, "left"),
        LeaveReply::Holding(_pass) => refused_step(alloc, StepRefusal::Holding),
        LeaveReply::Stale => refused_step(alloc, StepRefusal::Stale),
        LeaveReply::Exhausted => exhausted(alloc),
    }
}

pub(crate) fn up_failed_told(alloc: Global, reply: UpFailedReply) -> Result<String, Trouble> {
    match reply {
        UpFailedReply::Freed => told(alloc, "freed"),
        UpFailedReply::Stale => told(alloc, "stale"),
        UpFailedReply::Exhausted => exhausted(alloc),
    }
}

pub(crate) fn release_told(alloc: Global, reply: ReleaseReply<u32>) -> Result<String, Trouble> {
    match reply {
        ReleaseReply::Idle => told(alloc, "idle"),
        ReleaseReply::Quarantined => told(alloc, "quarantined"),
        ReleaseReply::Closed(stream) => counted(alloc, "closed", u64::from(stream)),
        ReleaseReply::Stale(stream) => counted(alloc, "stale", u64::from(stream)),
        ReleaseReply::Exhausted(_stream) => exhausted(alloc),
    }
}

pub(crate) fn close_told(alloc: Global, reply: CloseReply<u32>) -> Result<String, Trouble> {
    match reply {
        CloseReply::Closed(stream) => counted(alloc, "closed", u64::from(stream)),
        CloseReply::Stale(stream) => counted(alloc, "stale", u64::from(stream)),
        CloseReply::Exhausted(_stream) => exhausted(alloc),
    }
}

pub(crate) fn ended_told(alloc: Global, reply: EndedReply) -> Result<String, Trouble> {
    match reply {
        EndedReply::Freed => told(alloc, "freed"),
        EndedReply::Counted => told(alloc, "counted"),
        EndedReply::Stale => told(alloc, "stale"),
        EndedReply::Exhausted => exhausted(alloc),
    }
}

pub(crate) fn failed_told(alloc: Global, reply: FailedReply<u32>) -> Result<String, Trouble> {
    match reply {
        FailedReply::Condemned => told(alloc, "condemned"),
        FailedReply::Closed(stream) => counted(alloc, "closed", u64::from(stream)),
        FailedReply::Stale => told(alloc, "stale"),
        FailedReply::Exhausted => exhausted(alloc),
    }
}

pub(crate) fn restart_told(alloc: Global, reply: RestartReply) -> Result<String, Trouble> {
    match reply {
        RestartReply::Restarted => told(alloc, "ok"),
        RestartReply::Exhausted => exhausted(alloc),
    }
}

pub(crate) fn order_told(alloc: Global, order: &Order<TicketRecord>) -> Result<String, Trouble> {
    match order {
        Order::Serve(ticket, database, key) => {
            served(alloc, ticket.number, database.get(), *key)
        }
        Order::Forward(peer, packet) => forwarded(alloc, peer.get(), *packet),
        Order::Unwait(slot) => counted(alloc, "unwait", u64::from(slot.get())),
        Order::Refused(refusal) => refused(alloc, refusal.number(), refusal),
    }
}

fn served(alloc: Global, ticket: u64, database: u8, key: ServerKey) -> Result<String, Trouble> {
    let key = hex::encode(alloc, key.to_bytes())?;
    Ok(format!(in alloc; " -> serve {key} at {database} ticket {ticket}")?)
}

fn forwarded(alloc: Global, peer: u16, packet: Packet) -> Result<String, Trouble> {
    let packet = hex::encode(alloc, packet.as_slice())?;
    Ok(format!(in alloc; " -> forward {peer} {packet}")?)
}
