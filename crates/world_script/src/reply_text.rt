//! What is written of a reply.
ghost use Rattle.std.specs.Prelude.{◌≡◌, ◌++◌, OnOk, codes};
ghost use Rattle.std.specs.String.{string_bytes};
ghost use Rattle.world_script.specs.Outcome.{phrase, reply_text, took_text};
ghost use Rattle.pg_ids.specs.AnyKey.{any_key_bytes};
ghost use Rattle.hex.specs.Hex.{encode_lower};

use pg_ids::AnyKey;
use std::alloc::{AllocError, Global};
use world::{Reply, Took};

/// Writes what became of an event.
pub(crate) fn write_took(alloc: Global, took: Took, text: &mut String) -> Result<(), AllocError>
    ensures { OnOk result (string_bytes text.new ≡ string_bytes text.old ++ took_text took) }
{
    match took {
        Took::Done(reply) => write_reply(alloc, reply, text),
        Took::Skipped => text.push_str("skipped"),
    }
}

fn write_reply(alloc: Global, reply: Reply, text: &mut String) -> Result<(), AllocError>
    ensures { OnOk result (string_bytes text.new ≡ string_bytes text.old ++ reply_text reply) }
{
    match reply {
        Reply::Key(key) => write_key(alloc, key, text),
        Reply::JoinRefused(refusal) => {
            write_phrase("refused", &[u64::from(refusal.number())], text)
        }
        Reply::Got(backend) => write_phrase("got", &[backend.0], text),
        Reply::Open => text.push_str("open"),
        Reply::Waiting => text.push_str("waiting"),
        Reply::Cancelled => text.push_str("cancelled"),
        Reply::Lease(backend) => write_phrase("lease", &[backend.0], text),
        Reply::Freed => text.push_str("freed"),
        Reply::Idle => text.push_str("idle"),
        Reply::Quarantined => text.push_str("quarantined"),
        Reply::Closed => text.push_str("closed"),
        Reply::Left => text.push_str("left"),
        Reply::Flight(flight) => write_phrase("flight", &[flight.0], text),
        Reply::Serve(arrival, connection) => {
            write_phrase("serve", &[arrival.0, connection.0], text)
        }
        Reply::Forward(arrival, flight) => write_phrase("forward", &[arrival.0, flight.0], text),
        Reply::Unwait(arrival) => write_phrase("unwait", &[arrival.0], text),
        Reply::CancelRefused(arrival, refusal) => {
            write_phrase("refused", &[arrival.0, u64::from(refusal.number())], text)
        }
        Reply::NoCancel => text.push_str("no-cancel"),
        Reply::Struck(backend, label) => {
            write_phrase("struck", &[backend.0, u64::from(label.0)], text)
        }
        Reply::Nothing => text.push_str("nothing"),
        Reply::Counted => text.push_str("counted"),
        Reply::Condemned => text.push_str("condemned"),
        Reply::Stale => text.push_str("stale"),
        Reply::Exhausted => write_phrase("refused", &[33], text),
        Reply::Done => text.push_str("ok"),
    }
}

fn write_key(alloc: Global, key: AnyKey, text: &mut String) -> Result<(), AllocError>
    ensures { OnOk result (string_bytes text.new
        ≡ string_bytes text.old ++ codes "key " ++ encode_lower (any_key_bytes key)) }
{
    text.push_str("key ")?;
    text.push_str(hex::encode(alloc, key.to_bytes().as_slice())?.as_str())
}

/// Writes a word, and numbers behind it.
pub(crate) fn write_phrase(word: &str, numbers: &[u64], text: &mut String) -> Result<(), AllocError>
    ensures { OnOk result (string_bytes text.new
        ≡ string_bytes text.old ++ phrase word.now numbers.now) }
{
    text.push_str(word)?;
    for number in numbers {
        write!(text, " {number}")?;
    }
    Ok(())
}
