//! Writing a world's outcome.
ghost use Rattle.std.specs.Prelude.{◌≡◌, ◌+◌, ◌++◌, OnOk, OnErr, IfOk, codes, count_by, map};
ghost use Rattle.std.specs.String.{string_bytes};
ghost use Rattle.world_script.specs.Outcome.{outcome, ended, event_line, event_lines, is_skipped, interrupt_line, count_line};

use crate::reply_text::{write_phrase, write_took};
use std::alloc::{AllocError, Global};
use world::{Interrupt, Memory, Took, World};

/// Appends the text of an outcome: what became of each event, whom this world's events
/// interrupted, and how many there were. Leaves the buffer as it was if memory runs out.
pub fn write_outcome(took: &[Took], world: &World, out: &mut Vec<u8>) -> Result<(), Memory>
    ensures ok { OnOk result (out.new.items
        ≡ out.old.items ++ outcome took.now world.now.interrupts) }
    ensures err { OnErr result (out.new.items ≡ out.old.items) }
{
    let text = outcome(*out.allocator(), took, world.interrupts())?;
    Ok(out.extend_from_slice(text.as_bytes())?)
}

fn outcome(alloc: Global, took: &[Took], interrupts: &[Interrupt]) -> Result<String, AllocError>
    ensures { IfOk result (λ text. string_bytes text ≡ outcome took.now interrupts.now) }
{
    let mut text = String::new(alloc);
    write_events(alloc, took, &mut text)?;
    write_interrupts(interrupts, &mut text)?;
    write_counts(took, interrupts, &mut text)?;
    Ok(text)
}

fn write_events(alloc: Global, took: &[Took], text: &mut String) -> Result<(), AllocError>
    ensures { OnOk result (string_bytes text.new
        ≡ string_bytes text.old ++ ended (event_lines 1 took.now)) }
{
    for place in 0..took.len() {
        write_event(alloc, place + 1, took[place], text)?;
    }
    Ok(())
}

fn write_event(
    alloc: Global,
    number: usize,
    took: Took,
    text: &mut String,
) -> Result<(), AllocError>
    ensures { OnOk result (string_bytes text.new
        ≡ string_bytes text.old ++ event_line number took ++ codes "\n") }
{
    write!(text, "{number} ")?;
    write_took(alloc, took, text)?;
    text.push_str("\n")
}

fn write_interrupts(interrupts: &[Interrupt], text: &mut String) -> Result<(), AllocError>
    ensures { OnOk result (string_bytes text.new
        ≡ string_bytes text.old ++ ended (map interrupt_line interrupts.now)) }
{
    for interrupt in interrupts {
        write_interrupt(interrupt, text)?;
    }
    Ok(())
}

fn write_interrupt(interrupt: &Interrupt, text: &mut String) -> Result<(), AllocError>
    ensures { OnOk result (string_bytes text.new
        ≡ string_bytes text.old ++ interrupt_line interrupt.now ++ codes "\n") }
{
    let backend = interrupt.backend.0;
    let label = u64::from(interrupt.label.0);
    write_phrase("interrupt", &[backend, label, interrupt.arrival.0], text)?;
    text.push_str("\n")
}

fn write_counts(
    took: &[Took],
    interrupts: &[Interrupt],
    text: &mut String,
) -> Result<(), AllocError>
    ensures { OnOk result (string_bytes text.new
        ≡ string_bytes text.old ++ count_line took.now interrupts.now ++ codes "\n") }
{
    let events = took.len();
    let skipped = skipped(took);
    let interrupts = interrupts.len();
    write!(
        text,
        "events {events} skipped {skipped} interrupts {interrupts}\n"
    )
}

// How many events were skipped.
fn skipped(took: &[Took]) -> usize
    ensures { result ≡ count_by is_skipped took.now }
{
    took.iter().filter(|event| is_skipped(event)).count()
}

fn is_skipped(event: &Took) -> bool
    ensures { result ≡ is_skipped event.now }
{
    matches!(event, Took::Skipped)
}
