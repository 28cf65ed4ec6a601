//! `pgpeer world`: what the events of a script bring about.
ghost use Rattle.std.specs.Prelude.{◌≡◌, ◌⊎◌, IfErr, IfOk, MatchResult, String, string_bytes};
ghost use Rattle.world_script.specs.Outcome.{outcome};
ghost use Rattle.answer.specs.Files.{folder_of};
ghost use Rattle.answer.specs.Scripts.{HasOutcome, IsScriptFault, IsWorldFault, RunsTo, SaysScript};

use crate::fault::Fault;
use crate::file_text::{NoText, file_text, unread};
use crate::opener::Opener;
use ini_config::Group;
use std::alloc::Global;
use world::{Event, Took, World, run};
use world_script::{Script, ScriptError, read_script, write_outcome};

/// The outcome of the run that the file's script says.
pub fn outcome_text<O: Opener>(alloc: Global, opener: &O, file: &str) -> Result<Vec<u8>, Fault>
    ensures outcome { IfOk result
        (λ text. HasOutcome (O.text opener.now file.now) text.items) }
    ensures refused { IfErr result
        (λ fault. IsWorldFault
        (folder_of (O.text opener.now) (O.opens opener.now) O.Reader.gave)
        file.now fault) }
{
    let Script { nodes, events } = script_of(alloc, opener, file)?;
    match Group::check(nodes) {
        Ok(group) => run_text(alloc, group, &events),
        Err(error) => Err(Fault::OfGroup(error)),
    }
}

// The outcome of these events in this group.
fn run_text(alloc: Global, group: Group, events: &[Event]) -> Result<Vec<u8>, Fault>
    ensures { MatchResult result
        (λ text. RunsTo group events.now text.items)
        (λ fault. fault ≡ Fault.Memory) }
{
    let (world, took) = run(alloc, group, events)?;
    text_of(alloc, &took, &world)
}

// The outcome of events that took this, and of which this world came.
fn text_of(alloc: Global, took: &[Took], world: &World) -> Result<Vec<u8>, Fault>
    ensures { MatchResult result
        (λ text. text.items ≡ outcome took.now world.now.interrupts)
        (λ fault. fault ≡ Fault.Memory) }
{
    let mut text = Vec::new(alloc);
    match write_outcome(took, world, &mut text) {
        Ok(()) => Ok(text),
        Err(_) => Err(Fault::Memory),
    }
}

// The script that the file says.
fn script_of<O: Opener>(alloc: Global, opener: &O, file: &str) -> Result<Script, Fault>
    ensures said { IfOk result (λ script. SaysScript (O.text opener.now file.now)
        script.nodes.items script.events.items) }
    ensures refused { IfErr result
        (λ fault. IsScriptFault
        (folder_of (O.text opener.now) (O.opens opener.now) O.Reader.gave)
        file.now fault) }
{
    let text = match file_text(alloc, opener, file) {
        Ok(text) => text,
        Err(NoText::Memory) => return Err(Fault::Memory),
        Err(why) => return Err(unread(alloc, file, &why)),
    };
    match read_script(alloc, text.as_str()) {
        Ok(script) => Ok(script),
        Err(ScriptError::Bad { line }) => Err(in_script(alloc, file, line)),
        Err(ScriptError::Memory) => Err(Fault::Memory),
    }
}

fn in_script(alloc: Global, file: &str, line: usize) -> Fault
    ensures { (result ≡ Fault.Memory) ⊎ ((name : String Global) × (string_bytes name ≡ file.now)
        × (result ≡ Fault.InScript name line)) }
{
    match String::from_str(alloc, file) {
        Ok(file) => Fault::InScript { file, line },
        Err(_) => Fault::Memory,
    }
}
