//! Reading a world's script.
ghost use Rattle.std.specs.Prelude.{◌≡◌, ◌<◌, ◌+◌, ◌^◌, IfOk, List, ℕ, map};
ghost use Rattle.std.specs.Str.Lines.{lines};
ghost use Rattle.ini_config.specs.Node.{NodeSettings};
ghost use Rattle.world.specs.declared.event.Event.{Event as Happens};
ghost use Rattle.world_script.specs.Script.{IsScript, IsFirstFault};
ghost use Rattle.world_script.specs.Reads.{ReadsOnly, Refuses, RefusesOnly, in_line};

use crate::draft::Draft;
use crate::fault::{LineFault, ScriptError};
use crate::peers::settings_of;
use ini_config::{Settings, trimmed};
use std::alloc::{AllocError, Global};
use world::Event;

/// A schedule of a world: its nodes and what happens, in order.
#[derive(Drop)]
pub struct Script {
    /// The settings of the nodes.
    pub nodes: Vec<Settings>,
    /// The events.
    pub events: Vec<Event>,
}

/// The script of a text, or its first fault. Any other error is out of memory.
pub fn read_script(alloc: Global, text: &str) -> Result<Script, ScriptError>
    ensures script { IfOk result
        (λ script. IsScript text.now script.nodes.items script.events.items) }
    ensures only_script { (nodes : List NodeSettings) (events : List Happens)
        → IsScript text.now nodes events → ReadsOnly result nodes events }
    ensures fault { Refuses result (IsFirstFault text.now) }
    ensures only_fault { (line : ℕ) → IsFirstFault text.now line → RefusesOnly result line }
{
    let lines = lines(alloc, text)?;
    let mut draft = Draft::new(alloc);
    for place in 0..lines.len() {
        if let Err(fault) = draft.take_line(alloc, trimmed(lines[place])) {
            return Err(in_line(place, fault));
        }
    }
    Ok(Script {
        nodes: settings_of(alloc, &draft.nodes)?,
        events: draft.events,
    })
}

fn lines(alloc: Global, text: &str) -> Result<Vec<&str>, AllocError>
    ensures { IfOk result (λ found. map (λ line. line.now) found.items ≡ lines text.now) }
{
    text.lines().collect(alloc)
}

// A fault of the line at this place.
fn in_line(place: usize, fault: LineFault) -> ScriptError
    requires { place + 1 < 2 ^ 64 }
    ensures { result ≡ in_line place fault }
{
    match fault {
        LineFault::Form => ScriptError::Bad { line: place + 1 },
        LineFault::Memory => ScriptError::Memory,
    }
}
