//! Plays stories of command lines: transcripts of a shell whose only program is pgpeer.
#![tactic(auto)]

mod files;
mod lines;
mod outputs;
mod requests;
mod stage;
mod words;

use stage::played;
use std::io::{self, Write};

fn main(rt: HostRuntime) -> io::Result<()> {
    let stories = io::read_to_string(rt.alloc(), rt.stdin())?;
    let text = played(&rt, rt.alloc(), stories.as_str())?;
    let mut out = rt.stdout();
    out.write_all(&text)?;
    out.flush()
}
