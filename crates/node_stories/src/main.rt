//! Plays stories about a node behind its lock and its console: writes each line of its input, and
//! behind it what the line brings about.
#![tactic(auto)]

mod console_text;
mod counts;
mod desk;
mod node_text;
mod post;
mod refusals;
mod reply_text;
mod steps;
mod table;
mod words;

use desk::Desk;
use std::io;

fn main(rt: HostRuntime) -> io::Result<()> {
    let alloc = rt.alloc();
    let mut desk = Desk::new(alloc)?;
    for line in rt.lines(alloc) {
        let line = line?;
        let told = desk.play(&rt, alloc, line.as_str())?;
        println!(rt; "{line}{told}")?;
    }
    Ok(())
}
