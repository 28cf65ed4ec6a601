//! Plays stories about settings files and groups: writes each line of its input, and behind it what
//! the line brings about.
#![tactic(auto)]

mod peers;
mod shown;
mod story;
mod texts;

use std::io;
use story::Story;

fn main(rt: HostRuntime) -> io::Result<()> {
    let alloc = rt.alloc();
    let mut story = Story::new(alloc);
    for line in rt.lines(alloc) {
        let line = line?;
        let told = story.play(alloc, line.as_str())?;
        println!(rt; "{line}{told}")?;
    }
    Ok(())
}
