//! A story is read, played and shown.
use crate::book::Book;
use crate::encoder::Wrong;
use crate::failing::{Failing, Fault};
use crate::name::{Name, Who};
use crate::node::{Unplayed, play};
use crate::stage::Stage;
use crate::story::Story;
use std::alloc::{AllocError, Global};
use std::sync::{Arc, Wait};

const FIRST: Name = Name {
    who: Who::Client,
    number: 1,
};

// What is shown of a story: its lines, and then what happens.
pub(crate) fn tell<R: Wait>(
    rt: &R,
    alloc: Global,
    book: &Arc<Book, Global>,
    text: &str,
) -> Result<String, AllocError> {
    let mut shown = String::new(alloc);
    let mut story = Story::new(alloc);
    for line in text.lines() {
        take_line(alloc, book, &mut story, line, &mut shown)?;
    }
    if story.has(FIRST) {
        show_played(rt, alloc, book, story, &mut shown)?;
    }
    Ok(shown)
}

fn take_line(
    alloc: Global,
    book: &Book,
    story: &mut Story,
    line: &str,
    shown: &mut String,
) -> Result<(), AllocError> {
    match story.take(alloc, book, line) {
        Ok(true) => shown.push_str(line)?,
        Ok(false) => return Ok(()),
        Err(Wrong::Text) => write!(shown, "can't be read: {line}")?,
        Err(Wrong::Memory) => return Err(AllocError),
    }
    shown.push_str("\n")
}

fn show_played<R: Wait>(
    rt: &R,
    alloc: Global,
    book: &Arc<Book, Global>,
    story: Story,
    shown: &mut String,
) -> Result<(), AllocError> {
    let fails = story.fails;
    let story = Arc::new(alloc, story)?;
    let stage = Stage::new(alloc, book, &story, None)?;
    match play(rt, alloc, &stage) {
        Ok(()) => shown.push_str(stage.shown()?.as_str())?,
        Err(Unplayed::Settings) => return shown.push_str("its settings are refused\n"),
        Err(Unplayed::Memory) => return Err(AllocError),
    }
    match fails {
        Some(who) => show_failing(rt, alloc, book, &story, who, shown),
        None => Ok(()),
    }
}

// More calls than a story has.
const CALLS: usize = 1_000;

// Shows what happens when each call of these connections fails in its turn. How it fails is shown
// where that makes a difference.
fn show_failing<R: Wait>(
    rt: &R,
    alloc: Global,
    book: &Arc<Book, Global>,
    story: &Arc<Story, Global>,
    who: Who,
    shown: &mut String,
) -> Result<(), AllocError> {
    for call in 0..CALLS {
        let mut usual = String::new(alloc);
        for fault in [Fault::Breaks, Fault::Interrupted, Fault::Stops] {
            let failing = Failing { who, call, fault };
            let Some(text) = failed(rt, alloc, book, story, failing)? else {
                return Ok(());
            };
            if text.as_str() != usual.as_str() {
                let (words, text) = (fault.words(), text.as_str());
                write!(shown, "{call} {words}: {text}\n")?;
            }
            if fault == Fault::Breaks {
                usual = text;
            }
        }
    }
    Ok(())
}

// What is shown where this call fails, if there is one.
fn failed<R: Wait>(
    rt: &R,
    alloc: Global,
    book: &Arc<Book, Global>,
    story: &Arc<Story, Global>,
    failing: Failing,
) -> Result<Option<String>, AllocError> {
    let stage = Stage::new(alloc, book, story, Some(failing))?;
    if play(rt, alloc, &stage).is_err() {
        return Err(AllocError);
    }
    let Some(lines) = stage.failed_at() else {
        return Ok(None);
    };
    let shown = stage.shown()?;
    Ok(Some(summary(alloc, shown.as_str(), lines)?))
}

// The last of this many lines, and what is read and written afterwards, in one line.
fn summary(alloc: Global, shown: &str, lines: usize) -> Result<String, AllocError> {
    let mut summary = String::new(alloc);
    for (place, line) in shown.lines().enumerate() {
        let number = place.wrapping_add(1);
        if number == lines {
            summary.push_str(line)?;
        } else if number > lines && is_kept(line) {
            summary.push_str("; ")?;
            summary.push_str(line)?;
        }
    }
    Ok(summary)
}

// Whether a line tells what is read or written, or the calls that were counted. Of those who come
// later it is what they get behind their greeting.
fn is_kept(line: &str) -> bool {
    if line.starts_with("later") {
        return line.contains(" <- ") && !line.contains("Welcome");
    }
    line.contains(" -> ") || line.contains(" <- ") || line.starts_with("calls")
}
