//! A story's state, and how each of its lines is played.
use crate::files::{Files, StoryFile};
use crate::lines::Line;
use crate::outputs::{Written, count_lines, cut_first_line};
use crate::requests::write_running;
use crate::words::words_of;
use answer::{answer, usage_fault, write_fault};
use command_line::Running;
use std::alloc::{AllocError, Global};
use std::sync::Wait;

// How many lines behind the first line of a call are written again though they are the same.
const FEW: usize = 3;

// The files of a story, and its last call.
#[derive(Drop)]
struct Stage {
    files: Vec<StoryFile>,
    // Whether lines belong to the last of them.
    is_open: bool,
    // What the last call wrote behind its first line.
    rest: Vec<u8>,
}

/// Each line of the stories, and behind it what it brings about.
pub(crate) fn played<R: Wait>(rt: &R, alloc: Global, stories: &str) -> Result<Vec<u8>, AllocError> {
    let mut stage = Stage {
        files: Vec::new(alloc),
        is_open: false,
        rest: Vec::new(alloc),
    };
    let mut text = Vec::new(alloc);
    for line in stories.lines() {
        text.extend_from_slice(line.as_bytes())?;
        text.push(b'\n')?;
        stage.play(rt, alloc, line, &mut text)?;
    }
    Ok(text)
}

impl Stage {
    // Appends what a line brings about.
    fn play<R: Wait>(
        &mut self,
        rt: &R,
        alloc: Global,
        line: &str,
        text: &mut Vec<u8>,
    ) -> Result<(), AllocError> {
        if self.is_open {
            return self.add_line(line);
        }
        match Line::read(line) {
            Line::End => self.end(),
            Line::Comment => {}
            Line::File { name, fails } => self.open(alloc, name, fails)?,
            Line::Call(arguments) => self.call(rt, alloc, arguments, text)?,
            Line::Unknown => text.extend_from_slice(b"error: no line of a story\n")?,
        }
        Ok(())
    }

    // The end of a story.
    fn end(&mut self) {
        self.files.clear();
        self.rest.clear();
    }

    // The lines of a file follow.
    fn open(&mut self, alloc: Global, name: &str, fails: bool) -> Result<(), AllocError> {
        self.files.push(StoryFile::new(alloc, name, fails)?)?;
        self.is_open = true;
        Ok(())
    }

    // One more line of the last file, or its end.
    fn add_line(&mut self, line: &str) -> Result<(), AllocError> {
        if line == "end" {
            self.is_open = false;
            return Ok(());
        }
        match self.files.last_mut() {
            Some(file) => file.add_line(line),
            None => Ok(()),
        }
    }

    // Calls the program, and appends what it writes.
    fn call<R: Wait>(
        &mut self,
        rt: &R,
        alloc: Global,
        arguments: &str,
        text: &mut Vec<u8>,
    ) -> Result<(), AllocError> {
        let words = words_of(alloc, arguments)?;
        let files = Files {
            entries: &self.files,
        };
        let mut written = Written::new(alloc);
        execute(rt, alloc, &words, &files, &mut written)?;
        let mut shown = Vec::new(alloc);
        written.append_to(alloc, &mut shown)?;
        self.append(&shown, text)
    }

    // Appends what a call wrote. Two dots stand for what is behind the first line, where that is
    // more than a few lines and the same as of the call before.
    fn append(&mut self, shown: &[u8], text: &mut Vec<u8>) -> Result<(), AllocError> {
        let (first, rest) = cut_first_line(shown);
        text.extend_from_slice(first)?;
        if count_lines(rest) > FEW && rest == self.rest.as_slice() {
            return text.extend_from_slice(b"..\n");
        }
        text.extend_from_slice(rest)?;
        self.rest.clear();
        self.rest.extend_from_slice(rest)
    }
}

// Does what these arguments ask the program for, but tells of what would run until it is stopped.
fn execute<R: Wait>(
    rt: &R,
    alloc: Global,
    words: &[&str],
    files: &Files<'_>,
    written: &mut Written,
) -> Result<(), AllocError> {
    match Running::read(alloc, words) {
        Ok(Some(running)) => write_running(alloc, files, running, written),
        Ok(None) => {
            written.status = answer(rt, alloc, words, files, &mut written.out, &mut written.err);
            Ok(())
        }
        Err(wrong) => {
            let fault = usage_fault(alloc, words, wrong);
            written.status = write_fault(alloc, &mut written.err, &fault);
            Ok(())
        }
    }
}
