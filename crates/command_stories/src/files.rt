//! The files of a story, over memory.
ghost use Rattle.std.specs.Prelude.{⊤};

use answer::Opener;
use hex::FromHex;
use std::alloc::{AllocError, Global};
use std::io::{self, ErrorKind, Read};

/// A file: its name, what it holds, and whether a read fails at its end.
#[derive(Drop)]
pub struct StoryFile {
    name: String,
    text: Vec<u8>,
    fails: bool,
}

impl StoryFile {
    /// A file that holds nothing yet.
    pub(crate) fn new(alloc: Global, name: &str, fails: bool) -> Result<StoryFile, AllocError> {
        Ok(StoryFile {
            name: String::from_str(alloc, name)?,
            text: Vec::new(alloc),
            fails,
        })
    }

    /// Adds a line. One that ends with a backslash has no line's end.
    pub(crate) fn add_line(&mut self, line: &str) -> Result<(), AllocError> {
        if let Some(line) = line.strip_suffix('\\') {
            return self.add_part(line);
        }
        self.add_part(line)?;
        self.text.push(b'\n')?;
        Ok(())
    }

    // Adds a text in which a backslash and two hexadecimal digits are a byte.
    fn add_part(&mut self, part: &str) -> Result<(), AllocError> {
        let mut is_first = true;
        for plain in part.split('\\') {
            if is_first {
                self.text.extend_from_slice(plain.as_bytes())?;
            } else {
                self.add_escaped(plain.as_bytes())?;
            }
            is_first = false;
        }
        Ok(())
    }

    // Adds the byte that the first two digits say, and what is behind them.
    fn add_escaped(&mut self, bytes: &[u8]) -> Result<(), AllocError> {
        let (digits, rest) = bytes.split_at(bytes.len().min(2));
        match <[u8; 1] as FromHex>::from_hex(digits) {
            Ok(byte) => self.text.extend_from_slice(&byte)?,
            Err(_) => self.text.extend_from_slice(digits)?,
        }
        self.text.extend_from_slice(rest)
    }
}

/// The files of a story.
#[derive(Drop)]
pub struct Files<'a> {
    /// In the order of the story.
    pub entries: &'a [StoryFile],
}

/// A reader of a text, behind which a read may fail.
#[derive(Drop)]
pub struct Text<'a> {
    left: &'a [u8],
    fails: bool,
}

impl Read for Text<'_> {
    fn read(&mut self, buf: &mut [u8]) -> io::Result<usize> {
        if self.left.is_empty() && self.fails {
            return Err(io::Error::from(ErrorKind::ConnectionReset));
        }
        self.left.read(buf)
    }
}

impl<'a> Opener for Files<'a> {
    type Reader = Text<'a>;

    // No contract says what a story has.
    ghost opens = { λ _ _ _. ⊤ };

    fn open(&self, name: &str) -> io::Result<Text<'a>> {
        match found(self.entries, name) {
            Some(file) => Ok(Text {
                left: &file.text,
                fails: file.fails,
            }),
            None => Err(io::Error::from(ErrorKind::NotFound)),
        }
    }
}

// The last file with this name.
fn found<'a>(entries: &'a [StoryFile], name: &str) -> Option<&'a StoryFile> {
    entries.iter().rfind(|file| file.name.as_str() == name)
}
