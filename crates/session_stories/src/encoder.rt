//! The bytes of messages that are written as words.
use crate::book::Book;
use crate::kinds::{Kind, kind_of};
use std::alloc::{AllocError, AllocFailed, Global};

// Why words have no bytes.
#[derive(Clone, Copy, PartialEq, Eq)]
pub(crate) enum Wrong {
    Memory,
    Text,
}

impl From<AllocError> for Wrong {
    fn from(_e: AllocError) -> Wrong {
        Wrong::Memory
    }
}

impl<T: Drop> From<AllocFailed<T>> for Wrong {
    fn from(_e: AllocFailed<T>) -> Wrong {
        Wrong::Memory
    }
}

// How a message began.
#[derive(Clone, Copy)]
enum Head {
    // It has not begun.
    Missing,
    // By a name that the book has, whose bytes are put.
    Named,
    // By `bytes`: it has no letter and no length but those that are given.
    Raw,
    Message(Kind),
}

// What was read of the words so far.
#[derive(Drop)]
struct Encoder {
    alloc: Global,
    bytes: Vec<u8>,
    head: Head,
    body: Vec<u8>,
    word: String,
    // The quotation mark that ends a text.
    quote: Option<u8>,
}

// The bytes of messages, which stand behind one another with a comma between them.
pub(crate) fn encode(alloc: Global, book: &Book, text: &str) -> Result<Vec<u8>, Wrong> {
    let mut encoder = Encoder {
        alloc,
        bytes: Vec::new(alloc),
        head: Head::Missing,
        body: Vec::new(alloc),
        word: String::new(alloc),
        quote: None,
    };
    for byte in text.as_bytes() {
        encoder.take(book, *byte)?;
    }
    encoder.end_message(book)?;
    Ok(encoder.bytes)
}

impl Encoder {
    fn take(&mut self, book: &Book, byte: u8) -> Result<(), Wrong> {
        match self.quote {
            Some(quote) if byte == quote => self.end_text(byte),
            Some(_) => Ok(self.body.push(byte)?),
            None => self.take_plain(book, byte),
        }
    }

    // A String ends with a zero byte.
    fn end_text(&mut self, quote: u8) -> Result<(), Wrong> {
        self.quote = None;
        if quote == b'"' {
            self.body.push(0)?;
        }
        Ok(())
    }

    fn take_plain(&mut self, book: &Book, byte: u8) -> Result<(), Wrong> {
        match byte {
            b'"' | b'\'' => {
                self.quote = Some(byte);
                Ok(())
            }
            b' ' => self.end_word(book),
            b',' => self.end_message(book),
            _ => Ok(self.word.push(char::from(byte))?),
        }
    }

    // A word is the name of a message, or bytes of its body.
    fn end_word(&mut self, book: &Book) -> Result<(), Wrong> {
        if self.word.is_empty() {
            return Ok(());
        }
        match self.head {
            Head::Missing => self.begin(book)?,
            _ => self.take_bytes()?,
        }
        self.word.clear();
        Ok(())
    }

    fn begin(&mut self, book: &Book) -> Result<(), Wrong> {
        if let Some(bytes) = book.message(self.word.as_str()) {
            self.bytes.extend_from_slice(bytes)?;
            self.head = Head::Named;
        } else if self.word.as_str() == "bytes" {
            self.head = Head::Raw;
        } else {
            let kind = kind_of(self.word.as_str()).ok_or(Wrong::Text)?;
            self.body.extend_from_slice(kind.code)?;
            self.head = Head::Message(kind);
        }
        Ok(())
    }

    fn take_bytes(&mut self) -> Result<(), Wrong> {
        if let Some(count) = self.word.as_str().strip_prefix("run:") {
            let count = count.parse::<usize>().map_err(|_| Wrong::Text)?;
            return self.take_run(count);
        }
        let Ok(bytes) = hex::decode(self.alloc, self.word.as_str()) else {
            return Err(Wrong::Text);
        };
        Ok(self.body.extend_from_slice(bytes.as_slice())?)
    }

    // As many bytes, from 33 to 121 again and again.
    fn take_run(&mut self, count: usize) -> Result<(), Wrong> {
        for place in 0..count {
            let byte = u8::try_from(place % 89).unwrap_or(0).wrapping_add(33);
            self.body.push(byte)?;
        }
        Ok(())
    }

    fn end_message(&mut self, book: &Book) -> Result<(), Wrong> {
        self.end_word(book)?;
        match self.head {
            Head::Missing => return Err(Wrong::Text),
            Head::Named if !self.body.is_empty() => return Err(Wrong::Text),
            Head::Named | Head::Raw => {}
            Head::Message(kind) => self.put_head(kind)?,
        }
        self.bytes.extend_from_slice(self.body.as_slice())?;
        self.body.clear();
        self.head = Head::Missing;
        Ok(())
    }

    // The letter, and the length, which counts itself.
    fn put_head(&mut self, kind: Kind) -> Result<(), Wrong> {
        if kind.letter != 0 {
            self.bytes.push(kind.letter)?;
        }
        let length = u32::try_from(self.body.len()).map_err(|_| Wrong::Text)?;
        let length = length.wrapping_add(4).to_be_bytes();
        Ok(self.bytes.extend_from_slice(&length)?)
    }
}
