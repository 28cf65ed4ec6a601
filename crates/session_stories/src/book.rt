//! Names that stories share: of messages and of nodes.
use crate::encoder::{Wrong, encode};
use std::alloc::{AllocError, Global};

// A name, and the bytes that it stands for.
#[derive(Drop)]
pub(crate) struct Entry {
    pub(crate) name: String,
    pub(crate) bytes: Vec<u8>,
}

// What names stand for: the bytes of messages, and the text of a node's settings.
#[derive(Drop)]
pub(crate) struct Book {
    messages: Vec<Entry>,
    nodes: Vec<Entry>,
}

impl Book {
    // What a text gives names to. Lines that can't be read give none.
    pub(crate) fn read(alloc: Global, text: &str) -> Result<Book, AllocError> {
        let mut book = Book {
            messages: Vec::new(alloc),
            nodes: Vec::new(alloc),
        };
        for line in text.lines() {
            book.take(alloc, line)?;
        }
        Ok(book)
    }

    fn take(&mut self, alloc: Global, line: &str) -> Result<(), AllocError> {
        let Some((word, rest)) = line.split_once(' ') else {
            return Ok(());
        };
        match word {
            "message" => self.take_message(alloc, rest),
            "node" => add(alloc, &mut self.nodes, rest, Vec::new(alloc)),
            "|" => self.take_setting(rest),
            _ => Ok(()),
        }
    }

    fn take_message(&mut self, alloc: Global, text: &str) -> Result<(), AllocError> {
        let Some((name, messages)) = text.split_once(": ") else {
            return Ok(());
        };
        match encode(alloc, self, messages) {
            Ok(bytes) => add(alloc, &mut self.messages, name, bytes),
            Err(Wrong::Memory) => Err(AllocError),
            Err(Wrong::Text) => Ok(()),
        }
    }

    // A line of the settings of the last node.
    fn take_setting(&mut self, line: &str) -> Result<(), AllocError> {
        if let Some(node) = self.nodes.last_mut() {
            node.bytes.extend_from_slice(line.as_bytes())?;
            node.bytes.extend_from_slice(b"\n")?;
        }
        Ok(())
    }

    // The bytes of the messages of this name.
    pub(crate) fn message(&self, name: &str) -> Option<&[u8]> {
        find(self.messages.as_slice(), name)
    }

    // The settings of the node of this name.
    pub(crate) fn node(&self, name: &str) -> Option<&[u8]> {
        find(self.nodes.as_slice(), name)
    }

    // The longest messages with a name that these bytes begin with, with the bytes behind them.
    pub(crate) fn longest<'a, 'b>(&'a self, bytes: &'b [u8]) -> Option<(&'a str, &'b [u8])> {
        let mut longest = None;
        let mut left = bytes.len();
        for entry in &self.messages {
            if let Some(rest) = bytes.strip_prefix(entry.bytes.as_slice())
                && rest.len() < left
            {
                left = rest.len();
                longest = Some((entry.name.as_str(), rest));
            }
        }
        longest
    }
}

fn add(
    alloc: Global,
    entries: &mut Vec<Entry>,
    name: &str,
    bytes: Vec<u8>,
) -> Result<(), AllocError> {
    let name = String::from_str(alloc, name)?;
    Ok(entries.push(Entry { name, bytes })?)
}

fn find<'a>(entries: &'a [Entry], name: &str) -> Option<&'a [u8]> {
    for entry in entries {
        if entry.name.as_str() == name {
            return Some(entry.bytes.as_slice());
        }
    }
    None
}
