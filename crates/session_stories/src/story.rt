//! A story: a node, what its streams give, and how they behave.
use crate::book::Book;
use crate::encoder::{Wrong, encode};
use crate::name::{Name, Who};
use std::alloc::{AllocError, Global};

// What a stream gives at its next read: bytes, or an error. To give no bytes is the end of the
// input.
#[derive(Drop)]
pub(crate) struct Turn {
    name: Name,
    pub(crate) text: String,
    pub(crate) bytes: Vec<u8>,
    pub(crate) breaks: bool,
}

// How a stream behaves.
#[derive(Clone, Copy, PartialEq, Eq)]
pub(crate) enum Trait {
    // Its client is gone when it could have a link.
    Gone,
    // It isn't as it was left, where it is a link.
    Changed,
    // It takes this many bytes.
    Takes(usize),
    // A read gives this many bytes at most.
    Gives(usize),
    // What it takes is shown by its sum.
    Summed,
}

#[derive(Drop)]
pub(crate) struct Story {
    // The settings of its node, and where its node's secrets and numbers begin.
    pub(crate) settings: String,
    pub(crate) seed: [u8; 32],
    pub(crate) boot: u64,
    // The limit of a message, if it isn't the usual one.
    pub(crate) limit: Option<u32>,
    // How often the node is started anew in the end.
    pub(crate) restarts: u32,
    // On whose connections each call fails in its turn.
    pub(crate) fails: Option<Who>,
    // The parameters that logins report, one after the other.
    pub(crate) reports: Vec<(String, String)>,
    turns: Vec<Turn>,
    traits: Vec<(Name, Trait)>,
}

// The bytes 0 to 31.
const COUNTING: [u8; 32] = [
    0, 1, 2, 3, 4, 5, 6, 7, 8, 9, 10, 11, 12, 13, 14, 15, 16, 17, 18, 19, 20, 21, 22, 23, 24, 25,
    26, 27, 28, 29, 30, 31,
];

// The seventh start of a program.
const BOOT: u64 = 7 << 32;

impl Story {
    // A story in which nothing happens.
    pub(crate) fn new(alloc: Global) -> Story {
        Story {
            settings: String::new(alloc),
            seed: COUNTING,
            boot: BOOT,
            limit: None,
            restarts: 0,
            fails: None,
            reports: Vec::new(alloc),
            turns: Vec::new(alloc),
            traits: Vec::new(alloc),
        }
    }

    // Reads a line. Returns whether it is one that is shown before what happens.
    pub(crate) fn take(&mut self, alloc: Global, book: &Book, line: &str) -> Result<bool, Wrong> {
        let (word, rest) = line.split_once(' ').unwrap_or((line, ""));
        match word {
            "#" | "|" | "node" => return Ok(true),
            "message" => check_message(alloc, book, rest)?,
            "at" => self.settle(alloc, book, rest)?,
            "seed" if rest == "zeros" => self.seed = [0; 32],
            "boot" => self.boot = rest.parse::<u64>().map_err(|_| Wrong::Text)?,
            "limit" => self.limit = Some(rest.parse::<u32>().map_err(|_| Wrong::Text)?),
            "restarts" => self.restarts = rest.parse::<u32>().map_err(|_| Wrong::Text)?,
            "fails" => self.fails = Some(Who::read(rest).ok_or(Wrong::Text)?),
            "report" => self.report(alloc, rest)?,
            _ => {
                let who = Who::read(word).ok_or(Wrong::Text)?;
                return self.take_stream(alloc, book, who, rest);
            }
        }
        Ok(true)
    }

    // It happens at the node of this name.
    fn settle(&mut self, alloc: Global, book: &Book, name: &str) -> Result<(), Wrong> {
        let bytes = book.node(name).ok_or(Wrong::Text)?;
        let Ok(text) = std::str::from_utf8(bytes) else {
            return Err(Wrong::Text);
        };
        self.settings = String::from_str(alloc, text)?;
        Ok(())
    }

    fn report(&mut self, alloc: Global, text: &str) -> Result<(), Wrong> {
        let (name, value) = text.split_once(' ').ok_or(Wrong::Text)?;
        let name = String::from_str(alloc, name)?;
        let value = String::from_str(alloc, value)?;
        Ok(self.reports.push((name, value))?)
    }

    // A line on a stream: a turn, or how it behaves.
    fn take_stream(
        &mut self,
        alloc: Global,
        book: &Book,
        who: Who,
        rest: &str,
    ) -> Result<bool, Wrong> {
        if let Some((number, text)) = rest.split_once(": ") {
            let name = name_of(who, number)?;
            self.turns.push(turn_of(alloc, book, name, text)?)?;
            return Ok(false);
        }
        let (number, text) = rest.split_once(' ').ok_or(Wrong::Text)?;
        let name = name_of(who, number)?;
        self.traits.push((name, trait_of(text)?))?;
        Ok(true)
    }

    // Whether there is a stream of this name.
    pub(crate) fn has(&self, name: Name) -> bool {
        self.turn(name, 0).is_some() || self.traits.iter().any(|entry| entry.0 == name)
    }

    // Whether the stream behaves so.
    pub(crate) fn is(&self, name: Name, behaves: Trait) -> bool {
        self.traits
            .iter()
            .any(|entry| entry.0 == name && entry.1 == behaves)
    }

    // How many bytes it takes, and how many a read gives at most.
    pub(crate) fn room(&self, name: Name) -> usize {
        for (other, behaves) in &self.traits {
            if let Trait::Takes(count) = behaves
                && *other == name
            {
                return *count;
            }
        }
        usize::MAX
    }

    pub(crate) fn piece(&self, name: Name) -> usize {
        for (other, behaves) in &self.traits {
            if let Trait::Gives(count) = behaves
                && *other == name
            {
                return *count;
            }
        }
        usize::MAX
    }

    // The stream's turn at this place.
    pub(crate) fn turn(&self, name: Name, place: usize) -> Option<&Turn> {
        let mut left = place;
        for turn in &self.turns {
            if turn.name == name {
                if left == 0 {
                    return Some(turn);
                }
                left -= 1;
            }
        }
        None
    }
}

// A message that is given a name is read by its book.
fn check_message(alloc: Global, book: &Book, text: &str) -> Result<(), Wrong> {
    let (_name, messages) = text.split_once(": ").ok_or(Wrong::Text)?;
    let _bytes = encode(alloc, book, messages)?;
    Ok(())
}

fn name_of(who: Who, number: &str) -> Result<Name, Wrong> {
    let number = number.parse::<u32>().map_err(|_| Wrong::Text)?;
    Ok(Name { who, number })
}

fn turn_of(alloc: Global, book: &Book, name: Name, text: &str) -> Result<Turn, Wrong> {
    let bytes = match text {
        "ends" | "breaks" => Vec::new(alloc),
        _ => encode(alloc, book, text)?,
    };
    Ok(Turn {
        name,
        text: String::from_str(alloc, text)?,
        bytes,
        breaks: text == "breaks",
    })
}

fn trait_of(text: &str) -> Result<Trait, Wrong> {
    match text {
        "is gone" => return Ok(Trait::Gone),
        "has changed" => return Ok(Trait::Changed),
        "is summed" => return Ok(Trait::Summed),
        _ => {}
    }
    let (word, count) = text.split_once(' ').ok_or(Wrong::Text)?;
    let count = count.parse::<usize>().map_err(|_| Wrong::Text)?;
    match word {
        "takes" => Ok(Trait::Takes(count)),
        "gives" => Ok(Trait::Gives(count)),
        _ => Err(Wrong::Text),
    }
}
