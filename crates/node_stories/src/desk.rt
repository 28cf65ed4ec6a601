//! What a story has: a node, and what that handed out.
use crate::console_text::{bytes, messages};
use crate::counts::counts;
use crate::node_text::node_text;
use crate::post::{Link, Post};
use crate::refusals::refusals;
use crate::table::Table;
use crate::words::{Trouble, number, told};
use console::rows;
use ini_config::{IniCode, Settings, read_settings};
use node_core::{PassRecord, PermitRecord, TicketRecord};
use pg_frames::Frame;
use std::alloc::{AllocError, Global};
use std::sync::Wait;

/// A node with its settings, and what it handed out, each by its client or by its own number.
#[derive(Drop)]
pub(crate) struct Desk {
    pub(crate) post: Post,
    settings: Settings,
    // The lines of a settings file.
    file: String,
    // The boot of the next node.
    boot: u64,
    // What the console says of cancel requests.
    board: [u64; 8],
    pub(crate) passes: Table<PassRecord>,
    pub(crate) permits: Table<PermitRecord>,
    pub(crate) links: Table<Link>,
    pub(crate) tickets: Table<TicketRecord>,
}

impl Desk {
    /// A node with one slot, and a place for one link.
    pub(crate) fn new(alloc: Global) -> Result<Desk, AllocError> {
        let file = node_text(alloc, "0", "1", "1", &[])?;
        let Ok(settings) = read_settings(alloc, file.as_str()) else {
            return Err(AllocError);
        };
        Ok(Desk {
            post: Post::new(alloc, &settings, 0)?,
            settings,
            file: String::new(alloc),
            boot: 0,
            board: [0; 8],
            passes: Table::new(alloc),
            permits: Table::new(alloc),
            links: Table::new(alloc),
            tickets: Table::new(alloc),
        })
    }

    /// What a line brings about, as it is written behind the line. An empty line begins a new
    /// story, and a comment does nothing.
    pub(crate) fn play<R: Wait>(
        &mut self,
        rt: &R,
        alloc: Global,
        line: &str,
    ) -> Result<String, AllocError> {
        if line.is_empty() {
            self.begin();
            return Ok(String::new(alloc));
        }
        match self.act(rt, alloc, line) {
            Ok(text) => Ok(text),
            Err(Trouble::Line) => format!(in alloc; " -> no such call"),
            Err(Trouble::Memory) => Err(AllocError),
        }
    }

    // Nothing was handed out.
    fn begin(&mut self) {
        self.file.clear();
        self.boot = 0;
        self.board = [0; 8];
        self.passes.clear();
        self.permits.clear();
        self.links.clear();
        self.tickets.clear();
    }

    // What a line brings about that isn't empty.
    fn act<R: Wait>(&mut self, rt: &R, alloc: Global, line: &str) -> Result<String, Trouble> {
        let (name, rest) = line.split_once(' ').unwrap_or((line, ""));
        match name {
            "#" => Ok(String::new(alloc)),
            "|" => self.write_line(alloc, rest),
            "ask" => self.ask(rt, alloc, rest, false),
            "bytes" => self.ask(rt, alloc, rest, true),
            "counts" => Ok(counts(alloc, self.post.calls_left(), self.post.tally())?),
            "refusals" => Ok(refusals(alloc)?),
            _ => self.act_on(rt, alloc, name, rest),
        }
    }

    // What a call with words brings about.
    fn act_on<R: Wait>(
        &mut self,
        rt: &R,
        alloc: Global,
        name: &str,
        rest: &str,
    ) -> Result<String, Trouble> {
        let words: Vec<&str> = rest.split(' ').collect(alloc)?;
        match words.as_slice() {
            [number, pool, clients, peers @ ..] if name == "node" => {
                let text = node_text(alloc, number, pool, clients, peers)?;
                self.make(alloc, text.as_str())
            }
            [one] => self.one_word(rt, alloc, name, one),
            [one, two] => self.two_words(rt, alloc, name, one, two),
            [one, two, three] => self.three_words(rt, alloc, name, one, two, three),
            all if name == "board" => self.set_board(alloc, all),
            _ => Err(Trouble::Line),
        }
    }

    // The file has one line more.
    fn write_line(&mut self, alloc: Global, line: &str) -> Result<String, Trouble> {
        self.file.push_str(line)?;
        self.file.push('\n')?;
        Ok(String::new(alloc))
    }

    /// The boot of the next node.
    pub(crate) fn set_boot(&mut self, alloc: Global, boot: u64) -> Result<String, Trouble> {
        self.boot = boot;
        Ok(String::new(alloc))
    }

    /// A new node, by the story's file. What an earlier one handed out is kept.
    pub(crate) fn make_of_file(&mut self, alloc: Global) -> Result<String, Trouble> {
        let file = self.file.clone()?;
        self.make(alloc, file.as_str())
    }

    // A new node with these settings.
    fn make(&mut self, alloc: Global, text: &str) -> Result<String, Trouble> {
        match read_settings(alloc, text) {
            Ok(settings) => {
                self.post = Post::new(alloc, &settings, self.boot)?;
                self.settings = settings;
                Ok(String::new(alloc))
            }
            Err(fault) => Ok(format!(in alloc; " -> {fault}")?),
        }
    }

    // What the console says of cancel requests.
    fn set_board(&mut self, alloc: Global, words: &[&str]) -> Result<String, Trouble> {
        for (place, word) in words.iter().enumerate() {
            if place < 8 {
                self.board[place] = number(word)?;
            }
        }
        Ok(String::new(alloc))
    }

    // The console's answer to a query, or its bytes.
    fn ask<R: Wait>(
        &mut self,
        rt: &R,
        alloc: Global,
        query: &str,
        in_bytes: bool,
    ) -> Result<String, Trouble> {
        let frames = self.frames(rt, alloc, query)?;
        if in_bytes {
            Ok(bytes(alloc, &frames)?)
        } else {
            Ok(messages(alloc, &frames)?)
        }
    }

    // The messages of the console's answer. The query is written with `\s` for a blank, `\t` for a
    // tab, and `\0` for a zero byte.
    fn frames<R: Wait>(
        &mut self,
        rt: &R,
        alloc: Global,
        query: &str,
    ) -> Result<Vec<Frame>, AllocError> {
        let query = query.replace(alloc, "\\s", " ")?;
        let query = query.as_str().replace(alloc, "\\t", "\t")?;
        let query = query.as_str().replace(alloc, "\\0", "\0")?;
        let view = self.post.view(rt, alloc)?;
        rows(alloc, query.as_str(), &view, &self.board, &self.settings)
    }
}
