//! What the streams of a story share: the story, and what was shown of it.
use crate::book::Book;
use crate::failing::{Failing, Fault};
use crate::kinds::{BACKEND, FRONTEND};
use crate::name::{Name, Who};
use crate::story::Story;
use crate::sum::Sum;
use crate::words::put_words;
use std::alloc::{AllocError, Global};
use std::cell::{Cell, RefCell};
use std::sync::Arc;

#[derive(Drop)]
pub(crate) struct Stage {
    alloc: Global,
    book: Arc<Book, Global>,
    pub(crate) story: Arc<Story, Global>,
    shown: RefCell<String>,
    lines: Cell<usize>,
    // Whether something isn't shown, since there was no memory for it.
    is_short: Cell<bool>,
    // How many connections were asked for.
    dialed: Cell<u32>,
    failing: Option<Failing>,
    // How many calls there were that may fail, how many lines were shown when one failed, and whether
    // servers answer from then on.
    calls: Cell<usize>,
    failed_at: Cell<Option<usize>>,
    is_calm: Cell<bool>,
}

impl Stage {
    pub(crate) fn new(
        alloc: Global,
        book: &Arc<Book, Global>,
        story: &Arc<Story, Global>,
        failing: Option<Failing>,
    ) -> Result<Arc<Stage, Global>, AllocError> {
        let stage = Stage {
            alloc,
            book: Arc::try_clone(book)?,
            story: Arc::try_clone(story)?,
            shown: RefCell::new(String::new(alloc)),
            lines: Cell::new(0),
            is_short: Cell::new(false),
            dialed: Cell::new(0),
            failing,
            calls: Cell::new(0),
            failed_at: Cell::new(None),
            is_calm: Cell::new(false),
        };
        Ok(Arc::new(alloc, stage)?)
    }

    // The server that is connected to next.
    pub(crate) fn next_server(&self) -> Name {
        let number = self.dialed.get().wrapping_add(1);
        self.dialed.set(number);
        let who = Who::Server;
        Name { who, number }
    }

    // One more call of a connection of this side, which was shown. Returns how it fails, if it does.
    pub(crate) fn call(&self, who: Who) -> Option<Fault> {
        let failing = self.failing?;
        if failing.who != who {
            return None;
        }
        let number = self.calls.get();
        self.calls.set(number.wrapping_add(1));
        if failing.call != number {
            return None;
        }
        self.failed_at.set(Some(self.lines.get()));
        Some(failing.fault)
    }

    // How many lines were shown when a call failed.
    pub(crate) fn failed_at(&self) -> Option<usize> {
        self.failed_at.get()
    }

    // From now on servers answer what they are written.
    pub(crate) fn calm(&self) {
        self.is_calm.set(true);
    }

    // What a server gives that answers what it is written, by the first byte of that.
    pub(crate) fn answer(&self, name: Name, first: u8) -> Option<&[u8]> {
        if !self.answers(name) {
            return None;
        }
        let name = if first == 0 { "Login" } else { "Answer" };
        self.book.message(name)
    }

    // Whether it is a server that answers what it is written.
    fn answers(&self, name: Name) -> bool {
        self.is_calm.get() && name.who == Who::Server
    }

    // Whether this server can be connected to.
    pub(crate) fn has(&self, server: Name) -> bool {
        self.answers(server) || self.story.has(server)
    }

    // Shows a line.
    pub(crate) fn say(&self, line: Result<String, AllocError>) {
        if self.put(line).is_err() {
            self.is_short.set(true);
        }
    }

    fn put(&self, line: Result<String, AllocError>) -> Result<(), AllocError> {
        let line = line?;
        let Ok(mut shown) = self.shown.try_borrow_mut() else {
            return Err(AllocError);
        };
        self.lines.set(self.lines.get().wrapping_add(1));
        shown.push_str(line.as_str())?;
        shown.push_str("\n")
    }

    // Shows what was written to a stream.
    pub(crate) fn say_taken(&self, name: Name, bytes: &[u8]) {
        if self.answers(name) {
            return;
        }
        self.say(self.taken(name, bytes));
    }

    fn taken(&self, name: Name, bytes: &[u8]) -> Result<String, AllocError> {
        let mut line = format!(in self.alloc; "{name} <- ")?;
        let kinds = match name.who {
            Who::Server => FRONTEND,
            Who::Client | Who::Guest | Who::Later => BACKEND,
        };
        put_words(&self.book, kinds, bytes, &mut line)?;
        Ok(line)
    }

    // Shows the sum of all that was written to a stream.
    pub(crate) fn say_sum(&self, name: Name, sum: &Sum) {
        self.say(format!(in self.alloc; "{name} <- {sum}"));
    }

    // Shows what a stream gives.
    pub(crate) fn say_given(&self, name: Name, text: &str) {
        if self.answers(name) {
            return;
        }
        self.say(format!(in self.alloc; "{name} -> {text}"));
    }

    // Shows that a stream is closed before it gave this.
    pub(crate) fn say_unread(&self, name: Name, text: &str) {
        self.say(format!(in self.alloc; "{name} closed before: {text}"));
    }

    // Shows what a stream does.
    pub(crate) fn say_of(&self, name: Name, text: &str) {
        self.say(format!(in self.alloc; "{name} {text}"));
    }

    // Shows what a stream does with another.
    pub(crate) fn say_of_two(&self, name: Name, text: &str, other: Name) {
        self.say(format!(in self.alloc; "{name} {text} {other}"));
    }

    // Shows where a client connects to.
    pub(crate) fn say_dialed(&self, client: Name, to: &str, number: u16) {
        self.say(format!(in self.alloc; "{client} {to} {number}"));
    }

    // Shows that a message is too long.
    pub(crate) fn say_refused(&self, client: Name, is_its_own: bool, bytes: usize) {
        let whose = if is_its_own { "its" } else { "its server's" };
        self.say(format!(in self.alloc;
            "{client} learns that {whose} message of {bytes} is too long"
        ));
    }

    // Shows the point of a gate.
    pub(crate) fn say_point(&self, point: &str) {
        self.say(format!(in self.alloc; "at {point}"));
    }

    // Shows what comes of starting the node anew.
    pub(crate) fn say_restart(&self, is_new: bool) {
        let reply = if is_new { "done" } else { "refused" };
        self.say(format!(in self.alloc; "restart: {reply}"));
    }

    // All that was shown.
    pub(crate) fn shown(&self) -> Result<String, AllocError> {
        if self.is_short.get() {
            return Err(AllocError);
        }
        match self.shown.try_borrow() {
            Ok(shown) => String::from_str(self.alloc, shown.as_str()),
            Err(_) => Err(AllocError),
        }
    }
}
