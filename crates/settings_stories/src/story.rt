//! A story: the file that it has written so far, and the nodes that it has read.
use crate::peers::{group_told, node_text};
use crate::shown::{codes, database_told, listed, settings_told};
use crate::texts::{append, append_times, told};
use ini_config::{Settings, read_settings};
use std::alloc::{AllocError, Global};

/// What a story has made so far.
#[derive(Drop)]
pub(crate) struct Story {
    // The text of a settings file.
    text: String,
    // The nodes of a group.
    nodes: Vec<Settings>,
}

impl Story {
    /// Nothing.
    pub(crate) fn new(alloc: Global) -> Story {
        Story {
            text: String::new(alloc),
            nodes: Vec::new(alloc),
        }
    }

    /// What a line brings about, as it is written behind the line. An empty line begins a new
    /// story, and a comment does nothing.
    pub(crate) fn play(&mut self, alloc: Global, line: &str) -> Result<String, AllocError> {
        if line.is_empty() {
            self.text.clear();
            self.nodes.clear();
        }
        if line.is_empty() || line.starts_with('#') {
            return Ok(String::new(alloc));
        }
        let (name, words) = line.split_once(' ').unwrap_or((line, ""));
        self.act(alloc, name, words)
    }

    // What the command of this name does with the words behind it.
    fn act(&mut self, alloc: Global, name: &str, words: &str) -> Result<String, AllocError> {
        match name {
            "|" => self.write_line(alloc, words),
            "times" => self.write_times(alloc, words),
            "read" | "show" | "find" | "lists" => {
                read_told(alloc, self.text.as_str(), name, words)
            }
            "try" => self.try_line(alloc, words),
            "node" => self.add_node(alloc, words),
            "group" => self.group(alloc),
            "codes" => codes(alloc),
            _ => told(alloc, "no such command"),
        }
    }

    // The file has one line more.
    fn write_line(&mut self, alloc: Global, line: &str) -> Result<String, AllocError> {
        append(line, 1, &mut self.text)?;
        self.text.push('\n')?;
        Ok(String::new(alloc))
    }

    // The file has a text more, a number of times.
    fn write_times(&mut self, alloc: Global, words: &str) -> Result<String, AllocError> {
        let (count, text) = words.split_once(' ').unwrap_or((words, ""));
        match count.parse::<u16>() {
            Ok(count) => {
                append_times(count, text, &mut self.text)?;
                Ok(String::new(alloc))
            }
            Err(_) => told(alloc, "no number"),
        }
    }

    // Reads the file with this line behind it, and behind that a line that is a fault. Both are
    // taken away again.
    fn try_line(&self, alloc: Global, line: &str) -> Result<String, AllocError> {
        let mut text = self.text.clone()?;
        append(line, 1, &mut text)?;
        text.push_str("\n%\n")?;
        read_told(alloc, text.as_str(), "read", "")
    }

    // One node more.
    fn add_node(&mut self, alloc: Global, words: &str) -> Result<String, AllocError> {
        let text = node_text(alloc, words)?;
        match read_settings(alloc, text.as_str()) {
            Ok(settings) => {
                self.nodes.push(settings)?;
                Ok(String::new(alloc))
            }
            Err(fault) => format!(in alloc; " -> {fault}"),
        }
    }

    // Checks the nodes as a group, and forgets them.
    fn group(&mut self, alloc: Global) -> Result<String, AllocError> {
        let nodes = std::mem::replace(&mut self.nodes, Vec::new(alloc));
        group_told(alloc, nodes)
    }
}

// The fault of a file, or what a command of this name, with this word behind it, tells of its
// settings.
fn read_told(alloc: Global, text: &str, name: &str, word: &str) -> Result<String, AllocError> {
    match read_settings(alloc, text) {
        Ok(settings) => asked(alloc, &settings, name, word),
        Err(fault) => format!(in alloc; " -> {fault}"),
    }
}

// What a command tells of settings.
fn asked(alloc: Global, settings: &Settings, name: &str, word: &str) -> Result<String, AllocError> {
    match name {
        "show" => settings_told(alloc, settings),
        "find" => database_told(alloc, settings, word),
        "lists" => listed(alloc, settings, word),
        _ => told(alloc, "accepted"),
    }
}
