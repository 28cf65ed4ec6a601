//! What has been read of a settings file so far.
ghost use Rattle.std.specs.Prelude.{◌≡◌, ◌≤◌, ◌==◌, OnErr, length};
ghost use Rattle.ini_config.specs.Settings.{bracketed, same_section};
ghost use Rattle.std.specs.List.{list_any};
ghost use Rattle.std.specs.Option.{option_map};

use crate::entries::{put_database, put_peer, room_for_database, room_for_peer};
use crate::entry::{DatabaseEntry, PeerEntry};
use crate::fault::IniCode;
use crate::faults::Subject;
use crate::keys::{KeyName, PoolerKeys};
use crate::section::Section;
use crate::text::{cut_at_equals, pair_of, trimmed};
use crate::values::peer_value;
use indexmap::IndexMap;
use pg_ids::PeerNo;
use std::alloc::Global;

const MAX_LINE: usize = 8000;

/// What has been read: the sections in the order of their opening, the keys of `[pgbouncer]`, the
/// entries.
#[derive(Drop)]
pub(crate) struct Draft {
    alloc: Global,
    opened: Vec<Section>,
    pub keys: PoolerKeys,
    pub databases: IndexMap<String, DatabaseEntry>,
    pub peers: IndexMap<PeerNo, PeerEntry>,
    ghost few_databases: { length databases.entries ≤ 64 },
    ghost few_peers: { length peers.entries ≤ 64 },
}

impl Draft {
    ghost use Rattle.ini_config.specs.Reads.{Gives};
    ghost use Rattle.ini_config.specs.Settings.{nothing, section_of, section_opened};
    ghost use Rattle.ini_config.specs.Settings.{key_in, key_line, line_given};
    ghost use Rattle.ini_config.specs.View.{given_seen};
    ghost use Rattle.ini_config.specs.Faults.{cut_subject, named_subject, subject_of};
    ghost use Rattle.ini_config.specs.Surveyed.{subject_seen};
    ghost use Rattle.ini_config.specs.Text.{cut_at_equals};

    /// Nothing has been read.
    pub(crate) fn new(alloc: Global) -> Draft
        ensures { given_seen result ≡ nothing }
    {
        Draft {
            alloc,
            opened: Vec::new(alloc),
            keys: PoolerKeys::new(),
            databases: IndexMap::new(alloc),
            peers: IndexMap::new(alloc),
        }
    }

    /// One more line, without the blanks at its ends. Where it is refused, nothing changes.
    #[tactic(auto, unfolding(crate::specs::Settings::line_given))]
    pub(crate) fn take_line(&mut self, line: &str) -> Result<(), IniCode>
        ensures gives { Gives (λ _. given_seen self.new) result
            (line_given (given_seen self.old) line.now) }
        ensures kept { OnErr result (given_seen self.new ≡ given_seen self.old) }
    {
        match line.as_bytes() {
            [] | [b';' | b'#', ..] => return Ok(()),
            [b'%', ..] => return Err(IniCode::NotInProfile),
            _ => {}
        }
        if holds_zero(line.as_bytes()) || line.len() > MAX_LINE {
            return Err(IniCode::BadLine);
        }
        match bracketed(line) {
            Some(name) => self.open(name),
            None => self.take_key_line(line),
        }
    }

    #[tactic(auto, unfolding(crate::specs::Settings::section_opened))]
    fn open(&mut self, name: &str) -> Result<(), IniCode>
        ensures gives { Gives (λ _. given_seen self.new) result
            (section_opened (given_seen self.old) name.now) }
        ensures kept { OnErr result (given_seen self.new ≡ given_seen self.old) }
    {
        let section = Section::of(name)?;
        if is_among(section, &self.opened) {
            return Err(IniCode::Repeated);
        }
        self.opened.push(section)?;
        Ok(())
    }

    fn section(&self) -> Result<Section, IniCode>
        ensures { result ≡ section_of (given_seen self.now) }
    {
        self.opened.last().copied().ok_or(IniCode::BadLine)
    }

    /// What the next line, without the blanks at its ends, names.
    #[tactic(auto, unfolding(crate::specs::Faults::subject_of))]
    pub(crate) fn subject_of<'a>(&self, line: &'a str) -> Subject<'a>
        ensures { subject_seen result ≡ subject_of (given_seen self.now) line.now }
    {
        match bracketed(line) {
            Some(name) => Subject::Section(name),
            None => self.named_subject(line),
        }
    }

    fn named_subject<'a>(&self, line: &'a str) -> Subject<'a>
        ensures { subject_seen result
            ≡ cut_subject (given_seen self.now) (cut_at_equals line.now) }
    {
        match cut_at_equals(line) {
            Ok((name, _)) => self.key_subject(trimmed(name)),
            Err(_) => Subject::Line,
        }
    }

    fn key_subject<'a>(&self, key: &'a str) -> Subject<'a>
        ensures { subject_seen result ≡ named_subject (given_seen self.now) key.now }
    {
        if key.is_empty() {
            return Subject::Line;
        }
        match self.section() {
            Ok(Section::Pgbouncer) => Subject::Key(key),
            Ok(Section::Databases | Section::Peers) => Subject::Entry(key),
            Err(_) => Subject::Line,
        }
    }

    #[tactic(auto, unfolding(crate::specs::Settings::key_line))]
    fn take_key_line(&mut self, line: &str) -> Result<(), IniCode>
        ensures gives { Gives (λ _. given_seen self.new) result
            (key_line (given_seen self.old) line.now) }
        ensures kept { OnErr result (given_seen self.new ≡ given_seen self.old) }
    {
        let (key, value) = cut_at_equals(line)?;
        let (key, value) = pair_of(trimmed(key), trimmed(value))?;
        let section = self.section()?;
        section.check_key(key)?;
        self.take_key(section, key, value)
    }

    // A key and its value in their section.
    #[tactic(auto, unfolding(crate::specs::Settings::key_in))]
    fn take_key(&mut self, section: Section, key: &str, value: &str) -> Result<(), IniCode>
        ensures gives { Gives (λ _. given_seen self.new) result
            (key_in (given_seen self.old) section key.now value.now) }
        ensures kept { OnErr result (given_seen self.new ≡ given_seen self.old) }
    {
        match section {
            Section::Pgbouncer => {
                let name = KeyName::of(key)?;
                self.keys.give(self.alloc, name, value)
            }
            Section::Databases => self.take_database(key, value),
            Section::Peers => self.take_peer(key, value),
        }
    }

    #[tactic(auto, unfolding(crate::specs::Settings::key_in))]
    fn take_database(&mut self, name: &str, value: &str) -> Result<(), IniCode>
        ensures gives { Gives (λ _. given_seen self.new) result
            (key_in (given_seen self.old) Section.Databases name.now value.now) }
        ensures kept { OnErr result (given_seen self.new ≡ given_seen self.old) }
    {
        room_for_database(&self.databases, name)?;
        let entry = DatabaseEntry::read(self.alloc, value)?;
        put_database(self.alloc, &mut self.databases, name, entry)
    }

    #[tactic(auto, unfolding(crate::specs::Settings::key_in))]
    fn take_peer(&mut self, number: &str, value: &str) -> Result<(), IniCode>
        ensures gives { Gives (λ _. given_seen self.new) result
            (key_in (given_seen self.old) Section.Peers number.now value.now) }
        ensures kept { OnErr result (given_seen self.new ≡ given_seen self.old) }
    {
        let number = peer_value(1, number)?;
        room_for_peer(&self.peers, number)?;
        let entry = PeerEntry::read(self.alloc, value)?;
        put_peer(&mut self.peers, number, entry)
    }
}

/// The text between the brackets of a section line.
#[tactic(auto, unfolding(crate::specs::Settings::bracketed))]
pub(crate) fn bracketed(line: &str) -> Option<&str>
    ensures { option_map (λ name. name.now) result ≡ bracketed line.now }
{
    line.strip_prefix('[')?.strip_suffix(']')
}

fn is_among(section: Section, opened: &[Section]) -> bool
    ensures { result ≡ list_any (same_section section) opened.now }
{
    opened.iter().any(|other| section.is(*other))
}

fn holds_zero(bytes: &[u8]) -> bool
    ensures { result ≡ list_any (λ b. b == 0) bytes.now }
{
    bytes.iter().any(|byte| *byte == 0)
}
