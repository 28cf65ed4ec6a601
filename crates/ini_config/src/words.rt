//! The words of an entry, each `name=value`.
ghost use Rattle.std.specs.Prelude.{◌≡◌, ◌<◌, List, ℕ};
ghost use Rattle.std.specs.Option.{ForSome};
ghost use Rattle.std.specs.List.{list_any};
ghost use Rattle.ini_config.specs.Entry.{is_quote};

use crate::fault::IniCode;
use crate::text::{cut_at_equals, next_word, pair_of};
use crate::values::{host_value, once, size_value, text_value};
use std::alloc::Global;

/// What a word sets.
#[derive(Clone, Copy, Debug, PartialEq, Eq)]
pub(crate) enum WordName {
    Host,
    Port,
    User,
    Dbname,
    PoolSize,
}

/// Which words an entry may have.
#[derive(Clone, Copy, Debug, PartialEq, Eq)]
pub(crate) enum EntryKind {
    Database,
    Peer,
}

impl EntryKind {
    ghost use Rattle.ini_config.specs.Entry.{word_name};

    fn word_name(self, text: &str) -> Result<WordName, IniCode>
        ensures { result ≡ word_name self text.now }
    {
        match self {
            EntryKind::Database => WordName::of_database(text),
            EntryKind::Peer => WordName::of_peer(text),
        }
    }
}

impl WordName {
    ghost use Rattle.ini_config.specs.Entry.{database_word, peer_word};

    #[tactic(auto, unfolding(crate::specs::Entry::database_word))]
    fn of_database(text: &str) -> Result<WordName, IniCode>
        ensures { result ≡ database_word text.now }
    {
        match text {
            "host" => Ok(WordName::Host),
            "port" => Ok(WordName::Port),
            "user" => Ok(WordName::User),
            "dbname" => Ok(WordName::Dbname),
            "pool_size" => Ok(WordName::PoolSize),
            _ => Err(IniCode::UnknownKey),
        }
    }

    #[tactic(auto, unfolding(crate::specs::Entry::peer_word))]
    fn of_peer(text: &str) -> Result<WordName, IniCode>
        ensures { result ≡ peer_word text.now }
    {
        match text {
            "host" => Ok(WordName::Host),
            "port" => Ok(WordName::Port),
            "pool_size" => Ok(WordName::PoolSize),
            _ => Err(IniCode::UnknownKey),
        }
    }
}

/// What has been read of an entry so far.
#[derive(Drop)]
pub(crate) struct EntryWords {
    pub host: Option<String>,
    pub port: Option<u16>,
    pub user: Option<String>,
    pub dbname: Option<String>,
    pub pool_size: Option<u16>,
    ghost some_port: { ForSome port (λ n. 0 < n) },
    ghost some_pool: { ForSome pool_size (λ n. 0 < n) },
}

impl EntryWords {
    ghost use Rattle.ini_config.specs.Reads.{Gives};
    ghost use Rattle.ini_config.specs.Entry.{word_given, word_read, words_read};
    ghost use Rattle.ini_config.specs.Entry.{value_words, no_words};
    ghost use Rattle.ini_config.specs.Text.{words};
    ghost use Rattle.ini_config.specs.View.{words_seen};

    fn new() -> EntryWords
        ensures { words_seen result ≡ no_words }
    {
        EntryWords {
            host: None,
            port: None,
            user: None,
            dbname: None,
            pool_size: None,
        }
    }

    /// The words of an entry's value.
    #[tactic(auto, unfolding(crate::specs::Entry::value_words))]
    pub(crate) fn read(alloc: Global, kind: EntryKind, value: &str) -> Result<EntryWords, IniCode>
        ensures { Gives words_seen result (value_words kind value.now) }
    {
        if has_quote(value.as_bytes()) {
            return Err(IniCode::NotInProfile);
        }
        EntryWords::read_all(alloc, kind, value)
    }

    fn read_all(alloc: Global, kind: EntryKind, value: &str) -> Result<EntryWords, IniCode>
        ensures { Gives words_seen result (words_read kind no_words (words value.now)) }
    {
        let mut words = EntryWords::new();
        let mut rest = value;
        while let Some((word, after)) = next_word(rest) {
            words.take_word(alloc, kind, word)?;
            rest = after;
        }
        Ok(words)
    }

    // One more word.
    #[tactic(auto, unfolding(crate::specs::Entry::word_read))]
    fn take_word(&mut self, alloc: Global, kind: EntryKind, text: &str) -> Result<(), IniCode>
        ensures { Gives (λ _. words_seen self.new) result
            (word_read kind (words_seen self.old) text.now) }
    {
        let (name, value) = cut_at_equals(text)?;
        let (name, value) = pair_of(name, value)?;
        let name = kind.word_name(name)?;
        self.give(alloc, name, value)
    }

    // One more word's value.
    #[tactic(auto, unfolding(crate::specs::Entry::word_given))]
    fn give(&mut self, alloc: Global, name: WordName, text: &str) -> Result<(), IniCode>
        ensures { Gives (λ _. words_seen self.new) result
            (word_given (words_seen self.old) name text.now) }
    {
        match name {
            WordName::Host => once(&mut self.host, host_value(alloc, text)),
            WordName::Port => once(&mut self.port, size_value(text)),
            WordName::User => once(&mut self.user, text_value(alloc, text)),
            WordName::Dbname => once(&mut self.dbname, text_value(alloc, text)),
            WordName::PoolSize => once(&mut self.pool_size, size_value(text)),
        }
    }
}

fn has_quote(bytes: &[u8]) -> bool
    ensures { result ≡ list_any is_quote bytes.now }
{
    bytes.iter().any(|byte| *byte == b'\'')
}
