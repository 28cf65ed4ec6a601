//! Why the program answers nothing.
ghost use Rattle.std.specs.Prelude.{◌≡◌, ◌++◌, IfOk, codes, string_bytes};
ghost use Rattle.std.specs.Fmt.{decimal};
ghost use Rattle.ini_config.specs.Codes.{ini_name, ini_number};
ghost use Rattle.answer.specs.Statuses.{status_of};
ghost use Rattle.answer.specs.Texts.{fault_text, numbered, reply_text};
ghost use Rattle.answer.specs.declared.fault.Fault.TheVariants.{Memory};

use ini_config::{GroupError, IniCode, IniError};
use std::alloc::{AllocError, Global};
use world_script::{BAD_SCRIPT, BAD_SCRIPT_NAME};

/// Why there is no answer.
#[derive(Debug, Drop)]
pub enum Fault {
    /// The arguments ask for nothing that there is. The text says so.
    Usage(String),
    /// A settings file is refused, or there is no memory for it.
    InFile {
        /// The file's name.
        file: String,
        /// The file's first fault.
        error: IniError,
    },
    /// A script is refused.
    InScript {
        /// The file's name.
        file: String,
        /// The first line at fault, from 1.
        line: usize,
    },
    /// Settings files are refused. The text tells of all their faults, or of that of their group.
    Explained(String),
    /// Nodes are refused as a group, or there is no memory for it.
    OfGroup(GroupError),
    /// A file can't be read.
    Unread {
        /// The file's name.
        file: String,
        /// Why it can't be read.
        reason: String,
    },
    /// A first packet is refused, by this number.
    Packet(u8),
    /// The packet asks for something else.
    NotACancel,
    /// The node gave this answer, which can't come.
    Unexpected(Reply),
    /// Memory ran out.
    Memory,
}

/// An answer of the node that isn't expected.
#[derive(Clone, Copy, Debug, PartialEq, Eq)]
pub enum Reply {
    /// A refusal, by its number.
    Number(u8),
    /// An idle link, in place of a permit.
    Got,
    /// No link yet.
    Waiting,
    /// No link: a wait for one was cancelled.
    Cancelled,
    /// The link is closed.
    Closed,
}

impl Fault {
    /// The status that the program ends with: 2 for its arguments and for settings or a script that
    /// are refused, 1 for a fault in running.
    pub fn status(&self) -> u8
        ensures { result ≡ status_of self.now }
    {
        match self {
            Fault::InFile { error, .. } if error.code == IniCode::Memory => 1,
            Fault::OfGroup(GroupError::Memory) => 1,
            Fault::Usage(_) | Fault::Explained(_) => 2,
            Fault::InFile { .. } | Fault::InScript { .. } | Fault::OfGroup(_) => 2,
            _ => 1,
        }
    }

    /// What is written to standard error.
    pub fn text(&self, alloc: Global) -> Result<String, AllocError>
        ensures { IfOk result (λ text. string_bytes text ≡ fault_text self.now) }
    {
        match self {
            Fault::Usage(text) | Fault::Explained(text) => String::from_str(alloc, text.as_str()),
            Fault::InFile { file, error } => in_file_text(alloc, file.as_str(), *error),
            Fault::InScript { file, line } => {
                in_line_text(alloc, file.as_str(), *line, BAD_SCRIPT, BAD_SCRIPT_NAME)
            }
            Fault::OfGroup(error) => numbered(alloc, error.number(), error.name()),
            Fault::Unread { file, reason } => unread_text(alloc, file.as_str(), reason.as_str()),
            Fault::Packet(number) => format!(in alloc; "packet {number}\n"),
            Fault::NotACancel => String::from_str(alloc, "not a cancel\n"),
            Fault::Unexpected(reply) => reply.text(alloc),
            Fault::Memory => String::from_str(alloc, "out of memory\n"),
        }
    }
}

fn in_file_text(alloc: Global, file: &str, error: IniError) -> Result<String, AllocError>
    ensures { IfOk result (λ text. string_bytes text ≡ file.now ++ codes ":" ++ decimal error.line
        ++ codes ": " ++ numbered (ini_number error.code) (ini_name error.code)) }
{
    let code = error.code;
    in_line_text(alloc, file, error.line, code.number(), code.name())
}

// The fault that a line of a file has.
fn in_line_text(
    alloc: Global,
    file: &str,
    line: usize,
    number: u8,
    name: &str,
) -> Result<String, AllocError>
    ensures { IfOk result (λ text. string_bytes text ≡ file.now ++ codes ":" ++ decimal line
        ++ codes ": " ++ numbered number name.now) }
{
    format!(in alloc; "{file}:{line}: {number} {name}\n")
}

fn unread_text(alloc: Global, file: &str, reason: &str) -> Result<String, AllocError>
    ensures { IfOk result (λ text. string_bytes text ≡ file.now ++ codes ": " ++ reason.now
        ++ codes "\n") }
{
    format!(in alloc; "{file}: {reason}\n")
}

fn numbered(alloc: Global, number: u8, name: &str) -> Result<String, AllocError>
    ensures { IfOk result (λ text. string_bytes text ≡ numbered number name.now) }
{
    format!(in alloc; "{number} {name}\n")
}

impl Reply {
    fn text(self, alloc: Global) -> Result<String, AllocError>
        ensures { IfOk result (λ text. string_bytes text ≡ codes "unexpected answer: "
            ++ reply_text self ++ codes "\n") }
    {
        match self {
            Reply::Number(number) => format!(in alloc; "unexpected answer: {number}\n"),
            Reply::Got => String::from_str(alloc, "unexpected answer: got\n"),
            Reply::Waiting => String::from_str(alloc, "unexpected answer: waiting\n"),
            Reply::Cancelled => String::from_str(alloc, "unexpected answer: cancelled\n"),
            Reply::Closed => String::from_str(alloc, "unexpected answer: closed\n"),
        }
    }
}

impl From<AllocError> for Fault {
    ghost from_gives = { λ _ fault. fault ≡ Memory };

    fn from(_: AllocError) -> Fault {
        Fault::Memory
    }
}

impl From<world::Memory> for Fault {
    ghost from_gives = { λ _ fault. fault ≡ Memory };

    fn from(_: world::Memory) -> Fault {
        Fault::Memory
    }
}
