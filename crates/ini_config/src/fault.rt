//! Why a settings file or a group is refused.
ghost use Rattle.std.specs.Prelude.{◌≡◌};
ghost use Rattle.ini_config.specs.declared.fault.IniCode.TheVariants.{Memory};

use std::alloc::{AllocError, AllocFailed};
use thiserror::Error;

/// What is wrong with a line of a settings file, or with the file as a whole (own).
/// It is written as its number and its name.
#[derive(Clone, Copy, Debug, PartialEq, Eq, Error)]
#[error("{} {}", self.number(), self.name())]
pub enum IniCode {
    /// The line has no form of the grammar, holds a zero byte or is longer than 8,000 bytes.
    BadLine,
    /// The section is none of `pgbouncer`, `databases` and `peers`.
    UnknownSection,
    /// The section has no such key, or its entries no such name.
    UnknownKey,
    /// No decimal number without leading zeros.
    BadNumber,
    /// A number outside its range, or one entry too many.
    OutOfRange,
    /// A section, key or name for the second time.
    Repeated,
    /// A required key or name isn't there.
    Missing,
    /// A feature of PgBouncer that pgpeer doesn't have.
    NotInProfile,
    /// Memory ran out.
    Memory,
}

impl IniCode {
    ghost use Rattle.ini_config.specs.Codes.{ini_name, ini_number};

    /// The number of the refusal, 20 to 28.
    pub const fn number(self) -> u8
        ensures { result ≡ ini_number self }
    {
        match self {
            IniCode::BadLine => 20,
            IniCode::UnknownSection => 21,
            IniCode::UnknownKey => 22,
            IniCode::BadNumber => 23,
            IniCode::OutOfRange => 24,
            IniCode::Repeated => 25,
            IniCode::Missing => 26,
            IniCode::NotInProfile => 27,
            IniCode::Memory => 28,
        }
    }

    /// The name of the refusal, as `BadLine`.
    pub const fn name(self) -> &'static str
        ensures { result.now ≡ ini_name self }
    {
        match self {
            IniCode::BadLine => "BadLine",
            IniCode::UnknownSection => "UnknownSection",
            IniCode::UnknownKey => "UnknownKey",
            IniCode::BadNumber => "BadNumber",
            IniCode::OutOfRange => "OutOfRange",
            IniCode::Repeated => "Repeated",
            IniCode::Missing => "Missing",
            IniCode::NotInProfile => "NotInProfile",
            IniCode::Memory => "Memory",
        }
    }
}

impl From<AllocError> for IniCode {
    ghost from_gives = { λ _ e. e ≡ Memory };

    fn from(_e: AllocError) -> IniCode {
        IniCode::Memory
    }
}

impl<T: Drop> From<AllocFailed<T>> for IniCode {
    ghost from_gives = { λ _ e. e ≡ Memory };

    fn from(_e: AllocFailed<T>) -> IniCode {
        IniCode::Memory
    }
}

/// The first fault of a settings file. It is written as its line, its number and its name.
#[derive(Clone, Copy, Debug, PartialEq, Eq, Error)]
#[error("{line}: {code}")]
pub struct IniError {
    /// The line, from 1, or 0 for the file as a whole and where memory ran out.
    pub line: usize,
    /// What is wrong there.
    pub code: IniCode,
}

impl IniError {
    ghost use Rattle.ini_config.specs.Codes.{fault_at};

    /// The fault of a line. Out of memory has line 0.
    pub(crate) fn at(line: usize, code: IniCode) -> IniError
        ensures { result ≡ fault_at line code }
    {
        match code {
            IniCode::Memory => IniError { line: 0, code },
            _ => IniError { line, code },
        }
    }
}

/// Why settings are no group (own). It is written as its number and its name.
#[derive(Clone, Copy, Debug, PartialEq, Eq, Error)]
#[error("{} {}", self.number(), self.name())]
pub enum GroupError {
    /// Two nodes have one peer number.
    SamePeer,
    /// A node doesn't list another node of the group.
    MissingPeer,
    /// One of two nodes or more has the peer number 0.
    NoPeering,
    /// Memory ran out.
    Memory,
}

impl GroupError {
    ghost use Rattle.ini_config.specs.Codes.{group_name, group_number};

    /// The number of the refusal, 40 to 43.
    pub const fn number(self) -> u8
        ensures { result ≡ group_number self }
    {
        match self {
            GroupError::SamePeer => 40,
            GroupError::MissingPeer => 41,
            GroupError::NoPeering => 42,
            GroupError::Memory => 43,
        }
    }

    /// The name of the refusal, as `SamePeer`.
    pub const fn name(self) -> &'static str
        ensures { result.now ≡ group_name self }
    {
        match self {
            GroupError::SamePeer => "SamePeer",
            GroupError::MissingPeer => "MissingPeer",
            GroupError::NoPeering => "NoPeering",
            GroupError::Memory => "Memory",
        }
    }
}
