//! Why a script is refused.
ghost use Rattle.std.specs.Prelude.{◌≡◌};
ghost use Rattle.world_script.specs.Reads.{script_number};
ghost use Rattle.world_script.specs.declared.fault.LineFault.TheVariants.{Memory};

use std::alloc::{AllocError, AllocFailed};
use thiserror::Error;

/// The number of a fault of form among all refusals.
pub const BAD_SCRIPT: u8 = 80;

/// The name of a fault of form.
pub const BAD_SCRIPT_NAME: &str = "BadScript";

/// Why a script is refused. A fault of form is written as its line, its number and its name.
#[derive(Clone, Copy, Debug, PartialEq, Eq, Error)]
pub enum ScriptError {
    /// The first fault of form.
    #[error("{line}: {BAD_SCRIPT} {BAD_SCRIPT_NAME}")]
    Bad {
        /// Its line, from 1.
        line: usize,
    },
    /// Memory ran out.
    #[error("out of memory")]
    Memory,
}

impl ScriptError {
    /// The number of a fault of form among all refusals; out of memory has none.
    pub const fn number(self) -> Option<u8>
        ensures { result ≡ script_number self }
    {
        match self {
            ScriptError::Bad { .. } => Some(BAD_SCRIPT),
            ScriptError::Memory => None,
        }
    }
}

/// Why a line is refused.
#[derive(Clone, Copy, Debug, PartialEq, Eq)]
pub(crate) enum LineFault {
    /// It has no form of the grammar, or stands at a place where it may not.
    Form,
    /// Memory ran out.
    Memory,
}

impl From<AllocError> for LineFault {
    ghost from_gives = { λ _ e. e ≡ Memory };

    fn from(_e: AllocError) -> LineFault {
        LineFault::Memory
    }
}

impl<T: Drop> From<AllocFailed<T>> for LineFault {
    ghost from_gives = { λ _ e. e ≡ Memory };

    fn from(_e: AllocFailed<T>) -> LineFault {
        LineFault::Memory
    }
}

impl From<AllocError> for ScriptError {
    ghost use Rattle.world_script.specs.declared.fault.ScriptError.TheVariants as script;

    ghost from_gives = { λ _ e. e ≡ script.Memory };

    fn from(_e: AllocError) -> ScriptError {
        ScriptError::Memory
    }
}
