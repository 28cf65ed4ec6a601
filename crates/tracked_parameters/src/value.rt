//! The value of a parameter.
ghost use Rattle.std.specs.Prelude.{◌≡◌, Some, None, OnOk, OnErr};
ghost use Rattle.std.specs.Option.{option_map};

use std::alloc::{AllocError, Global};

/// The value of a parameter, if it is known. Its memory is kept for the next one.
#[derive(Debug, Drop)]
pub struct Value {
    known: bool,
    bytes: Vec<u8>,
}

impl Value {
    ghost use Rattle.tracked_parameters.specs.Stored.{kept};

    /// Of which nothing is known. Takes no memory.
    pub fn unknown(alloc: Global) -> Value
        ensures { kept result ≡ None }
    {
        Value {
            known: false,
            bytes: Vec::new(alloc),
        }
    }

    /// Puts this value in the place of the one that was known. Its memory is taken before anything
    /// changes.
    pub fn set(&mut self, value: &[u8]) -> Result<(), AllocError>
        ensures ok { OnOk result (kept self.new ≡ Some value.now) }
        ensures err { OnErr result (kept self.new ≡ kept self.old) }
    {
        self.bytes
            .reserve(value.len().saturating_sub(self.bytes.len()))?;
        self.bytes.clear();
        self.bytes.extend_from_slice(value).unwrap();
        self.known = true;
        Ok(())
    }

    /// Of which nothing is known from then on.
    pub fn forget(&mut self)
        ensures { kept self.new ≡ None }
    {
        self.known = false;
    }

    /// The value, if it is known.
    pub fn get(&self) -> Option<&[u8]>
        ensures { option_map (λ value. value.now) result ≡ kept self.now }
    {
        if self.known {
            Some(self.bytes.as_slice())
        } else {
            None
        }
    }
}
