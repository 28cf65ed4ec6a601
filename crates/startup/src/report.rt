//! A parameter that logins report.
ghost use Rattle.std.specs.Prelude.{◌≡◌, bytes_eq, IfOk};
ghost use Rattle.std.specs.List.{list_any};
ghost use Rattle.std.specs.String.{string_bytes};
ghost use Rattle.startup.specs.Reports.{has_zero, is_fixed};
ghost use Rattle.startup.specs.Stored.{reported};

use std::alloc::{AllocError, Global};

/// A parameter that logins report, and its value.
#[derive(Clone, Copy, Debug)]
pub struct Report<'a> {
    pub name: &'a str,
    pub value: &'a str,
}

// The same as it is kept.
#[derive(Debug, Drop)]
pub struct Stored {
    name: String,
    value: String,
}

impl Stored {
    ghost use Rattle.startup.specs.Stored.{lent};

    // Takes the memory for both.
    pub fn new(alloc: Global, name: &str, value: &str) -> Result<Stored, AllocError>
        ensures { IfOk result (λ stored.
            reported stored ≡ record { name = name.now; value = value.now }) }
    {
        let name = String::from_str(alloc, name)?;
        let value = String::from_str(alloc, value)?;
        Ok(Stored { name, value })
    }

    pub fn lend(&self) -> Report<'_>
        ensures { lent result ≡ reported self.now }
    {
        Report {
            name: self.name.as_str(),
            value: self.value.as_str(),
        }
    }
}

// Whether one of these has the name.
pub fn is_among(name: &str, stored: &[Stored]) -> bool
    ensures { result ≡ list_any (λ one. bytes_eq (string_bytes one.name) name.now) stored.now }
{
    stored.iter().any(|one| one.name.as_str() == name)
}

// What each login reports of the encodings is fixed.
pub fn is_fixed(name: &str) -> bool
    ensures { result ≡ is_fixed name.now }
{
    name == "server_encoding" || name == "client_encoding"
}

pub fn has_zero(text: &str) -> bool
    ensures { result ≡ has_zero text.now }
{
    text.as_bytes().iter().any(|byte| *byte == 0)
}
