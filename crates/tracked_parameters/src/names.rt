//! The names of the parameters that are tracked.
ghost use Rattle.std.specs.Prelude.{◌≡◌, ◌<◌, ◌∷◌, ◌++◌, [], length, map, slice_get, get_or, Some, None, Err, IfOk, IfSome, OnOk, OnErr, IsOkUnless};
ghost use Rattle.std.specs.Option.{option_map};
ghost use Rattle.std.specs.List.{list_all, list_any, position_from};
ghost use Rattle.std.specs.String.{string_bytes};
ghost use Rattle.std.specs.Str.{str_eq_ignore_ascii_case};
ghost use Rattle.tracked_parameters.specs.declared.name_error.NameError.{NameError};
ghost use Rattle.tracked_parameters.specs.Names.{standard, alike, is_name, is_among, is_name_byte, refusal, AreNames};
ghost use Rattle.tracked_parameters.specs.Values.{place_of};
ghost use Rattle.tracked_parameters.specs.Stored.{all_names};

use crate::name_error::NameError;
use std::alloc::{AllocError, Global};
use std::marker::Model;

/// The names of the parameters that are tracked. In contracts they are a list of texts, in order.
#[derive(Debug, Drop)]
pub struct TrackedNames {
    names: Vec<String>,
}

impl Model for TrackedNames {
    ghost use Rattle.std.specs.Prelude.{List, ℕ};

    ghost Value = { List (List ℕ) };

    ghost use Rattle.tracked_parameters.specs.Names.{AreNames};
    ghost use Rattle.tracked_parameters.specs.Stored.{all_names};

    ghost view = { λ t. all_names t.names.items };

    ghost invariant = { λ t. AreNames (all_names t.names.items) };
}

impl TrackedNames {
    /// `client_encoding`, `DateStyle`, `IntervalStyle`, `TimeZone`, `standard_conforming_strings`
    /// and `application_name`, in this order.
    pub fn new(alloc: Global) -> Result<TrackedNames, AllocError>
        ensures { IfOk result (λ names. names ≡ standard) }
    {
        let mut names = Vec::with_capacity(alloc, 6)?;
        put(&mut names, alloc, "client_encoding")?;
        put(&mut names, alloc, "DateStyle")?;
        put(&mut names, alloc, "IntervalStyle")?;
        put(&mut names, alloc, "TimeZone")?;
        put(&mut names, alloc, "standard_conforming_strings")?;
        put(&mut names, alloc, "application_name")?;
        Ok(TrackedNames { names })
    }

    /// Tracks one more parameter, the last.
    pub fn add(&mut self, name: &str) -> Result<(), NameError>
        // Each refusal comes exactly in its case, and `Memory` where none does.
        ensures refused { (error : NameError) → refusal self.old name.now ≡ Some error
            → result ≡ Err error }
        ensures memory { refusal self.old name.now ≡ None → IsOkUnless result NameError.Memory }
        ensures ok { OnOk result (self.new ≡ self.old ++ name.now ∷ []) }
        ensures err { OnErr result (self.new ≡ self.old) }
    {
        if let Some(error) = self.refusal(name) {
            return Err(error);
        }
        self.put(name)?;
        Ok(())
    }

    // Why a name isn't tracked.
    #[tactic(auto, unfolding(crate::specs::Names::refusal))]
    fn refusal(&self, name: &str) -> Option<NameError>
        ensures { result ≡ refusal self.now name.now }
    {
        if !is_name(name.as_bytes()) {
            return Some(NameError::Form);
        }
        if self.has(name.as_bytes()) {
            return Some(NameError::Twice);
        }
        None
    }

    // Whether the name is tracked.
    fn has(&self, name: &[u8]) -> bool
        ensures { result ≡ is_among name.now self.now }
    {
        is_among(&self.names, name)
    }

    // Adds a name that isn't refused.
    fn put(&mut self, name: &str) -> Result<(), AllocError>
        requires { refusal self.old name.now ≡ None }
        ensures ok { OnOk result (self.new ≡ self.old ++ name.now ∷ []) }
        ensures err { OnErr result (self.new ≡ self.old) }
    {
        let alloc = *self.names.allocator();
        put(&mut self.names, alloc, name)
    }

    /// How many there are. They are names, and none is there twice.
    pub fn len(&self) -> usize
        ensures count { result ≡ length self.now }
        ensures formed { AreNames self.now }
    {
        self.names.len()
    }

    /// The one at this place, counted from 0.
    pub fn get(&self, place: usize) -> Option<&str>
        ensures { option_map (λ name. name.now) result ≡ slice_get self.now place }
    {
        Some(self.names.get(place)?.as_str())
    }

    /// The one at a place where one is.
    pub(crate) fn at(&self, place: usize) -> &str
        requires { place < length self.now }
        ensures { result.now ≡ get_or self.now place [] }
    {
        self.names[place].as_str()
    }

    /// The place of a parameter, by its name in either case.
    pub fn place_of(&self, name: &[u8]) -> Option<usize>
        ensures found { result ≡ place_of self.now name.now }
        ensures within { IfSome result (λ place. place < length self.now) }
    {
        position(&self.names, name)
    }
}

// Puts a name behind the others.
fn put(names: &mut Vec<String>, alloc: Global, name: &str) -> Result<(), AllocError>
    ensures ok { OnOk result
        (all_names names.new.items ≡ all_names names.old.items ++ name.now ∷ []) }
    ensures err { OnErr result (names.new.items ≡ names.old.items) }
{
    names.push(String::from_str(alloc, name)?)?;
    Ok(())
}

/// Whether the two are names of one parameter (PostgreSQL compares them without regard to the case
/// of ASCII letters).
pub(crate) fn alike(name: &[u8], other: &[u8]) -> bool
    ensures { result ≡ alike name.now other.now }
{
    name.eq_ignore_ascii_case(other)
}

// Whether one of these is the name.
fn is_among(names: &[String], name: &[u8]) -> bool
    ensures { result ≡ list_any (λ one. alike (string_bytes one) name.now) names.now }
{
    names.iter().any(|one| alike(one.as_bytes(), name))
}

// The first place of the name.
fn position(names: &[String], name: &[u8]) -> Option<usize>
    ensures found { result
        ≡ position_from (λ one. alike (string_bytes one) name.now) 0 names.now }
    ensures within { IfSome result (λ place. place < length names.now) }
{
    names.iter().position(|one| alike(one.as_bytes(), name))
}

// Whether this may be a name.
fn is_name(name: &[u8]) -> bool
    ensures { result ≡ is_name name.now }
{
    match name {
        [] => false,
        [first, ..] => !first.is_ascii_digit() && are_name_bytes(name),
    }
}

fn are_name_bytes(name: &[u8]) -> bool
    ensures { result ≡ list_all is_name_byte name.now }
{
    name.iter().all(|byte| is_name_byte(*byte))
}

fn is_name_byte(byte: u8) -> bool
    ensures { result ≡ is_name_byte byte }
{
    byte.is_ascii_alphanumeric() || byte == b'_' || byte == b'.'
}
