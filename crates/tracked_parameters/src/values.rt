//! Values of the parameters that are tracked.
ghost use Rattle.std.specs.Prelude.{◌≡◌, ◌<◌, ◌↔◌, ℕ, length, get_or, replicate, slice_set, Some, None, IfSome, IfOk, IsOk, OnOk, OnErr, IsTrue};
ghost use Rattle.std.specs.Option.{option_map};
ghost use Rattle.startup.specs.StartupMessage.{HasNoZero};
ghost use Rattle.tracked_parameters.specs.Values.{Fit, Agree, AreTexts, no_values, value_of, noted, adopted, adopted_one, adopted_first};
ghost use Rattle.tracked_parameters.specs.Status.{told};
ghost use Rattle.tracked_parameters.specs.Stored.{all_kept, kept, is_there};
ghost use Rattle.tracked_parameters.specs.Client.{updated, updated_one, updated_first};

use crate::names::TrackedNames;
use crate::setting::Setting;
use crate::value::Value;
use std::alloc::{AllocError, Global};
use std::marker::Model;

/// Of each parameter that is tracked a value or none. In contracts it is a list, in the order of the
/// names. No value has a zero byte.
#[derive(Debug, Drop)]
pub struct Values {
    values: Vec<Value>,
}

impl Model for Values {
    ghost use Rattle.std.specs.Prelude.{List, ℕ, Option};

    ghost Value = { List (Option (List ℕ)) };

    ghost use Rattle.tracked_parameters.specs.Values.{AreTexts};
    ghost use Rattle.tracked_parameters.specs.Stored.{all_kept};

    ghost view = { λ v. all_kept v.values.items };

    ghost invariant = { λ v. AreTexts (all_kept v.values.items) };
}

impl Values {
    /// A place for each name, with no value.
    pub fn new(alloc: Global, names: &TrackedNames) -> Result<Values, AllocError>
        ensures values { IfOk result (λ values. values ≡ no_values names.now) }
        ensures fit { IfOk result (λ values. Fit names.now values) }
    {
        let values = unknown(alloc, names.len())?;
        Ok(Values { values })
    }

    /// Takes note of a value, as a server reports it. A parameter that isn't tracked changes nothing.
    pub fn note(&mut self, names: &TrackedNames, setting: Setting<'_>) -> Result<(), AllocError>
        requires fit { Fit names.now self.old }
        requires text { HasNoZero setting.value.now }
        ensures ok { OnOk result (self.new ≡ noted names.now (told setting.entry) self.old) }
        ensures err { OnErr result (self.new ≡ self.old) }
        ensures fit { Fit names.now self.new }
    {
        let Some(place) = names.place_of(setting.name) else {
            return Ok(());
        };
        self.set(place, setting.value)
    }

    /// Puts a value at a place.
    pub(crate) fn set(&mut self, place: usize, value: &[u8]) -> Result<(), AllocError>
        requires within { place < length self.old }
        requires text { HasNoZero value.now }
        ensures ok { OnOk result (self.new ≡ slice_set self.old place (Some value.now)) }
        ensures err { OnErr result (self.new ≡ self.old) }
    {
        self.values[place].set(value)
    }

    /// Nothing is known of the parameter at this place from then on.
    pub(crate) fn forget(&mut self, place: usize)
        requires { place < length self.old }
        ensures { self.new ≡ slice_set self.old place None }
    {
        self.values[place].forget();
    }

    /// The same values once more.
    pub(crate) fn copy(&self, alloc: Global) -> Result<Values, AllocError>
        ensures { IfOk result (λ values. values ≡ self.now) }
    {
        let mut values = Values {
            values: unknown(alloc, self.len())?,
        };
        values.update(self)?;
        Ok(values)
    }

    /// Takes over the others, where they are known. Where nothing differs it takes no memory. An `Err`
    /// leaves some taken over, and the rest as they were.
    pub(crate) fn update(&mut self, others: &Values) -> Result<(), AllocError>
        requires { length self.old ≡ length others.now }
        ensures ok { OnOk result (self.new ≡ updated self.old others.now) }
        ensures err { OnErr result ((count : ℕ)
            × (self.new ≡ updated_first count self.old others.now)) }
        ensures same { Agree others.now self.old → IsOk result }
        ensures length { length self.new ≡ length self.old }
    {
        if agrees(others, self) {
            return Ok(());
        }
        for place in 0..others.len() {
            self.update_at(place, others)?;
        }
        Ok(())
    }

    // The same at one place. An `Err` changes nothing.
    fn update_at(&mut self, place: usize, others: &Values) -> Result<(), AllocError>
        requires within { place < length self.old }
        requires same { length self.old ≡ length others.now }
        ensures ok { OnOk result (self.new ≡ slice_set self.old place
            (updated_one (get_or self.old place None) (get_or others.now place None))) }
        ensures err { OnErr result (self.new ≡ self.old) }
    {
        let Some(value) = others.at(place) else {
            return Ok(());
        };
        self.set(place, value)
    }

    /// The value of a parameter, if it is tracked and its value is known.
    pub fn get(&self, names: &TrackedNames, name: &[u8]) -> Option<&[u8]>
        requires { Fit names.now self.now }
        ensures value { option_map (λ value. value.now) result
            ≡ value_of names.now self.now name.now }
        ensures text { IfSome result (λ value. HasNoZero value.now) }
    {
        self.at(names.place_of(name)?)
    }

    /// Takes over how a server connection spells the values that are wanted: once it has accepted
    /// them, what it has is what is wanted. An `Err` leaves some taken over, and the rest as they were.
    pub fn adopt(&mut self, present: &Values) -> Result<(), AllocError>
        requires { length self.old ≡ length present.now }
        ensures ok { OnOk result (self.new ≡ adopted self.old present.now) }
        ensures err { OnErr result ((count : ℕ)
            × (self.new ≡ adopted_first count self.old present.now)) }
        ensures length { length self.new ≡ length self.old }
    {
        for place in 0..present.len() {
            self.adopt_at(place, present)?;
        }
        Ok(())
    }

    // The same at one place. An `Err` changes nothing.
    fn adopt_at(&mut self, place: usize, present: &Values) -> Result<(), AllocError>
        requires within { place < length self.old }
        requires same { length self.old ≡ length present.now }
        ensures ok { OnOk result (self.new ≡ slice_set self.old place
            (adopted_one (get_or self.old place None) (get_or present.now place None))) }
        ensures err { OnErr result (self.new ≡ self.old) }
    {
        if self.at(place).is_none() {
            return Ok(());
        }
        let Some(value) = present.at(place) else {
            return Ok(());
        };
        self.set(place, value)
    }

    /// How many places there are. Each value is bytes of which none is zero.
    pub fn len(&self) -> usize
        ensures count { result ≡ length self.now }
        ensures texts { AreTexts self.now }
    {
        self.values.len()
    }

    /// The value of the parameter at this place.
    pub(crate) fn at(&self, place: usize) -> Option<&[u8]>
        requires { place < length self.now }
        ensures value { option_map (λ value. value.now) result ≡ get_or self.now place None }
        ensures text { IfSome result (λ value. HasNoZero value.now) }
    {
        self.values[place].get()
    }
}

// So many values of which nothing is known.
fn unknown(alloc: Global, count: usize) -> Result<Vec<Value>, AllocError>
    ensures { IfOk result (λ values. all_kept values.items ≡ replicate count None) }
{
    let mut values = Vec::with_capacity(alloc, count)?;
    for _place in 0..count {
        values.push(Value::unknown(alloc))?;
    }
    Ok(values)
}

/// Whether each value that is wanted is there.
pub fn agrees(wanted: &Values, present: &Values) -> bool
    requires { length wanted.now ≡ length present.now }
    ensures { IsTrue result ↔ Agree wanted.now present.now }
{
    for place in 0..wanted.len() {
        if !is_there(wanted.at(place), present.at(place)) {
            return false;
        }
    }
    true
}

// Whether the value that is wanted, if one is, is the one that is there.
fn is_there(wanted: Option<&[u8]>, there: Option<&[u8]>) -> bool
    ensures { result ≡ is_there (option_map (λ value. value.now) wanted.entry)
        (option_map (λ value. value.now) there.entry) }
{
    match (wanted, there) {
        (None, _) => true,
        (Some(value), Some(other)) => other == value,
        (Some(_), None) => false,
    }
}
