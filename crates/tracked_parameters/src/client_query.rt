//! The query that gives a server connection the values that a client wants there.
ghost use Rattle.std.specs.Prelude.{◌≡◌, ◌<◌, ◌↔◌, [], Ok, None, IfOk, IsTrue, OnOk, MatchOption, length, get_or};
ghost use Rattle.std.specs.Option.{option_map};
ghost use Rattle.tracked_parameters.specs.Names.{AreNames};
ghost use Rattle.tracked_parameters.specs.Values.{Fit, Agree, AreTexts};
ghost use Rattle.tracked_parameters.specs.Settings.{difference, differing, IsSettingsQuery};
ghost use Rattle.tracked_parameters.specs.Stored.{all_written, is_there, joined};
ghost use Rattle.tracked_parameters.specs.Client.{wanted_one, wanted_values};

use crate::names::TrackedNames;
use crate::query::{push_difference, query};
use crate::values::Values;
use std::alloc::{AllocError, Global};

/// The Query message that gives the values that a client wants, whose own values these are, to a
/// server connection whose login reported these and which has the last ones. There is none if it has
/// them, and then no memory is taken. A query that is longer than a message can be is refused as
/// memory is.
pub fn client_query(
    alloc: Global,
    names: &TrackedNames,
    own: &Values,
    login: &Values,
    current: &Values,
) -> Result<Option<Vec<u8>>, AllocError>
    requires own { Fit names.now own.now }
    requires login { Fit names.now login.now }
    requires current { Fit names.now current.now }
    ensures query { IfOk result (λ found. MatchOption found
        (Agree (wanted_values own.now login.now current.now) current.now)
        (λ bytes. IsSettingsQuery (differing names.now
        (wanted_values own.now login.now current.now) current.now) bytes.items)) }
    ensures none { Agree (wanted_values own.now login.now current.now) current.now
        → result ≡ Ok None }
{
    if are_current(own, login, current) {
        return Ok(None);
    }
    let text = client_text(alloc, names, own, login, current)?;
    Ok(Some(query(alloc, &text)?))
}

// Whether each parameter that the server reports has the value that is wanted.
fn are_current(own: &Values, login: &Values, current: &Values) -> bool
    requires login { length login.now ≡ length own.now }
    requires current { length current.now ≡ length own.now }
    ensures { IsTrue result
        ↔ Agree (wanted_values own.now login.now current.now) current.now }
{
    for place in 0..own.len() {
        if !is_current(own.at(place), login.at(place), current.at(place)) {
            return false;
        }
    }
    true
}

// Whether a parameter has the value that is wanted, if the server reports it.
fn is_current(own: Option<&[u8]>, login: Option<&[u8]>, there: Option<&[u8]>) -> bool
    ensures { result ≡ is_there
        (wanted_one (option_map (λ value. value.now) own.entry)
        (option_map (λ value. value.now) login.entry)
        (option_map (λ value. value.now) there.entry))
        (option_map (λ value. value.now) there.entry) }
{
    match (own, login, there) {
        (_, _, None) => true,
        (Some(value), _, Some(other)) => other == value,
        (None, Some(value), Some(other)) => other == value,
        (None, None, Some(_)) => true,
    }
}

// The text of the query.
fn client_text(
    alloc: Global,
    names: &TrackedNames,
    own: &Values,
    login: &Values,
    current: &Values,
) -> Result<Vec<u8>, AllocError>
    requires own { Fit names.now own.now }
    requires login { Fit names.now login.now }
    requires current { Fit names.now current.now }
    ensures text { IfOk result (λ text. text.items ≡ all_written
        (differing names.now (wanted_values own.now login.now current.now) current.now)) }
    ensures names { AreNames names.now }
    ensures own { AreTexts own.now }
    ensures login { AreTexts login.now }
{
    let mut text = Vec::new(alloc);
    for place in 0..names.len().min(own.len()).min(login.len()) {
        push_setting_at(&mut text, names, own, login, current, place)?;
    }
    Ok(text)
}

// Puts the setting of the parameter at this place at the end, if the server reports it with another
// value than is wanted.
fn push_setting_at(
    text: &mut Vec<u8>,
    names: &TrackedNames,
    own: &Values,
    login: &Values,
    current: &Values,
    place: usize,
) -> Result<(), AllocError>
    requires within { place < length names.now }
    requires own { Fit names.now own.now }
    requires login { Fit names.now login.now }
    requires current { Fit names.now current.now }
    ensures { OnOk result (text.new.items ≡ joined text.old.items
        (difference (get_or names.now place [])
        (wanted_one (get_or own.now place None) (get_or login.now place None)
        (get_or current.now place None))
        (get_or current.now place None))) }
{
    if current.at(place).is_none() {
        return Ok(());
    }
    if own.at(place).is_none() {
        return push_difference(text, names, login, current, place);
    }
    push_difference(text, names, own, current, place)
}
