//! The query that gives a server connection the values that a client wants.
ghost use Rattle.std.specs.Prelude.{◌≡◌, ◌≢◌, ◌+◌, ◌^◌, ◌<◌, ◌++◌, ◌∷◌, [], length, get_or, None, IfOk, OnOk, MatchOption};
ghost use Rattle.startup.specs.Replies.{zero_ended};
ghost use Rattle.tracked_parameters.specs.Values.{Fit, Agree, AreTexts};
ghost use Rattle.tracked_parameters.specs.Names.{AreNames};
ghost use Rattle.tracked_parameters.specs.Settings.{difference, differing, query, IsSettingsQuery};
ghost use Rattle.tracked_parameters.specs.Stored.{written, all_written, joined};
ghost use Rattle.tracked_parameters.specs.Status.{told};

use crate::constant::push_constant;
use crate::names::TrackedNames;
use crate::setting::Setting;
use crate::values::{Values, agrees};
use std::alloc::{AllocError, Global};

/// The Query message that gives a server connection whose values are `present` the values that are
/// wanted, none if it has them. A query that is longer than a message can be is refused as memory is.
pub fn settings_query(
    alloc: Global,
    names: &TrackedNames,
    wanted: &Values,
    present: &Values,
) -> Result<Option<Vec<u8>>, AllocError>
    requires wanted { Fit names.now wanted.now }
    requires present { Fit names.now present.now }
    ensures { IfOk result (λ found. MatchOption found (Agree wanted.now present.now)
        (λ bytes. IsSettingsQuery (differing names.now wanted.now present.now) bytes.items)) }
{
    if agrees(wanted, present) {
        return Ok(None);
    }
    let text = settings_text(alloc, names, wanted, present)?;
    Ok(Some(query(alloc, &text)?))
}

// The text of the query.
fn settings_text(
    alloc: Global,
    names: &TrackedNames,
    wanted: &Values,
    present: &Values,
) -> Result<Vec<u8>, AllocError>
    requires wanted { Fit names.now wanted.now }
    requires present { Fit names.now present.now }
    ensures text { IfOk result (λ text. text.items
        ≡ all_written (differing names.now wanted.now present.now)) }
    ensures names { AreNames names.now }
    ensures texts { AreTexts wanted.now }
{
    let mut text = Vec::new(alloc);
    for place in 0..names.len().min(wanted.len()) {
        push_difference(&mut text, names, wanted, present, place)?;
    }
    Ok(text)
}

/// Puts the setting of the parameter at this place at the end, if it differs.
pub(crate) fn push_difference(
    text: &mut Vec<u8>,
    names: &TrackedNames,
    wanted: &Values,
    present: &Values,
    place: usize,
) -> Result<(), AllocError>
    requires within { place < length names.now }
    requires wanted { Fit names.now wanted.now }
    requires present { Fit names.now present.now }
    ensures { OnOk result (text.new.items ≡ joined text.old.items
        (difference (get_or names.now place []) (get_or wanted.now place None)
        (get_or present.now place None))) }
{
    let Some(value) = wanted.at(place) else {
        return Ok(());
    };
    if present.at(place) == Some(value) {
        return Ok(());
    }
    let name = names.at(place).as_bytes();
    push_next(text, Setting { name, value })
}

// Puts a setting at the end, behind a separator where others stand before it.
fn push_next(text: &mut Vec<u8>, setting: Setting<'_>) -> Result<(), AllocError>
    ensures { OnOk result (text.new.items ≡ joined text.old.items (told setting.entry ∷ [])) }
{
    if !text.is_empty() {
        text.extend_from_slice(b"; ")?;
    }
    push_setting(text, setting)
}

// Puts a setting at the end.
fn push_setting(text: &mut Vec<u8>, setting: Setting<'_>) -> Result<(), AllocError>
    ensures { OnOk result (text.new.items ≡ text.old.items ++ written (told setting.entry)) }
{
    text.extend_from_slice(b"SET ")?;
    text.extend_from_slice(setting.name)?;
    text.extend_from_slice(b" = E'")?;
    push_constant(text, setting.value)?;
    text.extend_from_slice(b"'")
}

/// The Query message with this text.
pub(crate) fn query(alloc: Global, text: &[u8]) -> Result<Vec<u8>, AllocError>
    ensures message { IfOk result (λ bytes. bytes.items ≡ query text.now) }
    ensures fits { OnOk result (5 + length text.now < 2 ^ 32) }
{
    let Some(length) = text.len().checked_add(5) else {
        return Err(AllocError);
    };
    let Ok(length) = u32::try_from(length) else {
        return Err(AllocError);
    };
    let mut bytes = Vec::new(alloc);
    bytes.push(b'Q')?;
    bytes.extend_from_slice(&length.to_be_bytes())?;
    bytes.extend_from_slice(text)?;
    bytes.push(0)?;
    Ok(bytes)
}
