//! What a client asks for in its StartupMessage.
ghost use Rattle.std.specs.Prelude.{◌≡◌, ◌==◌, ◌<◌, [], ◌∷◌, List, ℕ, IfOk, OnOk, IfSome, MatchOption, Bool, false, fold, map, drop, length, option_to_list};
ghost use Rattle.std.specs.List.{AllByRecursion, position_from, flat_map};
ghost use Rattle.startup.specs.Replies.{Report};
ghost use Rattle.startup.specs.StartupMessage.{HasNoZero};
ghost use Rattle.tracked_parameters.specs.Names.{alike};
ghost use Rattle.tracked_parameters.specs.Values.{Fit, no_values};
ghost use Rattle.tracked_parameters.specs.Options.{assignment, attached, settings_in, underscored, is_equals};
ghost use Rattle.tracked_parameters.specs.Asked.{is_special, after_all, after_named, options_after, options_of, asked_in_options, asked_for};
ghost use Rattle.tracked_parameters.specs.Status.{told};

use crate::names::TrackedNames;
use crate::options::split;
use crate::setting::Setting;
use crate::values::Values;
use std::alloc::{AllocError, Global};

/// The values that a client asks for: in `options` of its StartupMessage, or by name, which counts
/// more. `sent` are the parameters of the StartupMessage, in order.
pub fn asked_for(
    alloc: Global,
    names: &TrackedNames,
    sent: &[Setting<'_>],
) -> Result<Values, AllocError>
    requires { AllByRecursion (λ one. HasNoZero one.value.now) sent.now }
    ensures values { IfOk result (λ values.
        values ≡ asked_for names.now (map told sent.now)) }
    ensures fit { IfOk result (λ values. Fit names.now values) }
{
    let mut values = asked_in_options(alloc, names, options_of(sent))?;
    for one in sent {
        ask_by_name(&mut values, names, *one)?;
    }
    Ok(values)
}

// The `options` that are given, the last ones.
fn options_of<'a>(sent: &[Setting<'a>]) -> &'a [u8]
    requires { AllByRecursion (λ one. HasNoZero one.value.now) sent.now }
    ensures options { result.now ≡ options_of (map told sent.now) }
    ensures text { HasNoZero result.now }
{
    let mut options: &[u8] = b"";
    for one in sent {
        options = options_after(options, *one);
    }
    options
}

// The `options` once a parameter is given.
fn options_after<'a>(options: &'a [u8], sent: Setting<'a>) -> &'a [u8]
    ensures { result.now ≡ options_after options.now (told sent.entry) }
{
    if sent.name == b"options".as_slice() {
        sent.value
    } else {
        options
    }
}

// Takes a parameter that is given by name.
fn ask_by_name(
    values: &mut Values,
    names: &TrackedNames,
    sent: Setting<'_>,
) -> Result<(), AllocError>
    requires fit { Fit names.now values.old }
    requires text { HasNoZero sent.value.now }
    ensures ok { OnOk result (values.new ≡ after_named names.now values.old (told sent.entry)) }
    ensures fit { Fit names.now values.new }
{
    if is_special(sent.name) {
        return Ok(());
    }
    values.note(names, sent)
}

// Whether a name in a StartupMessage is no parameter's.
fn is_special(name: &[u8]) -> bool
    ensures { result ≡ is_special name.now }
{
    name == b"user".as_slice()
        || name == b"database".as_slice()
        || name == b"options".as_slice()
        || name == b"replication".as_slice()
        || name.starts_with(b"_pq_.")
}

// The values that `options` ask for.
fn asked_in_options(
    alloc: Global,
    names: &TrackedNames,
    options: &[u8],
) -> Result<Values, AllocError>
    requires { HasNoZero options.now }
    ensures values { IfOk result (λ values. values ≡ asked_in_options names.now options.now) }
    ensures fit { IfOk result (λ values. Fit names.now values) }
{
    let mut values = Values::new(alloc, names)?;
    let arguments = split(alloc, options)?;
    let mut awaited = false;
    for argument in &arguments {
        awaited = ask(alloc, &mut values, names, awaited, argument)?;
    }
    Ok(values)
}

// Takes an argument; `awaited` says that a `-c` precedes. Returns whether it is a `-c` that takes
// the next one.
fn ask(
    alloc: Global,
    values: &mut Values,
    names: &TrackedNames,
    awaited: bool,
    argument: &[u8],
) -> Result<bool, AllocError>
    requires fit { Fit names.now values.old }
    requires text { HasNoZero argument.now }
    ensures fit { Fit names.now values.new }
    ensures ok { IfOk result (λ awaits. (more : List (List ℕ))
        → after_all names.now values.new (settings_in awaits more)
        ≡ after_all names.now values.old (settings_in awaited (argument.now ∷ more))) }
{
    if awaited {
        assign(alloc, values, names, argument)?;
        return Ok(false);
    }
    if argument == b"-c".as_slice() {
        return Ok(true);
    }
    if let Some(text) = attached(argument) {
        assign(alloc, values, names, text)?;
    }
    Ok(false)
}

// What follows `-c` or `--` in an argument.
fn attached(argument: &[u8]) -> Option<&[u8]>
    ensures { MatchOption result (attached argument.now ≡ [])
        (λ text. (text.now ≡ drop 2 argument.now) × (attached argument.now ≡ assignment text.now)) }
{
    if argument.starts_with(b"-c") || argument.starts_with(b"--") {
        return Some(&argument[2..]);
    }
    None
}

// Takes a text `name=value`.
fn assign(
    alloc: Global,
    values: &mut Values,
    names: &TrackedNames,
    text: &[u8],
) -> Result<(), AllocError>
    requires fit { Fit names.now values.old }
    requires text { HasNoZero text.now }
    ensures ok { OnOk result (values.new ≡ after_all names.now values.old (assignment text.now)) }
    ensures fit { Fit names.now values.new }
{
    let Some(place) = equals_at(text) else {
        return Ok(());
    };
    let name = name_of(alloc, &text[..place])?;
    let value = &text[place + 1..];
    values.note(names, Setting { name: &name, value })
}

// The place of the first `=`.
fn equals_at(text: &[u8]) -> Option<usize>
    ensures place { result ≡ position_from is_equals 0 text.now }
    ensures within { IfSome result (λ place. place < length text.now) }
{
    text.iter().position(|byte| *byte == b'=')
}

// The name in an argument.
fn name_of(alloc: Global, text: &[u8]) -> Result<Vec<u8>, AllocError>
    ensures { IfOk result (λ name. name.items ≡ map underscored text.now) }
{
    text.iter()
        .map(|byte| if *byte == b'-' { b'_' } else { *byte })
        .collect(alloc)
}
