//! What a server connection reports of the parameters that are tracked.
ghost use Rattle.std.specs.Prelude.{◌≡◌, ◌<◌, ◌≤◌, true, false, length, slice_set, Some, None, Err, IfOk, IfSome, IsOkUnless, OnOk, OnErr};
ghost use Rattle.std.specs.Option.{option_map};
ghost use Rattle.startup.specs.StartupMessage.{HasNoZero};
ghost use Rattle.tracked_parameters.specs.declared.value_error.ValueError.{ValueError};
ghost use Rattle.tracked_parameters.specs.Values.{Fit, value_of};
ghost use Rattle.tracked_parameters.specs.Status.{told};
ghost use Rattle.tracked_parameters.specs.Server.{HasPlaces, new_server, longest_value, is_too_long, after_report, after_lost_report, after_login, are_known, is_known};

use crate::names::TrackedNames;
use crate::setting::Setting;
use crate::value_error::ValueError;
use crate::values::Values;
use std::alloc::{AllocError, Global};
use std::marker::Model;

// The longest value that is kept: no value of a StartupMessage is longer.
const LONGEST_VALUE: usize = 10_000;

/// What a server connection has reported of the parameters that are tracked, at its login and since.
/// In contracts it is a `ServerState`.
#[derive(Debug, Drop)]
pub struct ServerValues {
    // Of each parameter whether it was reported.
    reported: Vec<bool>,
    login: Values,
    current: Values,
    logged_in: bool,
}

impl Model for ServerValues {
    ghost use Rattle.tracked_parameters.specs.Server.{ServerState, HasPlaces};

    ghost Value = { ServerState };

    ghost view = { λ s. record {
      reported = s.reported.items;
      login = s.login;
      current = s.current;
      logged_in = s.logged_in;
    } };

    ghost invariant = { λ s. HasPlaces record {
      reported = s.reported.items;
      login = s.login;
      current = s.current;
      logged_in = s.logged_in;
    } };
}

impl ServerValues {
    /// Of a server connection of which nothing was read.
    pub fn new(alloc: Global, names: &TrackedNames) -> Result<ServerValues, AllocError>
        ensures server { IfOk result (λ server. server ≡ new_server names.now) }
        ensures fit { IfOk result (λ server. Fit names.now server.current) }
    {
        Ok(ServerValues {
            reported: vec![in alloc; false; names.len()]?,
            login: Values::new(alloc, names)?,
            current: Values::new(alloc, names)?,
            logged_in: false,
        })
    }

    /// Takes note of what a ParameterStatus reports (`read_status` reads its body). After an `Err` no
    /// value of the parameter is known until the server reports one again.
    pub fn note(&mut self, names: &TrackedNames, setting: Setting<'_>) -> Result<(), ValueError>
        requires fit { Fit names.now self.old.current }
        requires text { HasNoZero setting.value.now }
        ensures long { is_too_long names.now (told setting.entry) ≡ true
            → result ≡ Err ValueError.TooLong }
        ensures memory { is_too_long names.now (told setting.entry) ≡ false
            → IsOkUnless result ValueError.Memory }
        ensures ok { OnOk result (self.new ≡ after_report names.now (told setting.entry) self.old) }
        ensures err { OnErr result (self.new ≡ after_lost_report names.now (told setting.entry).name self.old) }
        ensures fit { Fit names.now self.new.current }
    {
        let Some(place) = names.place_of(setting.name) else {
            return Ok(());
        };
        self.reported[place] = true;
        keep(&mut self.current, place, setting.value)
    }

    /// The login has ended, at the first ReadyForQuery: the values so far are those of the login. A
    /// login ends once: a further call changes nothing.
    pub fn login_done(&mut self, alloc: Global) -> Result<(), AllocError>
        ensures ok { OnOk result (self.new ≡ after_login self.old) }
        ensures err { OnErr result (self.new ≡ self.old) }
        ensures current { self.new.current ≡ self.old.current }
    {
        if self.logged_in {
            return Ok(());
        }
        self.login = self.current.copy(alloc)?;
        self.logged_in = true;
        Ok(())
    }

    /// Whether the login has ended, and both values are known of each parameter that the server has
    /// reported: the one at the login, and the last one. Where not, close the connection. It takes no
    /// memory.
    pub fn is_known(&self) -> bool
        ensures known { result ≡ is_known self.now }
        ensures places { HasPlaces self.now }
    {
        self.logged_in
            && are_known(&self.reported, &self.login)
            && are_known(&self.reported, &self.current)
    }

    /// The last value that the server reported of a parameter. There is none where it isn't tracked,
    /// wasn't reported, or wasn't kept.
    pub fn value_of(&self, names: &TrackedNames, name: &[u8]) -> Option<&[u8]>
        requires { Fit names.now self.now.current }
        ensures { option_map (λ value. value.now) result
            ≡ value_of names.now self.now.current name.now }
    {
        self.current.get(names, name)
    }

    /// The value of a parameter at the end of the login.
    pub fn login_value_of(&self, names: &TrackedNames, name: &[u8]) -> Option<&[u8]>
        requires { Fit names.now self.now.current }
        ensures { option_map (λ value. value.now) result
            ≡ value_of names.now self.now.login name.now }
    {
        self.login.get(names, name)
    }

    /// The last value of each parameter.
    pub(crate) fn current(&self) -> &Values
        ensures values { result.now ≡ self.now.current }
        ensures places { HasPlaces self.now }
    {
        &self.current
    }

    /// The value of each parameter at the end of the login.
    pub(crate) fn login(&self) -> &Values
        ensures values { result.now ≡ self.now.login }
        ensures places { HasPlaces self.now }
    {
        &self.login
    }
}

// Keeps a value at a place. Where it isn't kept, none is known there.
fn keep(values: &mut Values, place: usize, value: &[u8]) -> Result<(), ValueError>
    requires within { place < length values.old }
    requires text { HasNoZero value.now }
    ensures long { longest_value < length value.now → result ≡ Err ValueError.TooLong }
    ensures memory { length value.now ≤ longest_value → IsOkUnless result ValueError.Memory }
    ensures ok { OnOk result (values.new ≡ slice_set values.old place (Some value.now)) }
    ensures err { OnErr result (values.new ≡ slice_set values.old place None) }
{
    if value.len() > LONGEST_VALUE {
        values.forget(place);
        return Err(ValueError::TooLong);
    }
    if values.set(place, value).is_err() {
        values.forget(place);
        return Err(ValueError::Memory);
    }
    Ok(())
}

// Whether a value is known of each parameter that was reported.
fn are_known(reported: &[bool], values: &Values) -> bool
    requires { length reported.now ≡ length values.now }
    ensures { result ≡ are_known reported.now values.now }
{
    for place in 0..values.len() {
        if reported[place] && values.at(place).is_none() {
            return false;
        }
    }
    true
}
