//! The values of a client.
ghost use Rattle.std.specs.Prelude.{◌≡◌, ℕ, true, length, Ok, None, IfOk, IsOk, OnOk, OnErr, MatchOption};
ghost use Rattle.std.specs.Option.{option_map};
ghost use Rattle.tracked_parameters.specs.Values.{Fit, Agree, value_of};
ghost use Rattle.tracked_parameters.specs.Settings.{IsSettingsQuery};
ghost use Rattle.tracked_parameters.specs.Server.{is_known};
ghost use Rattle.tracked_parameters.specs.Client.{updated_first, first_values, after_transaction, HasValuesOf, settings_for};

use crate::client_query::client_query;
use crate::names::TrackedNames;
use crate::server_values::ServerValues;
use crate::values::Values;
use std::alloc::{AllocError, Global};
use std::marker::Model;

/// A client's own value of each parameter that is tracked. In contracts it is a list, in the order of
/// the names.
#[derive(Debug, Drop)]
pub struct ClientValues {
    values: Values,
}

impl Model for ClientValues {
    ghost use Rattle.std.specs.Prelude.{List, ℕ, Option};

    ghost Value = { List (Option (List ℕ)) };

    ghost view = { λ c. c.values };
}

impl ClientValues {
    /// The values of a client that logs in, at a server connection that is known: those that it asks
    /// for (`asked_for`), else those that the server reported at its login.
    pub fn new(
        alloc: Global,
        asked: &Values,
        server: &ServerValues,
    ) -> Result<ClientValues, AllocError>
        requires fit { length asked.now ≡ length server.now.current }
        requires known { is_known server.now ≡ true }
        ensures values { IfOk result (λ client. client ≡ first_values asked.now server.now) }
        ensures fit { IfOk result (λ client. length client ≡ length server.now.current) }
    {
        let mut values = server.login().copy(alloc)?;
        values.update(asked)?;
        Ok(ClientValues { values })
    }

    /// Takes what the server reports for the client's values, as it is at a ReadyForQuery outside a
    /// transaction. Where nothing differs it takes no memory. An `Err` leaves some taken over, and the
    /// rest as they were.
    pub fn follow(&mut self, server: &ServerValues) -> Result<(), AllocError>
        requires fit { length self.old ≡ length server.now.current }
        requires known { is_known server.now ≡ true }
        ensures ok { OnOk result (self.new ≡ after_transaction self.old server.now) }
        // Then the connection has what the client wants, and `query_for` gives none.
        ensures has { OnOk result (HasValuesOf server.now self.new) }
        ensures err { OnErr result ((count : ℕ)
            × (self.new ≡ updated_first count self.old server.now.current)) }
        ensures same { Agree server.now.current self.old → IsOk result }
        ensures fit { length self.new ≡ length self.old }
    {
        self.values.update(server.current())
    }

    /// The Query message that sets, at a server connection that is known, each parameter that the
    /// server reports with another value than the client wants, and nothing else. There is none where
    /// nothing differs, and then it takes no memory. A query that is longer than a message can be is
    /// refused as memory is.
    pub fn query_for(
        &self,
        alloc: Global,
        names: &TrackedNames,
        server: &ServerValues,
    ) -> Result<Option<Vec<u8>>, AllocError>
        requires client { Fit names.now self.now }
        requires server { Fit names.now server.now.current }
        requires known { is_known server.now ≡ true }
        ensures query { IfOk result (λ found. MatchOption found (HasValuesOf server.now self.now)
            (λ bytes. IsSettingsQuery (settings_for names.now self.now server.now) bytes.items)) }
        ensures none { HasValuesOf server.now self.now → result ≡ Ok None }
    {
        client_query(alloc, names, &self.values, server.login(), server.current())
    }

    /// The value of a parameter, if it is tracked and its value is known.
    pub fn value_of(&self, names: &TrackedNames, name: &[u8]) -> Option<&[u8]>
        requires { Fit names.now self.now }
        ensures { option_map (λ value. value.now) result ≡ value_of names.now self.now name.now }
    {
        self.values.get(names, name)
    }

    /// All of them, as `login_parameters` takes them.
    pub fn values(&self) -> &Values
        ensures { result.now ≡ self.now }
    {
        &self.values
    }
}
