//! What servers report, and what logins report to clients.
ghost use Rattle.std.specs.Prelude.{◌≡◌, ◌<◌, ◌+◌, ◌++◌, ◌∷◌, [], length, IfOk, IfSome, OnOk, OnErr};
ghost use Rattle.std.specs.List.{position_from};
ghost use Rattle.startup.specs.Replies.{parameter_status, statuses};
ghost use Rattle.tracked_parameters.specs.Names.{alike};
ghost use Rattle.tracked_parameters.specs.Values.{Fit};
ghost use Rattle.tracked_parameters.specs.Status.{told};
ghost use Rattle.tracked_parameters.specs.Reported.{reported, report_at, login_reports};
ghost use Rattle.tracked_parameters.specs.StoredReports.{kept_report, own_status};

use crate::names::{TrackedNames, alike};
use crate::setting::Setting;
use crate::stored::Stored;
use crate::values::Values;
use std::alloc::{AllocError, Global};
use std::marker::Model;

/// The parameters that a server reported at a login, tracked or not, in the order in which they came.
/// In contracts they are a list of names and values.
#[derive(Debug, Drop)]
pub struct Reported {
    alloc: Global,
    stored: Vec<Stored>,
}

impl Model for Reported {
    ghost use Rattle.std.specs.Prelude.{List};
    ghost use Rattle.startup.specs.Replies.{Report};

    ghost Value = { List Report };

    ghost use Rattle.tracked_parameters.specs.StoredReports.{kept_reports};

    ghost view = { λ r. kept_reports r.stored.items };
}

impl Reported {
    /// Nothing. Takes no memory.
    pub fn new(alloc: Global) -> Reported
        ensures { result ≡ [] }
    {
        Reported {
            alloc,
            stored: Vec::new(alloc),
        }
    }

    /// Takes note of a value: the last one of a parameter counts, at the place of the first.
    pub fn note(&mut self, setting: Setting<'_>) -> Result<(), AllocError>
        ensures ok { OnOk result (self.new ≡ reported self.old (told setting.entry)) }
        ensures err { OnErr result (self.new ≡ self.old) }
    {
        let stored = Stored::new(self.alloc, setting)?;
        match position(&self.stored, setting.name) {
            Some(place) => self.stored[place] = stored,
            None => self.stored.push(stored)?,
        }
        Ok(())
    }
}

// The place of the report about this parameter.
fn position(stored: &[Stored], name: &[u8]) -> Option<usize>
    ensures found { result
        ≡ position_from (λ one. alike (kept_report one).name name.now) 0 stored.now }
    ensures within { IfSome result (λ place. place < length stored.now) }
{
    stored.iter().position(|one| alike(one.name(), name))
}

/// The ParameterStatus messages of a login of a client that wants these values: all that the server
/// reported, with the client's values in place of the server's (PostgreSQL manual, "Message Formats").
/// A message that is longer than one can be is refused as memory is.
pub fn login_parameters(
    alloc: Global,
    reported: &Reported,
    names: &TrackedNames,
    wanted: &Values,
) -> Result<Vec<u8>, AllocError>
    requires { Fit names.now wanted.now }
    ensures { IfOk result (λ bytes. bytes.items
        ≡ statuses (login_reports names.now wanted.now reported.now)) }
{
    let mut out = Vec::new(alloc);
    for stored in &reported.stored {
        push_own(&mut out, stored, names, wanted)?;
    }
    Ok(out)
}

// Puts the message of a parameter at the end, with the value that is wanted if one is.
fn push_own(
    out: &mut Vec<u8>,
    stored: &Stored,
    names: &TrackedNames,
    wanted: &Values,
) -> Result<(), AllocError>
    requires { Fit names.now wanted.now }
    ensures { OnOk result (out.new.items
        ≡ out.old.items ++ own_status names.now wanted.now stored.now) }
{
    let reported = stored.lend();
    let value = wanted.get(names, reported.name).unwrap_or(reported.value);
    push_status(out, reported.name, value)
}

// Puts a ParameterStatus at the end.
fn push_status(out: &mut Vec<u8>, name: &[u8], value: &[u8]) -> Result<(), AllocError>
    ensures { OnOk result (out.new.items ≡ out.old.items ++ parameter_status name.now value.now) }
{
    let Some(length) = status_length(name.len(), value.len()) else {
        return Err(AllocError);
    };
    out.push(b'S')?;
    out.extend_from_slice(&length.to_be_bytes())?;
    out.extend_from_slice(name)?;
    out.push(0)?;
    out.extend_from_slice(value)?;
    out.push(0)?;
    Ok(())
}

// What the length field of a ParameterStatus says, if it can.
fn status_length(name: usize, value: usize) -> Option<u32>
    ensures { IfSome result (λ length. length ≡ 6 + name + value) }
{
    let both = name.checked_add(value)?.checked_add(6)?;
    u32::try_from(both).ok()
}
