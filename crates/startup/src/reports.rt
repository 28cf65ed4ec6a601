//! The parameters that logins report beside those that every login reports.
ghost use Rattle.std.specs.Prelude.{◌≡◌, ◌+◌, ◌-◌, ◌≤◌, ◌<◌, ◌↔◌, [], ◌∷◌, ◌++◌, length, slice_get, nat_lt, nat_le, not, Some, None, Err, IsTrue, IfSome, OnOk, OnErr, IsOkUnless, ℕ};
ghost use Rattle.std.specs.Option.{option_map};
ghost use Rattle.startup.specs.declared.report_error.ReportError.{ReportError};
ghost use Rattle.startup.specs.Replies.{parameter_status, statuses};
ghost use Rattle.startup.specs.Reports.{refusal, is_reported, length_with, IsReport};

use crate::append::append;
use crate::report::{Report, Stored, has_zero, is_among, is_fixed};
use crate::report_error::ReportError;
use std::alloc::{AllocError, Global};
use std::marker::Model;

// How many bytes the messages of all reports may have together.
const MAX_LENGTH: usize = 8000;

// How many bytes a ParameterStatus has beside its name and its value: the type, the length, and two
// zero bytes.
const FRAME_LENGTH: usize = 7;

/// The parameters that logins report to clients beside the three that every login has. In contracts
/// it is their names and values, in order.
#[derive(Debug, Drop)]
pub struct Reports {
    alloc: Global,
    stored: Vec<Stored>,
    // The ParameterStatus messages of all, ready to be written.
    messages: Vec<u8>,
}

impl Model for Reports {
    ghost use Rattle.std.specs.Prelude.{List};
    ghost use Rattle.startup.specs.Replies.{Report};

    ghost Value = { List Report };

    ghost use Rattle.startup.specs.Stored.{all_reported, AreKept};

    ghost view = { λ r. all_reported r.stored.items };

    ghost invariant = { λ r. AreKept (all_reported r.stored.items) r.messages.items };
}

impl Reports {
    ghost use Rattle.startup.specs.Stored.{lent};

    /// No parameters. Takes no memory.
    pub fn new(alloc: Global) -> Reports
        ensures { result ≡ [] }
    {
        Reports {
            alloc,
            stored: Vec::new(alloc),
            messages: Vec::new(alloc),
        }
    }

    /// Adds a parameter at the end. The names `server_encoding` and `client_encoding` are refused,
    /// since what each login reports of them is fixed. `server_version` may be added: clients then
    /// get it a second time, and take the last.
    pub fn add(&mut self, name: &str, value: &str) -> Result<(), ReportError>
        // Each refusal comes exactly in its case, and `Memory` where none does.
        ensures refused { (error : ReportError) → refusal self.old name.now value.now ≡ Some error
            → result ≡ Err error }
        ensures memory { refusal self.old name.now value.now ≡ None
            → IsOkUnless result ReportError.Memory }
        ensures ok { OnOk result (self.new
            ≡ self.old ++ record { name = name.now; value = value.now } ∷ []) }
        ensures err { OnErr result (self.new ≡ self.old) }
    {
        if let Some(error) = self.refusal(name, value) {
            return Err(error);
        }
        self.put(name, value)?;
        Ok(())
    }

    // Why a parameter is refused.
    #[tactic(auto, unfolding(crate::specs::Reports::refusal))]
    fn refusal(&self, name: &str, value: &str) -> Option<ReportError>
        ensures { result ≡ refusal self.now name.now value.now }
    {
        if name.is_empty() || has_zero(name) {
            return Some(ReportError::Name);
        }
        if has_zero(value) {
            return Some(ReportError::Value);
        }
        if is_fixed(name) {
            return Some(ReportError::Fixed);
        }
        if self.has(name) {
            return Some(ReportError::Twice);
        }
        if !self.has_room(name, value) {
            return Some(ReportError::TooLong);
        }
        None
    }

    // Whether the name is reported.
    fn has(&self, name: &str) -> bool
        ensures { result ≡ is_reported name.now self.now }
    {
        is_among(name, &self.stored)
    }

    // Whether one more message fits the limit.
    fn has_room(&self, name: &str, value: &str) -> bool
        ensures { result ≡ not (nat_lt 8000 (length_with self.now name.now value.now)) }
    {
        fits(MAX_LENGTH - self.messages.len(), name.len(), value.len())
    }

    // Adds a parameter that isn't refused.
    fn put(&mut self, name: &str, value: &str) -> Result<(), AllocError>
        requires { refusal self.old name.now value.now ≡ None }
        ensures ok { OnOk result (self.new
            ≡ self.old ++ record { name = name.now; value = value.now } ∷ []) }
        ensures err { OnErr result (self.new ≡ self.old) }
    {
        let stored = Stored::new(self.alloc, name, value)?;
        self.stored.reserve(1)?;
        append_status(&mut self.messages, name, value)?;
        self.stored.push(stored).unwrap();
        Ok(())
    }

    /// How many there are.
    pub fn len(&self) -> usize
        ensures { result ≡ length self.now }
    {
        self.stored.len()
    }

    /// Whether there are none.
    pub fn is_empty(&self) -> bool
        ensures { IsTrue result ↔ (self.now ≡ []) }
    {
        self.stored.is_empty()
    }

    /// The one at this place, counted from 0.
    pub fn get(&self, place: usize) -> Option<Report<'_>>
        ensures found { option_map lent result ≡ slice_get self.now place }
        // Neither its name nor its value has a zero byte, and its message is short.
        ensures formed { IfSome result (λ report. IsReport (lent report)) }
    {
        Some(self.stored.get(place)?.lend())
    }

    /// The ParameterStatus messages of all, in order.
    pub(crate) fn messages(&self) -> &[u8]
        ensures text { result.now ≡ statuses self.now }
        ensures short { length result.now ≤ 8000 }
    {
        self.messages.as_slice()
    }
}

// Whether a ParameterStatus whose name and value have these lengths fits the room.
fn fits(room: usize, name: usize, value: usize) -> bool
    ensures { result ≡ nat_le (7 + name + value) room }
{
    if room < FRAME_LENGTH || room - FRAME_LENGTH < name {
        return false;
    }
    value <= room - FRAME_LENGTH - name
}

// Appends a ParameterStatus.
fn append_status(out: &mut Vec<u8>, name: &str, value: &str) -> Result<(), AllocError>
    requires { length name.now + length value.now ≤ 8000 }
    ensures ok { OnOk result (out.new.items ≡ out.old.items
        ++ parameter_status name.now value.now) }
    ensures err { OnErr result (out.new.items ≡ out.old.items) }
{
    let size = (FRAME_LENGTH - 1 + name.len() + value.len()) as u32;
    append_parts(out, &size.to_be_bytes(), name, value)
}

// Appends a ParameterStatus of this length.
fn append_parts<'a>(
    out: &mut Vec<u8>,
    size: &'a [u8],
    name: &'a str,
    value: &'a str,
) -> Result<(), AllocError>
    requires { length size.now + length name.now + length value.now ≤ 65536 }
    ensures ok { OnOk result (out.new.items ≡ out.old.items
        ++ (83 ∷ size.now ++ (name.now ++ 0 ∷ []) ++ (value.now ++ 0 ∷ []))) }
    ensures err { OnErr result (out.new.items ≡ out.old.items) }
{
    let parts = [b"S", size, name.as_bytes(), b"\0", value.as_bytes(), b"\0"];
    match append(out, &parts) {
        Ok(()) => Ok(()),
        Err(_) => Err(AllocError),
    }
}
