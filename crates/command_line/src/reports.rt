//! The parameters among the arguments of `serve`, which logins report.
ghost use Rattle.std.specs.Prelude.{◌≡◌, ◌↔◌, map};
ghost use Rattle.command_line.specs.Finds.{Finds};
ghost use Rattle.command_line.specs.ReportTexts.{added, report_added, reports_of};

use crate::arguments::cut_at;
use crate::wrong::{Place, Wrong};
use startup::{ReportError, Reports};
use std::alloc::Global;

/// The parameters that these texts name, each by `NAME=VALUE`, in their order.
pub fn reports_of<'a>(alloc: Global, texts: &[&'a str]) -> Result<Reports, Wrong<'a>>
    ensures { Finds (λ reports. reports) result (reports_of (map (λ text. text.now) texts.now)) }
{
    let mut reports = Reports::new(alloc);
    for text in texts {
        add_text(&mut reports, text)?;
    }
    Ok(reports)
}

// Adds the parameter that a text names.
#[tactic(auto, unfolding(crate::specs::ReportTexts::report_added))]
fn add_text<'a>(reports: &mut Reports, text: &'a str) -> Result<(), Wrong<'a>>
    ensures { Finds (λ _. reports.new) result (report_added reports.old text.now) }
{
    let (name, value) = cut_at(text, '=');
    let Some(value) = value else {
        return Err(Wrong::Value(Place::Report, text));
    };
    add(reports, name, value, text)
}

// Adds a parameter, which this text names.
fn add<'a>(reports: &mut Reports, name: &str, value: &str, text: &'a str) -> Result<(), Wrong<'a>>
    ensures { Finds (λ _. reports.new) result (added reports.old name.now value.now) }
{
    match reports.add(name, value) {
        Ok(()) => Ok(()),
        Err(error) => Err(wrong_of(error, text)),
    }
}

// Why a text can't be reported.
fn wrong_of<'a>(error: ReportError, text: &'a str) -> Wrong<'a>
    ensures { (result ≡ Wrong.Memory) ↔ (error ≡ ReportError.Memory) }
{
    match error {
        ReportError::Name | ReportError::Value => Wrong::Value(Place::Report, text),
        ReportError::Fixed => Wrong::Value(Place::ReportFixed, text),
        ReportError::Twice => Wrong::Value(Place::ReportAgain, text),
        ReportError::TooLong => Wrong::Value(Place::ReportTooLong, text),
        ReportError::Memory => Wrong::Memory,
    }
}
