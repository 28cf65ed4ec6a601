//! How a group runs, read of the arguments of `serve`.
ghost use Rattle.std.specs.Prelude.{◌≡◌, ◌<◌, ◌≤◌, IfOk, Some};
ghost use Rattle.std.specs.Option.{ForSome, option_map};
ghost use Rattle.command_line.specs.Arguments.{given_in, values_of};
ghost use Rattle.command_line.specs.Finds.{Finds, Reads};
ghost use Rattle.command_line.specs.ReportTexts.{reports_of};
ghost use Rattle.command_line.specs.RunOptions.{log_of, max_message_of, metrics_of, run_asked, run_by, run_in, server_wait_of};

use crate::arguments::Given;
use crate::log_level::LogLevel;
use crate::option_name::OptionName;
use crate::port::port_of;
use crate::reports::reports_of;
use crate::run_options::RunOptions;
use crate::wrong::{Place, Wrong};
use ini_config::number_in;
use startup::Reports;
use std::alloc::Global;

/// How the group runs that is asked for.
#[tactic(auto, unfolding(crate::specs::RunOptions::run_asked))]
pub fn read_run<'a>(alloc: Global, given: &Given<'a>) -> Result<RunOptions, Wrong<'a>>
    ensures { Finds run_in result (run_asked (given_in given.now)) }
{
    let max_message = given.at_most_once(alloc, OptionName::MaxMessage)?;
    let server_wait = given.at_most_once(alloc, OptionName::ServerWait)?;
    let metrics = given.at_most_once(alloc, OptionName::Metrics)?;
    let log = given.at_most_once(alloc, OptionName::Log)?;
    let until_eof = given.at_most_once(alloc, OptionName::UntilEof)?;
    let reports = reports_in(alloc, given)?;
    read_texts(
        reports,
        max_message,
        server_wait,
        metrics,
        log,
        until_eof.is_some(),
    )
}

// The parameters that logins are to report.
fn reports_in<'a>(alloc: Global, given: &Given<'a>) -> Result<Reports, Wrong<'a>>
    ensures { Finds (λ reports. reports) result
        (reports_of (values_of OptionName.Report (given_in given.now))) }
{
    let texts = given.values(alloc, OptionName::Report)?;
    reports_of(alloc, &texts)
}

// How a group runs, by these texts.
fn read_texts<'a>(
    reports: Reports,
    max_message: Option<&'a str>,
    server_wait: Option<&'a str>,
    metrics: Option<&'a str>,
    log: Option<&'a str>,
    until_eof: bool,
) -> Result<RunOptions, Wrong<'a>>
    ensures { Reads run_in result (run_by reports (option_map (λ text. text.now) max_message.entry)
        (option_map (λ text. text.now) server_wait.entry)
        (option_map (λ text. text.now) metrics.entry) (option_map (λ text. text.now) log.entry)
        until_eof) }
{
    let max_message = max_message_of(max_message)?;
    let server_wait = server_wait_of(server_wait)?;
    let metrics = metrics_of(metrics)?;
    let log = log_of(log)?;
    Ok(RunOptions {
        reports,
        max_message,
        server_wait,
        metrics,
        log,
        until_eof,
    })
}

// The longest message, 1 MiB where no length is given.
fn max_message_of<'a>(text: Option<&'a str>) -> Result<u32, Wrong<'a>>
    ensures value { Reads (λ length. length) result
        (max_message_of (option_map (λ t. t.now) text.entry)) }
    ensures least { IfOk result (λ length. 8192 ≤ length) }
    ensures most { IfOk result (λ length. length ≤ 1073741823) }
{
    let Some(text) = text else {
        return Ok(1_048_576);
    };
    match number_in(8192, 1_073_741_823, text) {
        Ok(length) => Ok(length),
        Err(_) => Err(Wrong::Value(Place::MaxMessage, text)),
    }
}

// For how many seconds a server is tried again, 0 where no time is given.
fn server_wait_of<'a>(text: Option<&'a str>) -> Result<u32, Wrong<'a>>
    ensures value { Reads (λ seconds. seconds) result
        (server_wait_of (option_map (λ t. t.now) text.entry)) }
    ensures most { IfOk result (λ seconds. seconds ≤ 3600) }
{
    let Some(text) = text else {
        return Ok(0);
    };
    match number_in(0, 3_600, text) {
        Ok(seconds) => Ok(seconds),
        Err(_) => Err(Wrong::Value(Place::ServerWait, text)),
    }
}

// The port of the figures, where one is given.
fn metrics_of<'a>(text: Option<&'a str>) -> Result<Option<u16>, Wrong<'a>>
    ensures value { Reads (λ port. port) result (metrics_of (option_map (λ t. t.now) text.entry)) }
    ensures range { IfOk result (λ port. ForSome port (λ number. 0 < number)) }
{
    match text {
        None => Ok(None),
        Some(text) => Ok(Some(port_of(Place::Metrics, text)?)),
    }
}

// The level of the log, `notice` where none is given.
fn log_of<'a>(text: Option<&'a str>) -> Result<LogLevel, Wrong<'a>>
    ensures { Reads (λ level. level) result (log_of (option_map (λ t. t.now) text.entry)) }
{
    let Some(text) = text else {
        return Ok(LogLevel::Notice);
    };
    match LogLevel::read(text) {
        Some(level) => Ok(level),
        None => Err(Wrong::Value(Place::Log, text)),
    }
}
