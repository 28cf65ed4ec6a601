//! What the arguments of `serve` give, read.
ghost use Rattle.std.specs.Prelude.{◌≡◌, ◌<◌, Some, length, map};
ghost use Rattle.std.specs.Option.{option_map};
ghost use Rattle.command_line.specs.Arguments.{given_in};
ghost use Rattle.command_line.specs.Finds.{Finds, Reads};
ghost use Rattle.command_line.specs.RunOptions.{run_in};
ghost use Rattle.command_line.specs.Running.{boot_of, seed_asked, serve_asked, served_by, served_in};
ghost use Rattle.command_line.specs.Seeds.{text_in};

use crate::arguments::Given;
use crate::option_name::OptionName;
use crate::port::port_of;
use crate::run_options::RunOptions;
use crate::run_texts::read_run;
use crate::seed::SeedText;
use crate::serve_request::ServeRequest;
use crate::wrong::{Place, Wrong};
use ini_config::number_in;
use std::alloc::Global;

/// The group that is asked for.
#[tactic(auto, using(crate::proofs::ArgumentLemmas::some_texts))]
pub fn read_serve<'a>(alloc: Global, given: Given<'a>) -> Result<ServeRequest<'a>, Wrong<'a>>
    ensures { Finds served_in result (serve_asked (given_in given.entry)) }
{
    let front = given.once(alloc, OptionName::Front)?;
    let seed = seed_in(alloc, &given)?;
    let boot = given.at_most_once(alloc, OptionName::Boot)?;
    let stand_in = given.at_most_once(alloc, OptionName::StandIn)?;
    if given.plain.is_empty() {
        return Err(Wrong::Form);
    }
    let run = read_run(alloc, &given)?;
    read_texts(front, seed, boot, stand_in.is_some(), run, given.plain)
}

// How the seed is given.
fn seed_in<'a>(alloc: Global, given: &Given<'a>) -> Result<SeedText<'a>, Wrong<'a>>
    ensures { Finds text_in result (seed_asked (given_in given.now)) }
{
    let digits = given.at_most_once(alloc, OptionName::Seed)?;
    let seed_file = given.at_most_once(alloc, OptionName::SeedFile)?;
    SeedText::one_of(digits, seed_file)
}

// The group that these texts and files name.
fn read_texts<'a>(
    front: &'a str,
    seed: SeedText<'a>,
    boot: Option<&'a str>,
    stand_in: bool,
    run: RunOptions,
    files: Vec<&'a str>,
) -> Result<ServeRequest<'a>, Wrong<'a>>
    requires { 0 < length files.items }
    ensures { Reads served_in result (served_by front.now (text_in seed.entry)
        (option_map (λ text. text.now) boot.entry) stand_in (run_in run)
        (map (λ file. file.now) files.entry.items)) }
{
    let front = port_of(Place::Front, front)?;
    let seed = seed.source()?;
    let boot = boot_of(boot)?;
    Ok(ServeRequest {
        front,
        seed,
        boot,
        stand_in,
        reports: run.reports,
        max_message: run.max_message,
        server_wait: run.server_wait,
        metrics: run.metrics,
        log: run.log,
        until_eof: run.until_eof,
        files,
    })
}

// The number of a start, 0 where there is none.
fn boot_of<'a>(text: Option<&'a str>) -> Result<u32, Wrong<'a>>
    ensures { Reads (λ boot. boot) result (boot_of (option_map (λ t. t.now) text.entry)) }
{
    let Some(text) = text else {
        return Ok(0);
    };
    match number_in(0, u32::MAX, text) {
        Ok(boot) => Ok(boot),
        Err(_) => Err(Wrong::Value(Place::Boot, text)),
    }
}
