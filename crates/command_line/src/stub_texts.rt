//! What the arguments of `stub` give, read.
ghost use Rattle.std.specs.Prelude.{◌≡◌};
ghost use Rattle.std.specs.Option.{option_map};
ghost use Rattle.command_line.specs.Arguments.{given_in};
ghost use Rattle.command_line.specs.Finds.{Finds};
ghost use Rattle.command_line.specs.Running.{mode_of, stub_asked, stubbed_in};

use crate::arguments::Given;
use crate::list::only_one;
use crate::option_name::OptionName;
use crate::port::port_of;
use crate::stub_request::{StubMode, StubRequest};
use crate::wrong::{Place, Wrong};
use std::alloc::Global;

/// The stand-in server that is asked for.
pub fn read_stub<'a>(alloc: Global, given: &Given<'a>) -> Result<StubRequest, Wrong<'a>>
    ensures { Finds stubbed_in result (stub_asked (given_in given.now)) }
{
    let byte = given.at_most_once(alloc, OptionName::Byte)?;
    let port = port_of(Place::Port, only_one(&given.plain)?)?;
    Ok(StubRequest {
        port,
        mode: mode_of(byte),
    })
}

// What the server does, by whether `--byte` is given.
fn mode_of(byte: Option<&str>) -> StubMode
    ensures { result ≡ mode_of (option_map (λ flag. flag.now) byte.entry) }
{
    match byte {
        Some(_) => StubMode::Byte,
        None => StubMode::Honest,
    }
}
