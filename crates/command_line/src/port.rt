//! Ports among the arguments.
ghost use Rattle.std.specs.Prelude.{◌≡◌, ◌<◌, Some, IfOk};
ghost use Rattle.command_line.specs.Finds.{Reads};
ghost use Rattle.command_line.specs.Numbers.{port_of};

use crate::wrong::{Place, Wrong};
use ini_config::number_in;

/// The port that a text names, 1 to 65535.
pub fn port_of<'a>(place: Place, text: &'a str) -> Result<u16, Wrong<'a>>
    ensures value { Reads (λ port. port) result (port_of text.now) }
    ensures range { IfOk result (λ port. 0 < port) }
{
    match number_in(1, 65535, text) {
        Ok(port) => Ok(port as u16),
        Err(_) => Err(Wrong::Value(place, text)),
    }
}
