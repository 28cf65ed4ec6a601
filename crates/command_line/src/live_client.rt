//! The clients among the arguments.
ghost use Rattle.std.specs.Prelude.{◌≡◌, ◌≤◌, Some, IfOk, length};
ghost use Rattle.std.specs.Option.{option_map};
ghost use Rattle.command_line.specs.Clients.{client_of, clients_of, eight_bytes};
ghost use Rattle.command_line.specs.Finds.{Finds, Reads};
ghost use Rattle.command_line.specs.Numbers.{number_from};

use crate::arguments::cut_at;
use crate::list::{Item, items};
use crate::wrong::{Place, Wrong};
use hex::FromHex;
use ini_config::number_in;
use pg_ids::{Secret, ServerKey};
use std::alloc::Global;

/// The most clients that arguments name.
pub const CLIENTS: usize = 65535;

/// A client that is logged in.
#[derive(Clone, Copy, Debug, PartialEq, Eq)]
pub struct LiveClient {
    /// Its slot's secret.
    pub secret: Secret,
    /// The key of the link that it holds, by which the link's server cancels; none where it holds
    /// no link.
    pub server_key: Option<ServerKey>,
}

impl Item for LiveClient {
    ghost use Rattle.command_line.specs.Clients.{client_of};

    ghost item_of = { client_of };

    fn read<'a>(text: &'a str) -> Result<LiveClient, Wrong<'a>> {
        client(text)
    }
}

/// The clients that a text names, at most 65535, each by `SECRET` or `SECRET:KEYHEX`.
pub fn live_clients<'a>(alloc: Global, text: Option<&'a str>) -> Result<Vec<LiveClient>, Wrong<'a>>
    ensures value { Finds (λ clients. clients.items) result
        (clients_of (option_map (λ t. t.now) text.entry)) }
    ensures limit { IfOk result (λ clients. length clients.items ≤ 65535) }
{
    let clients = items::<LiveClient>(alloc, text)?;
    if clients.len() > CLIENTS {
        return Err(Wrong::Value(Place::ClientTooMany, ""));
    }
    Ok(clients)
}

// The client that a text names.
#[tactic(auto, unfolding(crate::specs::Clients::client_of))]
fn client<'a>(text: &'a str) -> Result<LiveClient, Wrong<'a>>
    ensures { Reads (λ client. client) result (client_of text.now) }
{
    let (secret, digits) = cut_at(text, ':');
    let secret = secret_of(secret)?;
    let server_key = match digits {
        Some(digits) => Some(server_key_of(digits)?),
        None => None,
    };
    Ok(LiveClient { secret, server_key })
}

fn secret_of<'a>(text: &'a str) -> Result<Secret, Wrong<'a>>
    ensures { Reads (λ secret. secret) result (number_from 0 4294967295 text.now) }
{
    match number_in(0, u32::MAX, text) {
        Ok(secret) => Ok(Secret(secret)),
        Err(_) => Err(Wrong::Value(Place::Secret, text)),
    }
}

fn server_key_of<'a>(digits: &'a str) -> Result<ServerKey, Wrong<'a>>
    ensures { Reads (λ key. key) result (eight_bytes digits.now) }
{
    match <[u8; 8] as FromHex>::from_hex(digits) {
        Ok(key) => Ok(ServerKey(key)),
        Err(_) => Err(Wrong::Value(Place::ServerKey, digits)),
    }
}
