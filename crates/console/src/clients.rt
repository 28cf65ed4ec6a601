//! The rows of `SHOW CLIENTS`.
ghost use Rattle.std.specs.Prelude.{◌≡◌, ◌++◌, ◌∷◌, [], map, decimal, slice_get, IfOk, OnOk};
ghost use Rattle.node_core.specs.View.{client_at};
ghost use Rattle.console.specs.Rows.{client_rows, slot_row, database_name, state_text, data_row};

use crate::frames::data_row;
use ini_config::Settings;
use link_pool::Claim;
use node_core::{Client, DatabaseNo};
use pg_frames::Frame;
use std::alloc::{AllocError, Global};

/// The rows of the live slots, by rising number.
pub(crate) fn client_rows(
    alloc: Global,
    clients: &[Option<Client>],
    claims: &[Claim],
    settings: &Settings,
) -> Result<Vec<Frame>, AllocError>
    ensures { IfOk result (λ frames.
        frames.items ≡ map data_row (client_rows settings.now clients.now claims.now)) }
{
    let mut frames = Vec::new(alloc);
    for slot in 0..clients.len() {
        let client = client_at(clients, slot);
        let claim = claim_at(claims, slot);
        put_row(alloc, slot, client, claim, settings, &mut frames)?;
    }
    Ok(frames)
}

// The client of a slot, if that is live.
fn client_at(clients: &[Option<Client>], slot: usize) -> Option<Client>
    ensures { result ≡ client_at (slice_get clients.now slot) }
{
    *clients.get(slot)?
}

// What the client of a slot has.
fn claim_at(claims: &[Claim], slot: usize) -> Option<Claim>
    ensures { result ≡ slice_get claims.now slot }
{
    claims.get(slot).copied()
}

// Appends the row of a slot, if that is live.
fn put_row(
    alloc: Global,
    slot: usize,
    client: Option<Client>,
    claim: Option<Claim>,
    settings: &Settings,
    frames: &mut Vec<Frame>,
) -> Result<(), AllocError>
    ensures { OnOk result (frames.new.items
        ≡ frames.old.items ++ map data_row (slot_row settings.now slot client claim)) }
{
    if let Some(client) = &client {
        frames.push(row(alloc, slot, client, state_text(&claim), settings)?)?;
    }
    Ok(())
}

fn row(
    alloc: Global,
    slot: usize,
    client: &Client,
    state: &str,
    settings: &Settings,
) -> Result<Frame, AllocError>
    ensures { IfOk result (λ frame. frame ≡ data_row (decimal slot
        ∷ database_name settings.now client.now.database ∷ state.now ∷ [])) }
{
    let slot = slot.to_string(alloc)?;
    three(
        alloc,
        slot.as_str(),
        database_name(settings, client.database),
        state,
    )
}

// A row of these texts.
fn three<'a>(
    alloc: Global,
    slot: &'a str,
    database: &'a str,
    state: &'a str,
) -> Result<Frame, AllocError>
    ensures { IfOk result (λ frame.
        frame ≡ data_row (slot.entry.now ∷ database.entry.now ∷ state.entry.now ∷ [])) }
{
    data_row(alloc, &[slot, database, state])
}

// What a client has.
fn state_text(claim: &Option<Claim>) -> &'static str
    ensures { result.now ≡ state_text claim.now }
{
    match claim {
        Some(Claim::Waiting(_)) => "waiting",
        Some(Claim::Open(_)) => "opening",
        Some(Claim::Link(_)) => "link",
        Some(Claim::Nothing | Claim::Cancelled | Claim::Gave(_)) | None => "none",
    }
}

/// The name of the database at a place of the settings, and an empty text where there is none.
pub(crate) fn database_name(settings: &Settings, database: DatabaseNo) -> &str
    ensures { result.now ≡ database_name settings.entry.now database }
{
    match settings.database(database) {
        Some(database) => database.name,
        None => "",
    }
}
