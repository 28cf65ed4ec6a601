//! The rows of `SHOW LINKS`.
ghost use Rattle.std.specs.Prelude.{◌≡◌, ◌++◌, ◌∷◌, [], map, slice_get, IfOk, OnOk};
ghost use Rattle.console.specs.Rows.{IsByNumber, links_of, links_in, link_at, numbered_link, link_row, data_row, place_text, yes_or_no};

use crate::clients::database_name;
use crate::frames::data_row;
use crate::numbered_row::{NumberedRow, in_order};
use ini_config::Settings;
use link_pool::{Link, LinkState, Place};
use node_core::{DatabaseNo, LinkPlace, View};
use pg_frames::Frame;
use quarantine::HoldState;
use std::alloc::{AllocError, Global};

/// The rows of the links, by rising number.
pub(crate) fn link_rows<S: Drop>(
    alloc: Global,
    view: &View<S>,
    settings: &Settings,
) -> Result<Vec<Frame>, AllocError>
    ensures { IfOk result (λ frames.
        IsByNumber (map (numbered_link settings.now) (links_of view.now.links)) frames.items) }
{
    in_order(alloc, numbered_links(alloc, view, settings)?)
}

// The rows of all links.
fn numbered_links<S: Drop>(
    alloc: Global,
    view: &View<S>,
    settings: &Settings,
) -> Result<Vec<NumberedRow>, AllocError>
    ensures { IfOk result (λ rows.
        rows.items ≡ map (numbered_link settings.now) (links_of view.now.links)) }
{
    let mut rows = Vec::new(alloc);
    for database in 0..256_u32 {
        put_links(alloc, view, DatabaseNo(database as u8), settings, &mut rows)?;
    }
    Ok(rows)
}

// Appends the rows of a database's links.
fn put_links<S: Drop>(
    alloc: Global,
    view: &View<S>,
    database: DatabaseNo,
    settings: &Settings,
    rows: &mut Vec<NumberedRow>,
) -> Result<(), AllocError>
    ensures { OnOk result (rows.new.items ≡ rows.old.items ++ map (numbered_link settings.now)
        (links_in (slice_get view.now.links.pools database))) }
{
    for index in 0..65_536_u32 {
        let index = index as u16;
        let Some(place) = view.place(LinkPlace { database, index }) else {
            return Ok(());
        };
        put_link(alloc, &place, settings, rows)?;
    }
    Ok(())
}

// Appends the row of a place's link, if there is one.
fn put_link(
    alloc: Global,
    place: &Place,
    settings: &Settings,
    rows: &mut Vec<NumberedRow>,
) -> Result<(), AllocError>
    ensures { OnOk result (rows.new.items
        ≡ rows.old.items ++ map (numbered_link settings.now) (link_at place.now)) }
{
    if let Place::Link(link) = place {
        let number = link.details.link.get();
        let frame = row(alloc, link, settings)?;
        rows.push(NumberedRow { number, frame })?;
    }
    Ok(())
}

fn row(alloc: Global, link: &Link, settings: &Settings) -> Result<Frame, AllocError>
    ensures { IfOk result (λ frame. frame ≡ data_row (link_row settings.now link.now)) }
{
    let number = link.details.link.get().to_string(alloc)?;
    let database = database_name(settings, link.details.at.database);
    let tickets = link.hold.tickets().to_string(alloc)?;
    let condemned = matches!(link.hold.state(), HoldState::Condemned);
    five(
        alloc,
        number.as_str(),
        database,
        place_text(&link.state),
        tickets.as_str(),
        yes_or_no(condemned),
    )
}

// A row of these texts.
fn five<'a>(
    alloc: Global,
    number: &'a str,
    database: &'a str,
    place: &'a str,
    tickets: &'a str,
    condemned: &'a str,
) -> Result<Frame, AllocError>
    ensures { IfOk result (λ frame. frame ≡ data_row (number.entry.now ∷ database.entry.now
        ∷ place.entry.now ∷ tickets.entry.now ∷ condemned.entry.now ∷ [])) }
{
    data_row(alloc, &[number, database, place, tickets, condemned])
}

// Where a link is.
fn place_text(state: &LinkState) -> &'static str
    ensures { result.now ≡ place_text state.now }
{
    match state {
        LinkState::Idle => "idle",
        LinkState::Held(_) => "held",
        LinkState::Quarantined(_) => "quarantined",
    }
}

fn yes_or_no(answer: bool) -> &'static str
    ensures { result.now ≡ yes_or_no answer }
{
    if answer { "yes" } else { "no" }
}
