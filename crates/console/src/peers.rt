//! The rows of `SHOW PEERS`.
ghost use Rattle.std.specs.Prelude.{◌≡◌, ◌++◌, ◌∷◌, [], map, filter, decimal, slice_get, option_to_list, IfOk, OnOk};
ghost use Rattle.ini_config.specs.View.{lent_peer};
ghost use Rattle.console.specs.Rows.{IsByNumber, is_other, other_peers, numbered_peer, peer_row, data_row};

use crate::frames::data_row;
use crate::numbered_row::{NumberedRow, in_order};
use ini_config::{Peer, Settings};
use pg_frames::Frame;
use std::alloc::{AllocError, Global};

/// The rows of the peers, by rising number.
pub(crate) fn peer_rows(alloc: Global, settings: &Settings) -> Result<Vec<Frame>, AllocError>
    ensures { IfOk result (λ frames.
        IsByNumber (map numbered_peer (other_peers settings.now)) frames.items) }
{
    in_order(alloc, numbered_peers(alloc, settings)?)
}

// The rows of the peers, without the node itself.
fn numbered_peers(alloc: Global, settings: &Settings) -> Result<Vec<NumberedRow>, AllocError>
    ensures { IfOk result (λ rows. rows.items ≡ map numbered_peer (other_peers settings.now)) }
{
    let mut rows = Vec::new(alloc);
    for place in 0..settings.peer_count() {
        put_peer(alloc, settings, place, &mut rows)?;
    }
    Ok(rows)
}

// Appends the row of the peer at a place, if that is another node.
fn put_peer(
    alloc: Global,
    settings: &Settings,
    place: usize,
    rows: &mut Vec<NumberedRow>,
) -> Result<(), AllocError>
    ensures { OnOk result (rows.new.items ≡ rows.old.items ++ map numbered_peer
        (filter (is_other settings.now) (option_to_list (slice_get settings.now.peers place)))) }
{
    let own = settings.peer_id().get();
    let Some(peer) = settings.peer(place) else {
        return Ok(());
    };
    if peer.number.get() != own {
        rows.push(row(alloc, &peer)?)?;
    }
    Ok(())
}

fn row(alloc: Global, peer: &Peer<'_>) -> Result<NumberedRow, AllocError>
    ensures { IfOk result (λ row. row ≡ numbered_peer (lent_peer peer.now)) }
{
    let number = peer.number.get();
    Ok(NumberedRow {
        number: u64::from(number),
        frame: frame(alloc, number, peer.host, peer.port, peer.pool_size)?,
    })
}

// The row of a peer with these settings.
fn frame(
    alloc: Global,
    number: u16,
    host: &str,
    port: u16,
    pool_size: u16,
) -> Result<Frame, AllocError>
    ensures { IfOk result (λ frame. frame ≡ data_row
        (decimal number ∷ host.now ∷ decimal port ∷ decimal pool_size ∷ [])) }
{
    let number = number.to_string(alloc)?;
    let port = port.to_string(alloc)?;
    let pool_size = pool_size.to_string(alloc)?;
    four(
        alloc,
        number.as_str(),
        host,
        port.as_str(),
        pool_size.as_str(),
    )
}

// A row of these texts.
fn four<'a>(
    alloc: Global,
    number: &'a str,
    host: &'a str,
    port: &'a str,
    pool_size: &'a str,
) -> Result<Frame, AllocError>
    ensures { IfOk result (λ frame. frame ≡ data_row
        (number.entry.now ∷ host.entry.now ∷ port.entry.now ∷ pool_size.entry.now ∷ [])) }
{
    data_row(alloc, &[number, host, port, pool_size])
}
