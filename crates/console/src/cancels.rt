//! The rows of `SHOW CANCELS`.
ghost use Rattle.std.specs.Prelude.{◌≡◌, ◌++◌, ◌∷◌, [], map, IfOk, OnOk};
ghost use Rattle.console.specs.Rows.{cancel_rows, cancel_row, data_row};

use crate::frames::data_row;
use pg_frames::Frame;
use std::alloc::{AllocError, Global};

/// The rows of the eight counts.
pub(crate) fn cancel_rows(alloc: Global, words: &[u64; 8]) -> Result<Vec<Frame>, AllocError>
    ensures { IfOk result (λ frames. frames.items ≡ map data_row (cancel_rows words.now)) }
{
    let mut frames = Vec::new(alloc);
    put_row(alloc, "spent", words[0], &mut frames)?;
    put_row(alloc, "unknown", words[1], &mut frames)?;
    put_row(alloc, "no_peer", words[2], &mut frames)?;
    put_row(alloc, "no_link", words[3], &mut frames)?;
    put_row(alloc, "forwarded", words[4], &mut frames)?;
    put_row(alloc, "sent", words[5], &mut frames)?;
    put_row(alloc, "ended", words[6], &mut frames)?;
    put_row(alloc, "failed", words[7], &mut frames)?;
    Ok(frames)
}

// Appends the row of a count.
fn put_row(alloc: Global, kind: &str, count: u64, frames: &mut Vec<Frame>) -> Result<(), AllocError>
    ensures { OnOk result (frames.new.items
        ≡ frames.old.items ++ data_row (cancel_row kind.now count) ∷ []) }
{
    frames.push(row(alloc, kind, count)?)?;
    Ok(())
}

fn row(alloc: Global, kind: &str, count: u64) -> Result<Frame, AllocError>
    ensures { IfOk result (λ frame. frame ≡ data_row (cancel_row kind.now count)) }
{
    let count = count.to_string(alloc)?;
    two(alloc, kind, count.as_str())
}

// A row of these texts.
fn two<'a>(alloc: Global, kind: &'a str, count: &'a str) -> Result<Frame, AllocError>
    ensures { IfOk result (λ frame. frame ≡ data_row (kind.entry.now ∷ count.entry.now ∷ [])) }
{
    data_row(alloc, &[kind, count])
}
