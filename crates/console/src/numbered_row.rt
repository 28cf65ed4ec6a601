//! Rows that are shown by rising number.
ghost use Rattle.std.specs.Prelude.{◌≡◌, map, IfOk};
ghost use Rattle.console.specs.Rows.{IsByNumber};

use pg_frames::Frame;
use std::alloc::{AllocError, Global};

/// A row, with the number that it is shown by.
#[derive(Drop)]
pub(crate) struct NumberedRow {
    /// The number.
    pub number: u64,
    /// The row's message.
    pub frame: Frame,
}

/// The rows, by rising number.
pub(crate) fn in_order(alloc: Global, mut rows: Vec<NumberedRow>) -> Result<Vec<Frame>, AllocError>
    ensures { IfOk result (λ frames. IsByNumber rows.items frames.items) }
{
    rows.sort_by_key(|row| row.number)?;
    frames_of(alloc, rows)
}

// The messages of these rows.
fn frames_of(alloc: Global, rows: Vec<NumberedRow>) -> Result<Vec<Frame>, AllocError>
    ensures { IfOk result (λ frames. frames.items ≡ map (λ row. row.frame) rows.items) }
{
    let mut frames = Vec::new(alloc);
    for row in rows {
        frames.push(row.frame)?;
    }
    Ok(frames)
}
