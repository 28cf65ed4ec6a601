//! A node's steps, as tables of acts and of what each returns, and what a node has of its settings.
use crate::node::desk::{Act, Desk, Made, Said};
use std::process::Abort;
use std::test::Fail;

mod desk;
mod many_databases;
mod rounds;
mod settings;

// The keys by which the servers of two links cancel.
const KEY: [u8; 8] = [0, 0, 0, 1, 0, 0, 0, 2];

const OTHER_KEY: [u8; 8] = [0, 0, 0, 3, 0, 0, 0, 4];

// What was made by no step.
const NOTHING: Made = Made {
    boots: 0,
    serials: 0,
    permits: 0,
    links: 0,
    tickets: 0,
};

// Each act, from the first on, returns what stands beside it, after these were made.
fn run_later(
    rt: &impl Abort,
    desk: &mut Desk,
    rows: &[(Act, Said)],
    made: &Made,
) -> Result<(), Fail> {
    for &(act, said) in rows {
        assert_eq!(rt;
            desk.act(act.later(made))?,
            said.later(made),
            "{act:?} after {made:?}"
        );
    }
    Ok(())
}
