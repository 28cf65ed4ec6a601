//! The columns of each query.
ghost use Rattle.std.specs.Prelude.{◌≡◌, ◌<◌, ◌^◌, map, length, IfOk};
ghost use Rattle.console.specs.Rows.{columns_of, row_description};

use crate::frames::row_description;
use crate::query::Query;
use pg_frames::Frame;
use std::alloc::{AllocError, Global};

const PEERS: &[&str] = &["peer_id", "host", "port", "pool_size"];

const LINKS: &[&str] = &["link", "database", "place", "tickets", "condemned"];

const CLIENTS: &[&str] = &["slot", "database", "state"];

const CANCELS: &[&str] = &["kind", "count"];

/// The description of a query's rows.
pub(crate) fn description(alloc: Global, query: Query) -> Result<Frame, AllocError>
    ensures { IfOk result (λ frame. frame ≡ row_description (columns_of query)) }
{
    match query {
        Query::Peers => row_description(alloc, PEERS),
        Query::Links => row_description(alloc, LINKS),
        Query::Clients => row_description(alloc, CLIENTS),
        Query::Cancels => row_description(alloc, CANCELS),
    }
}
