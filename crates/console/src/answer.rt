//! The answer to a query's text.
ghost use Rattle.std.specs.Prelude.{◌≡◌, ◌∷◌, [], true, IfOk, IfSome, IfNone};
ghost use Rattle.node_core.specs.View.{NodeView};
ghost use Rattle.console.specs.declared.query.Query.{Query as QueryValue};
ghost use Rattle.console.specs.Rows.{Answers, Asks, AreRows, shows_node, frames_of, not_in_profile, ready_for_query};

use crate::cancels::cancel_rows;
use crate::clients::client_rows;
use crate::columns::description;
use crate::frames::{command_complete, not_in_profile, ready_for_query};
use crate::links::link_rows;
use crate::peers::peer_rows;
use crate::query::Query;
use ini_config::Settings;
use node_core::View;
use pg_frames::Frame;
use std::alloc::{AllocError, Global};

/// The console's reply to a query's text, by a copy of the node's state, the eight words of its
/// board and its settings. Fails if memory runs out, or for a host or a name of 4 GiB or more.
pub fn rows<S: Drop>(
    alloc: Global,
    query: &str,
    view: &View<S>,
    words: &[u64; 8],
    settings: &Settings,
) -> Result<Vec<Frame>, AllocError>
    ensures { IfOk result
        (λ frames. Answers query.now view.now words.now settings.now frames.items) }
{
    let Some(query) = Query::of(query) else {
        return refusal(alloc);
    };
    let rows = rows_of(alloc, query, view, words, settings)?;
    reply(alloc, query, rows)
}

/// The same reply without a copy of the node's state, to each text whose reply doesn't depend on
/// it. Returns `None` for the others, which are SHOW LINKS and SHOW CLIENTS.
pub fn rows_without_view(
    alloc: Global,
    query: &str,
    words: &[u64; 8],
    settings: &Settings,
) -> Result<Option<Vec<Frame>>, AllocError>
    ensures rows { IfOk result (λ found. IfSome found (λ frames. (view : NodeView)
        → Answers query.now view words.now settings.now frames.items)) }
    ensures none { IfOk result (λ found. IfNone found ((asked : QueryValue)
        × Asks query.now asked × (shows_node asked ≡ true))) }
{
    let Some(query) = Query::of(query) else {
        return Ok(Some(refusal(alloc)?));
    };
    match fixed_rows(alloc, query, words, settings)? {
        Some(rows) => Ok(Some(reply(alloc, query, rows)?)),
        None => Ok(None),
    }
}

// The messages that answer a query with these rows.
fn reply(alloc: Global, query: Query, mut rows: Vec<Frame>) -> Result<Vec<Frame>, AllocError>
    ensures { IfOk result (λ frames. frames.items ≡ frames_of query rows.items) }
{
    let mut frames = Vec::new(alloc);
    frames.push(description(alloc, query)?)?;
    frames.append(&mut rows)?;
    frames.push(command_complete(alloc)?)?;
    frames.push(ready_for_query(alloc)?)?;
    Ok(frames)
}

// The answer to a text that is no query.
fn refusal(alloc: Global) -> Result<Vec<Frame>, AllocError>
    ensures { IfOk result (λ frames. frames.items ≡ not_in_profile ∷ ready_for_query ∷ []) }
{
    let mut frames = Vec::new(alloc);
    frames.push(not_in_profile(alloc)?)?;
    frames.push(ready_for_query(alloc)?)?;
    Ok(frames)
}

// A query's rows.
fn rows_of<S: Drop>(
    alloc: Global,
    query: Query,
    view: &View<S>,
    words: &[u64; 8],
    settings: &Settings,
) -> Result<Vec<Frame>, AllocError>
    ensures { IfOk result (λ rows. AreRows query view.now words.now settings.now rows.items) }
{
    match query {
        Query::Peers => peer_rows(alloc, settings),
        Query::Links => link_rows(alloc, view, settings),
        Query::Clients => client_rows(alloc, view.clients(), view.claims(), settings),
        Query::Cancels => cancel_rows(alloc, words),
    }
}

// A query's rows, where they aren't of the node's state.
fn fixed_rows(
    alloc: Global,
    query: Query,
    words: &[u64; 8],
    settings: &Settings,
) -> Result<Option<Vec<Frame>>, AllocError>
    ensures rows { IfOk result (λ found. IfSome found
        (λ rows. (view : NodeView) → AreRows query view words.now settings.now rows.items)) }
    ensures none { IfOk result (λ found. IfNone found (shows_node query ≡ true)) }
{
    match query {
        Query::Peers => Ok(Some(peer_rows(alloc, settings)?)),
        Query::Cancels => Ok(Some(cancel_rows(alloc, words)?)),
        Query::Links | Query::Clients => Ok(None),
    }
}
