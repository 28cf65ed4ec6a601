//! Replies of the admin console.
ghost use Rattle.std.specs.Prelude.{◌≡◌, ℕ, List, slice_get, IfOk, IfSome, IfNone};
ghost use Rattle.std.specs.Arc.{arc_value};
ghost use Rattle.std.specs.Option.{ForSome};
ghost use Rattle.pg_frames.specs.FrameText.{texts as texts_of};
ghost use Rattle.node_threads.specs.ConsoleSession.{IsTextOf, IsReadAs, IsReply};

use crate::{Link, Node};
use console::{rows, rows_without_view};
use locked_node::Caller;
use pg_frames::{Frame, put_frame};
use std::alloc::{AllocError, Global};
use std::sync::Wait;

/// The text of a query with this body: one that isn't UTF-8 is as little a query as an empty one.
pub(crate) fn query_of(body: &[u8]) -> Option<&str>
    ensures some { IfSome result (λ read. (query : List ℕ)
        × IsTextOf body.now query × IsReadAs query read.now) }
    ensures none { IfNone result ((query : List ℕ) → IsTextOf body.now query → ⊥) }
{
    let (last, text) = body.split_last()?;
    if *last != 0 || text.contains(&0) {
        return None;
    }
    match std::str::from_utf8(text) {
        Ok(query) => Some(query),
        Err(_) => Some(""),
    }
}

/// The messages that answer a query's text. The node is copied only for those that show it, after
/// its clients have asked for the links that they wait for: so each is shown as waiting that is.
pub(crate) fn reply<R: Wait, L: Drop>(
    rt: &R,
    alloc: Global,
    node: &Node<L>,
    caller: &mut Caller<Link<L>>,
    query: &str,
) -> Result<Vec<Frame>, AllocError>
    requires own { caller.old.lock ≡ node.now.shared }
    ensures same { caller.new ≡ caller.old }
    ensures reply { IfOk result (λ frames. ForSome
        (slice_get (arc_value node.now.group) node.now.place)
        (λ settings. IsReply settings caller.old query.now frames.items)) }
{
    let words = node.seats.words(rt);
    if let Some(frames) = rows_without_view(alloc, query, &words, node.settings())? {
        return Ok(frames);
    }
    node.admission.tell_all_to_ask(rt);
    let view = node.shared.copy_view(rt, alloc, caller)?;
    rows(alloc, query, &view, &words, node.settings())
}

/// The texts of these messages, joined.
pub(crate) fn texts(alloc: Global, frames: &[Frame]) -> Result<Vec<u8>, AllocError>
    ensures { IfOk result (λ bytes. bytes.items ≡ texts_of frames.now) }
{
    let mut bytes = Vec::new(alloc);
    for frame in frames {
        let Ok(()) = put_frame(frame, &mut bytes) else {
            return Err(AllocError);
        };
    }
    Ok(bytes)
}
