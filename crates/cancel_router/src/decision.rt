//! The route of a cancel request.
ghost use Rattle.std.specs.Prelude.{◌≡◌};
ghost use Rattle.cancel_router.specs.Route.{route, served};

use crate::refusal::RouteRefusal;
use crate::table_view::{Standing, TableView};
use pg_ids::{AnyKey, LinkNo, PeerNo, SlotNo};

/// Where a cancel request goes.
#[derive(Clone, Copy, Debug, PartialEq, Eq, Hash)]
pub enum Route {
    /// To this pooler, with this key, of the same kind.
    Forward(PeerNo, AnyKey),
    /// To the server of this link, which the key's client holds.
    Send(LinkNo),
    /// Nowhere: the key's client waits for a link, and is to wait no longer.
    Unwait(SlotNo),
    /// Nowhere.
    Refused(RouteRefusal),
}

/// The route of a request with this key at the pooler `me`, whose list of peers is `peers`
/// (an entry for the pooler itself is ignored).
pub fn decide<T: TableView>(me: PeerNo, table: &T, peers: &[PeerNo], key: AnyKey) -> Route
    ensures { result ≡ route me peers.now (T.slots table.now) (T.standing table.now) key }
{
    let Some(lowered) = key.lower() else {
        return Route::Refused(RouteRefusal::Spent);
    };
    let short = key.short();
    if short.peer == me {
        return match table.find(&key) {
            Some(slot) => at_home(slot, table.standing(slot)),
            None => Route::Refused(RouteRefusal::Unknown),
        };
    }
    if short.hops.get() == 1 {
        return Route::Refused(RouteRefusal::Spent);
    }
    if peers.contains(&short.peer) {
        Route::Forward(short.peer, lowered)
    } else {
        Route::Refused(RouteRefusal::NoPeer)
    }
}

// The route of a request at the pooler that its key names, by how the slot's client stands.
fn at_home(slot: SlotNo, standing: Standing) -> Route
    ensures { result ≡ served slot standing }
{
    match standing {
        Standing::Without => Route::Refused(RouteRefusal::NoLink),
        Standing::Waits => Route::Unwait(slot),
        Standing::Holds(link) => Route::Send(link),
    }
}
