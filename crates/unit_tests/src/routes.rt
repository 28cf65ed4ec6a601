//! Each line of the route, at a pooler of which one client holds a link and one waits.
use crate::checks::assert_same;
use cancel_router::{Route, RouteRefusal, Standing, TableView, decide};
use key_table::KeyTable;
use pg_ids::{AnyKey, Boot, LinkNo, LongPart, PeerNo, Secret, Serial, SlotNo};
use std::test::Fail;

// A pooler of which the client of slot 0 holds link 9, and that of slot 2 waits for one.
#[derive(Drop)]
struct Pooler {
    keys: KeyTable,
}

impl TableView for Pooler {
    ghost use Rattle.std.specs.Prelude.{if◌then◌else◌, ◌==◌};
    ghost use Rattle.cancel_router.specs.declared.table_view.Standing.TheVariants.{Without};
    ghost use Rattle.cancel_router.specs.declared.table_view.Standing.TheVariants.{Waits, Holds};

    ghost slots = { λ p. p.keys };

    ghost standing = { λ _ slot.
        if slot == 0 then Holds 9 else (if slot == 2 then Waits else Without) };

    fn find(&self, key: &AnyKey) -> Option<SlotNo> {
        self.keys.find(key)
    }

    fn standing(&self, slot: SlotNo) -> Standing {
        match slot.get() {
            0 => Standing::Holds(LinkNo(9)),
            2 => Standing::Waits,
            _ => Standing::Without,
        }
    }
}

#[test]
fn each_line(rt: HostRuntime) -> Result<(), Fail> {
    let me = PeerNo::new(2).ok_or("no peer 2")?;
    let other = PeerNo::new(1).ok_or("no peer 1")?;
    let mut keys = KeyTable::new(rt.alloc(), me, 3)?;
    keys.issue(Secret(1), None)?;
    keys.issue(Secret(5), None)?;
    keys.issue(Secret(9), None)?;
    let pooler = Pooler { keys };
    let peers = [me, other];
    let refused = Route::Refused;
    for (bytes, route) in [
        ([0, 8, 0, 0, 0, 0, 0, 4], refused(RouteRefusal::Spent)),
        ([0, 4, 0, 0, 0, 0, 0, 4], refused(RouteRefusal::Spent)),
        ([0, 4, 0, 0, 0, 0, 0, 5], refused(RouteRefusal::Spent)),
        ([0, 12, 0, 0, 0, 0, 0, 5], refused(RouteRefusal::Spent)),
        ([0, 12, 0, 0, 0, 0, 0, 7], refused(RouteRefusal::NoPeer)),
        ([0, 8, 0, 0, 0, 0, 0, 0x0b], refused(RouteRefusal::Unknown)),
        ([0, 8, 0, 12, 0, 0, 0, 7], refused(RouteRefusal::Unknown)),
        ([0, 8, 0, 8, 0, 0, 0, 0x27], Route::Unwait(SlotNo(2))),
        ([0, 8, 0, 4, 0, 0, 0, 0x17], refused(RouteRefusal::NoLink)),
        ([0, 8, 0, 0, 0, 0, 0, 5], Route::Send(LinkNo(9))),
        ([0, 8, 0, 0, 0, 0, 0, 7], Route::Send(LinkNo(9))),
    ] {
        let key = AnyKey::from_short_bytes(bytes);
        let found = decide(me, &pooler, &peers, key);
        assert_same(&rt, (bytes, found), (bytes, route));
    }
    for (last, lowered) in [(7, 6), (6, 5)] {
        let key = AnyKey::from_short_bytes([0, 4, 0, 0, 0, 0, 0, last]);
        let forward = AnyKey::from_short_bytes([0, 4, 0, 0, 0, 0, 0, lowered]);
        assert_same(
            &rt,
            decide(me, &pooler, &peers, key),
            Route::Forward(other, forward),
        );
    }
    Ok(())
}

#[test]
fn no_links(rt: HostRuntime) -> Result<(), Fail> {
    let me = PeerNo::new(2).ok_or("no peer 2")?;
    let mut keys = KeyTable::new(rt.alloc(), me, 1)?;
    let key = keys.issue(Secret(1), None)?;
    let no_link = Route::Refused(RouteRefusal::NoLink);
    assert_same(&rt, decide(me, &keys, &[], key), no_link);
    Ok(())
}

// The bytes of a long key by the first and the last of its first eight; boot and serial are 0.
fn long_key(first: [u8; 2], last: u8) -> AnyKey {
    let mut bytes = [0; 24];
    bytes[..2].copy_from_slice(&first);
    bytes[7] = last;
    AnyKey::from_long_bytes(bytes)
}

#[test]
fn long_keys(rt: HostRuntime) -> Result<(), Fail> {
    let me = PeerNo::new(2).ok_or("no peer 2")?;
    let other = PeerNo::new(1).ok_or("no peer 1")?;
    let mut keys = KeyTable::new(rt.alloc(), me, 3)?;
    let part = LongPart::new(Boot(0), Serial(0));
    assert_same(&rt, keys.issue(Secret(1), Some(part))?, long_key([0, 8], 7));
    keys.issue(Secret(1), None)?;
    let home = Pooler { keys };
    let away = KeyTable::new(rt.alloc(), other, 1)?;

    // Forwards keep the kind, and lower the eighth byte alone.
    let forward = Route::Forward(me, long_key([0, 8], 6));
    assert_same(
        &rt,
        decide(other, &away, &[me], long_key([0, 8], 7)),
        forward,
    );
    assert_same(
        &rt,
        decide(me, &home, &[other], long_key([0, 8], 6)),
        Route::Send(LinkNo(9)),
    );

    // A short request never finds a long key, nor a long one a short key.
    let unknown = Route::Refused(RouteRefusal::Unknown);
    let short = AnyKey::from_short_bytes([0, 8, 0, 0, 0, 0, 0, 7]);
    assert_same(&rt, decide(me, &home, &[other], short), unknown);
    let mut second = [0; 24];
    second[..8].copy_from_slice(&[0, 8, 0, 4, 0, 0, 0, 7]);
    assert_same(
        &rt,
        decide(me, &home, &[other], AnyKey::from_long_bytes(second)),
        unknown,
    );
    Ok(())
}
