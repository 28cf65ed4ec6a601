//! The table over a few logins.
ghost use Rattle.std.specs.Prelude.{◌≤◌};

use crate::checks::assert_same;
use key_table::{Full, KeyTable};
use pg_ids::{AnyKey, Boot, LongPart, PeerNo, Secret, Serial, SlotNo};
use std::alloc::Global;
use std::process::Abort;
use std::test::Fail;

// An empty table.
fn table_of(alloc: Global, peer: u16, limit: u32) -> Result<KeyTable, Fail>
    requires some { 1 ≤ limit }
    requires within { limit ≤ 65536 }
{
    let peer = PeerNo::new(peer).ok_or("no such peer")?;
    Ok(KeyTable::new(alloc, peer, limit)?)
}

// The key names this slot, or none.
fn assert_finds(rt: &impl Abort, table: &KeyTable, key: &AnyKey, slot: Option<SlotNo>) {
    assert_same(rt, table.find(key), slot);
}

// The next login gets this slot, or none.
fn assert_next(rt: &impl Abort, table: &KeyTable, slot: Option<SlotNo>) {
    assert_same(rt, table.next_slot(), slot);
}

// The key issued is this one.
fn assert_key(rt: &impl Abort, key: AnyKey, expected: AnyKey) {
    assert_same(rt, key, expected);
}

// No further slot is free.
fn assert_full(rt: &impl Abort, table: &mut KeyTable, secret: Secret) {
    assert_same(rt, table.issue(secret, None), Err(Full));
}

// A table of peer 2 whose first two slots are live, with secrets 1 and 5, and their keys.
fn two_live(alloc: Global, limit: u32) -> Result<(KeyTable, AnyKey, AnyKey), Fail>
    requires some { 1 ≤ limit }
    requires within { limit ≤ 65536 }
{
    let mut table = table_of(alloc, 2, limit)?;
    let first = table.issue(Secret(1), None)?;
    let second = table.issue(Secret(5), None)?;
    Ok((table, first, second))
}

#[test]
fn logins(rt: HostRuntime) -> Result<(), Fail> {
    let (mut table, first, second) = two_live(rt.alloc(), 2)?;
    assert_key(
        &rt,
        first,
        AnyKey::from_short_bytes([0, 8, 0, 0, 0, 0, 0, 7]),
    );
    assert_key(
        &rt,
        second,
        AnyKey::from_short_bytes([0, 8, 0, 4, 0, 0, 0, 0x17]),
    );
    assert_next(&rt, &table, None);
    assert_full(&rt, &mut table, Secret(9));
    assert_finds(&rt, &table, &first, Some(SlotNo(0)));
    assert_finds(&rt, &table, &second, Some(SlotNo(1)));

    // Another secret, another slot, another peer; other hops are no matter.
    for bytes in [
        [0, 8, 0, 0, 0, 0, 0, 0x0b],
        [0, 8, 0, 4, 0, 0, 0, 7],
        [0, 8, 0, 8, 0, 0, 0, 7],
        [0, 4, 0, 0, 0, 0, 0, 7],
    ] {
        assert_finds(&rt, &table, &AnyKey::from_short_bytes(bytes), None);
    }
    let spent = AnyKey::from_short_bytes([0, 8, 0, 0, 0, 0, 0, 4]);
    assert_finds(&rt, &table, &spent, Some(SlotNo(0)));
    Ok(())
}

#[test]
fn cleared(rt: HostRuntime) -> Result<(), Fail> {
    let (mut table, first, second) = two_live(rt.alloc(), 3)?;
    table.clear();
    assert_finds(&rt, &table, &first, None);
    assert_finds(&rt, &table, &second, None);
    assert_same(&rt, table.issue(Secret(2), None)?.short().slot, SlotNo(0));
    assert_same(&rt, table.issue(Secret(3), None)?.short().slot, SlotNo(1));
    assert_next(&rt, &table, Some(SlotNo(2)));
    Ok(())
}

#[test]
fn retired(rt: HostRuntime) -> Result<(), Fail> {
    let mut table = table_of(rt.alloc(), 0, 1)?;
    assert_next(&rt, &table, Some(SlotNo(0)));
    let key = table.issue(Secret(7), None)?;
    table.retire(key.short().slot);
    assert_finds(&rt, &table, &key, None);
    assert_next(&rt, &table, Some(SlotNo(0)));
    Ok(())
}

#[test]
fn given_again(rt: HostRuntime) -> Result<(), Fail> {
    let mut table = table_of(rt.alloc(), 0, 1)?;
    let key = table.issue(Secret(7), None)?;
    table.retire(key.short().slot);
    let again = table.issue(Secret(8), None)?;
    assert_finds(&rt, &table, &again, Some(SlotNo(0)));
    assert_finds(&rt, &table, &key, None);
    Ok(())
}

#[test]
fn each_slot_once(rt: HostRuntime) -> Result<(), Fail> {
    let (mut table, first, second) = two_live(rt.alloc(), 3)?;
    let third = table.issue(Secret(6), None)?;
    assert_full(&rt, &mut table, Secret(7));
    assert_finds(&rt, &table, &first, Some(SlotNo(0)));
    assert_finds(&rt, &table, &second, Some(SlotNo(1)));
    assert_finds(&rt, &table, &third, Some(SlotNo(2)));
    Ok(())
}

#[test]
fn largest(rt: HostRuntime) -> Result<(), Fail> {
    let (mut table, first, second) = two_live(rt.alloc(), 65_536)?;
    assert_next(&rt, &table, Some(SlotNo(2)));
    table.clear();
    assert_same(&rt, table.find(&first), table.find(&second));
    assert_next(&rt, &table, Some(SlotNo(0)));
    Ok(())
}

// The bytes of a long key of peer 2, slot 0, secret 1, by its boot and serial, both below 256.
const fn long_bytes(boot: u8, serial: u8) -> [u8; 24] {
    [
        0, 8, 0, 0, 0, 0, 0, 7, 0, 0, 0, 0, 0, 0, 0, boot, 0, 0, 0, 0, 0, 0, 0, serial,
    ]
}

#[test]
fn long_keys(rt: HostRuntime) -> Result<(), Fail> {
    let mut table = table_of(rt.alloc(), 2, 2)?;
    let part = LongPart::new(Boot(3), Serial(4));
    let key = table.issue(Secret(1), Some(part))?;
    assert_key(&rt, key, AnyKey::from_long_bytes(long_bytes(3, 4)));
    assert_finds(&rt, &table, &key, Some(SlotNo(0)));

    // Another boot, another serial, a short key.
    for other in [long_bytes(2, 4), long_bytes(3, 5)] {
        assert_finds(&rt, &table, &AnyKey::from_long_bytes(other), None);
    }
    let short = AnyKey::from_short_bytes([0, 8, 0, 0, 0, 0, 0, 7]);
    assert_finds(&rt, &table, &short, None);
    Ok(())
}

// A slot whose key was long gets a short one, and the long one names it no more.
#[test]
fn one_slot_with_keys_of_both_kinds(rt: HostRuntime) -> Result<(), Fail> {
    let mut table = table_of(rt.alloc(), 2, 1)?;
    let long = table.issue(Secret(1), Some(LongPart::new(Boot(3), Serial(4))))?;
    table.retire(long.slot());
    let short = table.issue(Secret(1), None)?;
    assert_finds(&rt, &table, &short, Some(SlotNo(0)));
    assert_finds(&rt, &table, &long, None);
    Ok(())
}
