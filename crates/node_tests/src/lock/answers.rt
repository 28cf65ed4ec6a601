//! The calls of one caller: replies, counts, and sums of numbers.
ghost use Rattle.std.specs.Prelude.{◌≡◌};

use crate::lock::nodes::{Caller, Journal, Shared, key, node, ordered, stray};
use crate::lock::sums::assert_short;
use locked_node::{CallAnswer, CallKind, Cancel};
use node_core::Exchange;
use pg_ids::AnyKey;
use std::process::Abort;
use std::sync::Wait;
use std::test::Fail;

// The number of a key of peer 2, slot 0 and secret 1 with three hops; a request with it is sent on
// with a key whose number is one less.
const NUMBER: u128 = 0x0008_0000_0000_0007;

// This many requests with that key.
fn request(journal: &mut Journal, count: u32) {
    for _i in 0..count {
        ordered(journal.call(Cancel(key())));
    }
}

// What 5,000 requests sum up to.
const ALL: &[(CallAnswer, &[u128])] = &[(
    CallAnswer::Forwarded,
    &[10000, 5000 * NUMBER, 5000 * NUMBER - 5000],
)];

fn assert_totals(rt: &impl Abort, journal: &Journal) {
    let totals = journal.totals();
    assert_eq!(rt; (journal.calls(), totals.calls(forwarded())), (5000, 5000));
    assert_eq!(rt; journal.tail().count(), 4096);
    assert_short(rt, totals, ALL);
}

// The tail keeps 4,096 calls, and the totals have also those that left it: 5,000 requests for peer
// 2, each sent on with a key that ends in 6 for one that ends in 7.
#[test]
fn trims(rt: HostRuntime) -> Result<(), Fail> {
    let mut journal = node(rt.alloc(), 1)?;
    request(&mut journal, 5000);
    assert_totals(&rt, &journal);
    Ok(())
}

fn forwarded() -> CallKind {
    CallKind::short(CallAnswer::Forwarded)
}

// A new caller has 2^64 calls, which is too few to hand any on. What is handed comes back by a
// join.
fn hand_on(rt: &impl Abort, shared: &Shared, first: &mut Caller) -> Result<(), Fail>
    requires own { first.old.lock ≡ shared.now }
    ensures { first.new.lock ≡ first.old.lock }
{
    let mut part = first.split(shared).ok_or("a second caller")?;
    let allowances = (part.allowance(), first.allowance());
    assert_eq!(rt; allowances, (1 << 64, (1 << 127) - (1 << 64)));
    assert!(rt; part.split(shared).is_none());
    first.join(shared, part);
    assert_eq!(rt; first.allowance(), 1 << 127);
    Ok(())
}

#[test]
fn parts(rt: HostRuntime) -> Result<(), Fail> {
    let (shared, mut first) = Shared::new(rt.alloc(), node(rt.alloc(), 1)?)?;
    hand_on(&rt, &shared, &mut first)?;
    assert_eq!(rt; shared.total_calls(first), 0);
    Ok(())
}

// Two calls by the first caller, and one by the other, which has a part of the first one's.
fn call_by_both<R: Abort + Wait>(rt: &R, shared: &Shared, first: &mut Caller, part: &mut Caller)
    requires own { (first.old.lock ≡ shared.now) × (part.old.lock ≡ shared.now) }
    ensures { part.new.lock ≡ part.old.lock }
{
    ordered(shared.cancel(rt, first, key()));
    ordered(shared.cancel(rt, first, stray()));
    ordered(shared.cancel(rt, part, key()));
    assert_eq!(rt; part.calls(forwarded()), 1);
}

// A caller that hasn't everything back: the total is that of the lock, and neither what this caller
// counted nor what its allowance leaves.
#[test]
fn total_of_others(rt: HostRuntime) -> Result<(), Fail> {
    let (shared, mut first) = Shared::new(rt.alloc(), node(rt.alloc(), 1)?)?;
    let mut part = first.split(&shared).ok_or("a second caller")?;
    call_by_both(&rt, &shared, &mut first, &mut part);
    assert_eq!(rt; shared.total_calls(part), 3);
    Ok(())
}

// The journal has the three calls of both, of which the first was with this key.
fn assert_calls_of_both(rt: &impl Abort, journal: &Journal) {
    assert_eq!(rt; (journal.calls(), journal.tail().count()), (3, 3));
    assert_eq!(rt; oldest(journal), Some(key()));
}

// A caller that hasn't everything back gets the journal too, and that has the calls of all.
#[test]
fn journal_of_others(rt: HostRuntime) -> Result<(), Fail> {
    let (shared, mut first) = Shared::new(rt.alloc(), node(rt.alloc(), 1)?)?;
    let mut part = first.split(&shared).ok_or("a second caller")?;
    call_by_both(&rt, &shared, &mut first, &mut part);
    let journal = shared.into_journal(part).ok_or("a lock that is free")?;
    assert_calls_of_both(&rt, &journal);
    Ok(())
}

// The tail is full, and this is the key of its oldest call.
fn assert_tail(rt: &impl Abort, journal: &Journal, key: AnyKey) {
    assert_eq!(rt;
        (oldest(journal), journal.tail().count()),
        (Some(key), 4096)
    );
}

// The tail has the last 4,096 calls, the oldest first.
#[test]
fn tail(rt: HostRuntime) -> Result<(), Fail> {
    let mut journal = node(rt.alloc(), 1)?;
    ordered(journal.call(Cancel(stray())));
    request(&mut journal, 4095);
    assert_tail(&rt, &journal, stray());
    request(&mut journal, 1);
    assert_tail(&rt, &journal, key());
    Ok(())
}

// The key of the oldest call of the tail, where that is a cancel request.
fn oldest(journal: &Journal) -> Option<AnyKey> {
    asked(&journal.tail().next()?.call)
}

fn asked(call: &Exchange) -> Option<AnyKey> {
    match call {
        Exchange::Cancel(key, _) => Some(*key),
        _ => None,
    }
}
