//! The tickets of a link, one after the other, up to as many as may be open.
use crate::checks::assert_same;
use quarantine::{Busy, Hold, HoldState, MAX_OPEN_TICKETS};
use std::process::Abort;

// The link is held so, and has this many open tickets.
fn assert_hold(rt: &impl Abort, hold: &Hold, state: HoldState, tickets: u16) {
    assert_same(rt, hold.state(), state);
    assert_same(rt, hold.tickets(), tickets);
}

#[test]
fn three_tickets(rt: HostRuntime) -> Result<(), Busy> {
    let mut hold = Hold::new();
    assert_same(&rt, hold.state(), HoldState::Clear);
    for n in 1..4 {
        hold.open_ticket()?;
        assert_hold(&rt, &hold, HoldState::Waiting(n), n);
    }
    for left in [
        HoldState::Waiting(2),
        HoldState::Waiting(1),
        HoldState::Clear,
    ] {
        assert!(rt; hold.tickets() > 0);
        hold.clean_end();
        assert_same(&rt, hold.state(), left);
    }
    assert_same(&rt, hold, Hold::default());
    Ok(())
}

#[test]
fn a_ticket_that_failed(rt: HostRuntime) -> Result<(), Busy> {
    let mut hold = Hold::new();
    hold.open_ticket()?;
    hold.open_ticket()?;
    hold.fail();
    assert_hold(&rt, &hold, HoldState::Condemned, 1);
    hold.open_ticket()?;
    assert_hold(&rt, &hold, HoldState::Condemned, 2);
    hold.clean_end();
    hold.clean_end();
    assert_hold(&rt, &hold, HoldState::Condemned, 0);
    Ok(())
}

#[test]
fn as_many_as_may_be_open(rt: HostRuntime) -> Result<(), Busy> {
    let mut hold = Hold::new();
    for _ in 0..65_535 {
        hold.open_ticket()?;
    }
    assert_same(&rt, hold.tickets(), MAX_OPEN_TICKETS);
    let full = hold;
    assert_same(&rt, hold.open_ticket(), Err(Busy));
    assert_same(&rt, hold, full);
    assert!(rt; hold.tickets() > 0);
    hold.clean_end();
    assert_same(&rt, hold.open_ticket(), Ok(()));
    Ok(())
}
