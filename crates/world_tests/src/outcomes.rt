//! Outcomes: each reply, and other bytes before it.
use crate::schedules::text_alone;
use std::alloc::Global;
use std::process::Abort;
use std::test::Fail;
use world::Took;

mod replies;

// Asserts that this text is appended, where nothing was interrupted.
fn expect_outcome(
    rt: &(impl Abort + Alloc<A = Global>),
    took: &[Took],
    wanted: &str,
) -> Result<(), Fail> {
    let out = text_alone(rt.alloc(), took, Vec::new(rt.alloc()))?;
    assert_eq!(rt; out.as_slice(), wanted.as_bytes(), "{wanted:?}");
    Ok(())
}

#[test]
fn behind_other_bytes(rt: HostRuntime) -> Result<(), Fail> {
    let first = vec![in rt.alloc(); b'a', b'\n']?;
    let out = text_alone(rt.alloc(), &[Took::Skipped], first)?;
    assert_eq!(rt;
        out.as_slice(),
        b"a\n1 skipped\nevents 1 skipped 1 interrupts 0\n".as_slice()
    );
    Ok(())
}
