//! What the next line of a log is.
use crate::tests::host::TestHost;
use std::test::Fail;
use telemetry::Log;

// The next line of a log is this, behind its time.
pub(crate) fn expect_line<R: TestHost>(rt: &R, log: &Log, expected: &str) -> Result<(), Fail> {
    let line = log.next(rt).ok_or("no line")?;
    let (_time, rest) = line.as_str().split_once(' ').ok_or("no time")?;
    assert_eq!(rt; rest, expected);
    Ok(())
}

// The log has no line.
pub(crate) fn expect_no_line<R: TestHost>(rt: &R, log: &Log) -> Result<(), Fail> {
    assert!(rt; log.next(rt).is_none());
    Ok(())
}
