//! Assertions that many tests make.
use std::fmt::Debug;
use std::process::Abort;

// The value found is the one expected.
pub(crate) fn assert_same<T: Copy + Debug + PartialEq>(rt: &impl Abort, found: T, expected: T) {
    assert_eq!(rt; found, expected);
}

// So are these bytes.
pub(crate) fn assert_bytes(rt: &impl Abort, found: &[u8], expected: &[u8]) {
    assert_eq!(rt; found, expected);
}
