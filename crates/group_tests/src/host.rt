//! The capabilities that tests need.
use sockets::Host;
use std::process::Abort;

// What a test of a group needs.
pub(crate) trait TestHost: Host + Abort + AllocGlobal {}

impl<H: Host + Abort + AllocGlobal> TestHost for H {}
