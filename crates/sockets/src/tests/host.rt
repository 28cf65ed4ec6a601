//! What tests of connections need.
use crate::Machine;
use std::alloc::AllocGlobal;
use std::process::Abort;

// An address at which any free port is bound.
pub(crate) const ANY_PORT: &str = "127.0.0.1:0";

// The capabilities.
pub(crate) trait TestHost: Machine + Abort + AllocGlobal {}

impl<M: Machine + Abort + AllocGlobal> TestHost for M {}
