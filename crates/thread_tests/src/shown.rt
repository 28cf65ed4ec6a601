//! What a client of a node's console sends.

pub(crate) const CONSOLE: &[u8] = b"\0\0\0\x27\0\x03\0\0user\0plain\0database\0pgbouncer\0\0";

pub(crate) const SHOW_CLIENTS: &[u8] = b"Q\0\0\0\x11SHOW CLIENTS\0";
