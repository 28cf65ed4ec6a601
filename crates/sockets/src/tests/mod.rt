//! Tests of connections by public names alone.
mod arriving;
mod client_lines;
mod connections;
mod descriptors;
mod dropped;
mod ends;
mod full;
mod host;
mod log_lines;
mod unserved;
