//! Tests by public names alone.
mod board;
mod counts;
mod levels;
mod log_lines;
