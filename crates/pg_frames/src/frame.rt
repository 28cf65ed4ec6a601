//! A message after start-up, as data.
use crate::Body;

/// A message after start-up (PostgreSQL manual, "Messaging Overview"). In contracts the body is its
/// bytes.
#[derive(Debug, Drop)]
pub struct Frame {
    /// The type byte.
    pub kind: u8,
    /// What follows the length field.
    pub body: Body,
}
