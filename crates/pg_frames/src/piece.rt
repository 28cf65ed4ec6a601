//! What a frame is handed out as.

/// A part of a frame: its head, then the body in parts, then its tail.
#[derive(Clone, Copy, Debug)]
pub enum Piece<'a> {
    /// The type byte, and the length field, which is 4 more than the body's length.
    Head {
        /// The type byte.
        kind: u8,
        /// The length field.
        length: usize,
    },
    /// The next bytes of the body, at least one.
    Part(&'a [u8]),
    /// The end of the frame.
    Tail,
}
