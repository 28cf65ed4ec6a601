//! What one side of a conversation does.

// What one side does next.
#[derive(Clone, Copy, Debug)]
pub(crate) enum Turn {
    // It takes these bytes, in as many writes as come.
    Takes(&'static [u8]),
    // It takes one write of an ErrorResponse that begins with these fields.
    TakesError(&'static [u8]),
    // It takes one write of this many bytes.
    TakesLength(usize),
    // It gives these bytes at one read.
    Gives(&'static [u8]),
    // A read fails.
    Breaks,
}

// Whether these bytes are an ErrorResponse whose body begins with these fields.
pub(crate) fn is_error(bytes: &[u8], fields: &[u8]) -> bool {
    bytes.len() > 5 && bytes[0] == b'E' && bytes.split_at(5).1.starts_with(fields)
}

// Whether these bytes are the error of out of memory.
pub(crate) fn is_out_of_memory(bytes: &[u8]) -> bool {
    is_error(bytes, b"SFATAL\0VFATAL\0C53200\0")
}
