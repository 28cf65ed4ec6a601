//! The console's answer as text.
use pg_frames::{Frame, put_frame};
use std::alloc::{AllocError, Global};

/// A line for each message: its type, and the printable bytes of its body. A run of other bytes is
/// one blank.
pub(crate) fn messages(alloc: Global, frames: &[Frame]) -> Result<String, AllocError> {
    let mut text = String::new(alloc);
    for frame in frames {
        text.push_str("\n  ")?;
        text.push(char::from(frame.kind))?;
        put_printable(frame.body.as_slice(), &mut text)?;
    }
    Ok(text)
}

// Appends the printable bytes, and one blank for each run of others.
fn put_printable(bytes: &[u8], text: &mut String) -> Result<(), AllocError> {
    let mut apart = true;
    for byte in bytes {
        if byte.is_ascii_graphic() || *byte == b' ' {
            if apart {
                text.push(' ')?;
            }
            text.push(char::from(*byte))?;
            apart = false;
        } else {
            apart = true;
        }
    }
    Ok(())
}

/// The bytes of all messages, a line for each, in hexadecimal digits.
pub(crate) fn bytes(alloc: Global, frames: &[Frame]) -> Result<String, AllocError> {
    let mut text = String::new(alloc);
    for frame in frames {
        let mut bytes = Vec::new(alloc);
        if put_frame(frame, &mut bytes).is_err() {
            return Err(AllocError);
        }
        let digits = hex::encode(alloc, bytes.as_slice())?;
        write!(&mut text, "\n  {digits}")?;
    }
    Ok(text)
}
