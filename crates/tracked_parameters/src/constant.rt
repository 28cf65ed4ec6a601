//! String constants in the text of a query.
ghost use Rattle.std.specs.Prelude.{◌≡◌, ◌++◌, ◌<◌, ◌||◌, flat_map, OnOk};
ghost use Rattle.tracked_parameters.specs.Stored.{is_mark, is_plain, hex_digit, piece};

use std::alloc::AllocError;

/// Puts what stands for these bytes between the quotes of an `E'..'` constant at the end of the text:
/// letters, digits and some marks stand for themselves, every other byte is escaped.
pub fn push_constant(out: &mut Vec<u8>, value: &[u8]) -> Result<(), AllocError>
    ensures { OnOk result (out.new.items ≡ out.old.items ++ flat_map piece value.now) }
{
    for byte in value {
        push_byte(out, *byte)?;
    }
    Ok(())
}

// Puts what stands for a byte at the end.
#[tactic(auto, unfolding(crate::specs::Stored::piece))]
fn push_byte(out: &mut Vec<u8>, byte: u8) -> Result<(), AllocError>
    ensures { OnOk result (out.new.items ≡ out.old.items ++ piece byte) }
{
    if is_plain(byte) {
        out.push(byte)?;
        return Ok(());
    }
    out.extend_from_slice(&[b'\\', b'x', hex_digit(byte / 16), hex_digit(byte % 16)])
}

// Whether a byte stands for itself. A quote and a backslash don't, nor does any byte that isn't
// ASCII.
fn is_plain(byte: u8) -> bool
    ensures { result ≡ is_plain byte }
{
    byte.is_ascii_alphanumeric() || is_mark(byte)
}

fn is_mark(byte: u8) -> bool
    ensures { result ≡ is_mark byte }
{
    matches!(byte, b' ' | b',' | b'-' | b'.' | b'/' | b':' | b'_')
}

// The hexadecimal digit of a value.
fn hex_digit(value: u8) -> u8
    requires { value < 16 }
    ensures { result ≡ hex_digit value }
{
    if value < 10 {
        b'0' + value
    } else {
        b'a' + (value - 10)
    }
}
