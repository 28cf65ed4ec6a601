//! Counts of iterations, as digits.
ghost use Rattle.std.specs.Prelude.{◌≡◌, ◌≢◌, ◌↔◌, ◌<◌, ◌^◌, ℕ, Some, IfSome, IfNone, IsTrue};
ghost use Rattle.std.specs.Fmt.{decimal};
ghost use Rattle.scram.specs.Messages.{IsCount};

use itoa::Buffer;

/// The most iterations that are taken from a peer, or done.
pub const MAX_ITERATIONS: u32 = 1_000_000;

/// The count that these digits are, from 1 to a million; there are no zeros before it.
pub fn count_of(digits: &[u8]) -> Option<u32>
    ensures found { IfSome result (λ count. IsCount count × (digits.now ≡ decimal count)) }
    ensures none { IfNone result ((count : ℕ) → IsCount count → digits.now ≢ decimal count) }
{
    let count = number_in(digits)?;
    if is_count(count) && is_decimal_of(digits, count) {
        Some(count)
    } else {
        None
    }
}

// The number that digits are; a `+` or zeros may stand before them.
fn number_in(digits: &[u8]) -> Option<u32>
    ensures { (number : ℕ) → number < 2 ^ 32 → digits.now ≡ decimal number
        → result ≡ Some number }
{
    match str::from_utf8(digits) {
        Ok(text) => text.parse().ok(),
        Err(_) => None,
    }
}

// Whether a count is in range.
const fn is_count(count: u32) -> bool
    ensures { IsTrue result ↔ IsCount count }
{
    1 <= count && count <= MAX_ITERATIONS
}

// Whether the text is how this number is written.
fn is_decimal_of(text: &[u8], number: u32) -> bool
    ensures { IsTrue result ↔ (text.now ≡ decimal number) }
{
    let mut buffer = Buffer::new();
    text == buffer.format(number).as_bytes()
}
