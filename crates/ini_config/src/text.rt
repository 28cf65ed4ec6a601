//! Blanks, words and numbers of a settings text.
ghost use Rattle.std.specs.Prelude.{◌≡◌, ◌<◌, ◌≤◌, [], ◌∷◌, length, not, ◌||◌, ◌==◌, MatchOption, IfSome, IfOk, position, IsTrue, ◌^◌, ◌+◌};
ghost use Rattle.std.specs.List.{list_all};
ghost use Rattle.std.specs.Char.{is_ascii_digit};
ghost use Rattle.std.specs.Option.{SomeIff};
ghost use Rattle.std.specs.Str.Parse.{digits_value};
ghost use Rattle.ini_config.specs.Text.{is_blank, trim_front, trim_back, trimmed, words, number_in, is_number, is_digits, cut_at_equals, pair_of};
ghost use Rattle.ini_config.specs.Reads.{Answers};

use crate::fault::IniCode;

fn is_blank(byte: u8) -> bool
    ensures { result ≡ is_blank byte }
{
    byte == b' ' || byte == b'\t'
}

/// The text without spaces and tabs at both ends.
pub fn trimmed(text: &str) -> &str
    ensures { result.now ≡ trimmed text.now }
{
    trim_back(trim_front(text))
}

fn trim_front(text: &str) -> &str
    ensures { result.now ≡ trim_front text.now }
{
    let mut rest = text;
    while let Some(shorter) = without_first_blank(rest) {
        rest = shorter;
    }
    rest
}

fn without_first_blank(text: &str) -> Option<&str>
    ensures blank { MatchOption result (trim_front text.now ≡ text.now)
        (λ rest. trim_front text.now ≡ trim_front rest.now) }
    ensures shorter { IfSome result (λ rest. length rest.now < length text.now) }
{
    match text.strip_prefix(' ') {
        Some(rest) => Some(rest),
        None => text.strip_prefix('\t'),
    }
}

fn trim_back(text: &str) -> &str
    ensures { result.now ≡ trim_back text.now }
{
    let mut rest = text;
    while let Some(shorter) = without_last_blank(rest) {
        rest = shorter;
    }
    rest
}

fn without_last_blank(text: &str) -> Option<&str>
    ensures blank { MatchOption result (trim_back text.now ≡ text.now)
        (λ rest. trim_back text.now ≡ trim_back rest.now) }
    ensures shorter { IfSome result (λ rest. length rest.now < length text.now) }
{
    match text.strip_suffix(' ') {
        Some(rest) => Some(rest),
        None => text.strip_suffix('\t'),
    }
}

/// The first word of the text and what follows it.
pub(crate) fn next_word(text: &str) -> Option<(&str, &str)>
    ensures words { MatchOption result (words text.now ≡ [])
        (λ cut. words text.now ≡ cut.0.now ∷ words cut.1.now) }
    ensures shorter { IfSome result (λ cut. length cut.1.now < length text.now) }
{
    let text = trim_front(text);
    if text.is_empty() {
        return None;
    }
    match blank_place(text.as_bytes()) {
        Some(place) => Some(text.split_at(place)),
        None => Some((text, "")),
    }
}

fn blank_place(bytes: &[u8]) -> Option<usize>
    ensures { result ≡ position is_blank bytes.now }
{
    bytes.iter().position(|byte| is_blank(*byte))
}

fn is_number(text: &str) -> bool
    ensures { result ≡ is_number text.now }
{
    is_digits(text) && !(text.as_bytes()[0] == b'0' && text.len() > 1)
}

/// Whether the text is one decimal digit or more.
pub fn is_digits(text: &str) -> bool
    ensures { result ≡ is_digits text.now }
{
    !text.is_empty() && all_digits(text.as_bytes())
}

fn all_digits(bytes: &[u8]) -> bool
    ensures { result ≡ list_all is_ascii_digit bytes.now }
{
    bytes.iter().all(u8::is_ascii_digit)
}

/// The value of decimal digits, if it is below 2^32. Zeros may lead.
pub fn value_of(digits: &str) -> Option<u32>
    requires { IsTrue (is_digits digits.now) }
    ensures { SomeIff result (digits_value 10 digits.now < 2 ^ 32) (digits_value 10 digits.now) }
{
    digits.parse().ok()
}

/// Parses a number from `low` to `high`: decimal digits, without leading zeros. Fails with
/// `BadNumber` for a text that is no number, and with `OutOfRange` for any other number.
#[tactic(auto, unfolding(crate::specs::Text::number_in))]
pub fn number_in(low: u32, high: u32, text: &str) -> Result<u32, IniCode>
    ensures value { result ≡ number_in low high text.now }
    ensures range { IfOk result (λ n. (low ≤ n) × (n ≤ high)) }
{
    if !is_number(text) {
        return Err(IniCode::BadNumber);
    }
    match value_of(text) {
        Some(number) if low <= number && number <= high => Ok(number),
        _ => Err(IniCode::OutOfRange),
    }
}

/// The text before the first `=`, and the text after it.
pub(crate) fn cut_at_equals(text: &str) -> Result<(&str, &str), IniCode>
    ensures { Answers (λ cut. (cut.0.now, cut.1.now)) result (cut_at_equals text.now) }
{
    text.split_once('=').ok_or(IniCode::BadLine)
}

/// A name and a value, neither empty.
#[tactic(auto, unfolding(crate::specs::Text::pair_of))]
pub(crate) fn pair_of<'a>(name: &'a str, value: &'a str) -> Result<(&'a str, &'a str), IniCode>
    ensures { Answers (λ pair. (pair.0.now, pair.1.now)) result
        (pair_of name.entry.now value.entry.now) }
{
    if name.is_empty() || value.is_empty() {
        return Err(IniCode::BadLine);
    }
    Ok((name, value))
}
