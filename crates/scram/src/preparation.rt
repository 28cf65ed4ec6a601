//! Passwords, prepared by SASLprep.
ghost use Rattle.std.specs.Prelude.{◌≡◌, ◌<◌, chars, encode_utf8_all, length, IfOk};
ghost use Rattle.std.specs.List.{filter_map, list_any};
ghost use Rattle.scram.specs.Prepare.{IsPrepared, is_in, is_left_to_right, is_mixed, is_nothing, is_prohibited, is_refused, is_refused_char, is_right_to_left, is_space, is_unassigned, mapped_char as mapped, normalized as normalized_of};

use crate::tables::{LEFT_TO_RIGHT, NOTHING, PROHIBITED, RIGHT_TO_LEFT, SPACES, UNASSIGNED};
use std::alloc::{AllocError, Global};
use std::str;
use unicode_normalization::slice::extend_nfkc;

/// The password as PostgreSQL prepares it. One that is ASCII stays as it is, and so does one that is
/// no UTF-8, or that SASLprep refuses.
pub fn prepare(alloc: Global, password: &[u8]) -> Result<Vec<u8>, AllocError>
    ensures { IfOk result (λ prepared. IsPrepared password.now prepared.items) }
{
    if password.is_ascii() {
        return Vec::from_slice(alloc, password);
    }
    let Ok(text) = str::from_utf8(password) else {
        return Vec::from_slice(alloc, password);
    };
    let characters = normalized(alloc, text)?;
    if refuses(&characters) {
        return Vec::from_slice(alloc, password);
    }
    encoded(alloc, &characters)
}

// The text, mapped and normalized.
fn normalized(alloc: Global, text: &str) -> Result<Vec<char>, AllocError>
    ensures { IfOk result (λ characters. characters.items ≡ normalized_of (chars text.now)) }
{
    let all = characters_of(alloc, text)?;
    let kept = mapped_all(alloc, &all)?;
    let mut characters = Vec::new(alloc);
    extend_nfkc(&mut characters, &kept)?;
    Ok(characters)
}

// The characters of a text.
fn characters_of(alloc: Global, text: &str) -> Result<Vec<char>, AllocError>
    ensures { IfOk result (λ characters. characters.items ≡ chars text.now) }
{
    text.chars().collect(alloc)
}

// What characters are mapped to.
fn mapped_all(alloc: Global, characters: &[char]) -> Result<Vec<char>, AllocError>
    ensures { IfOk result (λ kept. kept.items ≡ filter_map mapped characters.now) }
{
    characters
        .iter()
        .filter_map(|c| mapped_char(*c))
        .collect(alloc)
}

// What a character is mapped to.
fn mapped_char(c: char) -> Option<char>
    ensures { result ≡ mapped c }
{
    if is_space_at(c) {
        Some(' ')
    } else if is_nothing_at(c) {
        None
    } else {
        Some(c)
    }
}

// Whether the profile refuses these characters.
fn refuses(characters: &[char]) -> bool
    ensures { result ≡ is_refused characters.now }
{
    if characters.is_empty() {
        return true;
    }
    if has_refused(characters) {
        return true;
    }
    mixes(characters)
}

// Whether the directions of these characters don't fit together.
fn mixes(characters: &[char]) -> bool
    requires { 0 < length characters.now }
    ensures { result ≡ is_mixed characters.now }
{
    let has_right = has_right_to_left(characters);
    let has_left = has_left_to_right(characters);
    let begins = is_right_to_left_at(characters[0]);
    let ends = is_right_to_left_at(characters[characters.len() - 1]);
    has_right && (has_left || !begins || !ends)
}

fn has_refused(characters: &[char]) -> bool
    ensures { result ≡ list_any is_refused_char characters.now }
{
    characters.iter().any(|c| is_refused_at(*c))
}

fn has_right_to_left(characters: &[char]) -> bool
    ensures { result ≡ list_any is_right_to_left characters.now }
{
    characters.iter().any(|c| is_right_to_left_at(*c))
}

fn has_left_to_right(characters: &[char]) -> bool
    ensures { result ≡ list_any is_left_to_right characters.now }
{
    characters.iter().any(|c| is_left_to_right_at(*c))
}

// The characters as UTF-8.
fn encoded(alloc: Global, characters: &[char]) -> Result<Vec<u8>, AllocError>
    ensures { IfOk result (λ bytes. bytes.items ≡ encode_utf8_all characters.now) }
{
    let mut text = String::new(alloc);
    for c in characters {
        text.push(*c)?;
    }
    Ok(text.into_bytes())
}

// Whether a code point is in the table of these edges.
fn is_within(table: &[u32], c: char) -> bool
    ensures { result ≡ is_in table.now c }
{
    table.iter().filter(|edge| **edge <= c as u32).count() % 2 == 1
}

fn is_refused_at(c: char) -> bool
    ensures { result ≡ is_refused_char c }
{
    is_prohibited_at(c) || is_unassigned_at(c)
}

fn is_space_at(c: char) -> bool
    ensures { result ≡ is_space c }
{
    is_within(&SPACES, c)
}

fn is_nothing_at(c: char) -> bool
    ensures { result ≡ is_nothing c }
{
    is_within(&NOTHING, c)
}

fn is_prohibited_at(c: char) -> bool
    ensures { result ≡ is_prohibited c }
{
    is_within(&PROHIBITED, c)
}

fn is_unassigned_at(c: char) -> bool
    ensures { result ≡ is_unassigned c }
{
    is_within(&UNASSIGNED, c)
}

fn is_right_to_left_at(c: char) -> bool
    ensures { result ≡ is_right_to_left c }
{
    is_within(&RIGHT_TO_LEFT, c)
}

fn is_left_to_right_at(c: char) -> bool
    ensures { result ≡ is_left_to_right c }
{
    is_within(&LEFT_TO_RIGHT, c)
}
