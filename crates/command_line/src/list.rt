//! Values among the arguments: one text, and items with commas between.
ghost use Rattle.std.specs.Prelude.{◌≡◌, ℕ, List, Option, All, IfOk, map, ⊤};
ghost use Rattle.std.specs.Option.{option_map};
ghost use Rattle.command_line.specs.Finds.{Finds, Reads};
ghost use Rattle.command_line.specs.Numbers.{at_most_one, between_commas, each, only_one};

use crate::wrong::Wrong;
use std::alloc::{AllocError, Global};

/// The one text of a list.
pub fn only_one<'a>(texts: &[&'a str]) -> Result<&'a str, Wrong<'a>>
    ensures { Reads (λ text. text.now) result (only_one (map (λ text. text.now) texts.now)) }
{
    match texts {
        [text] => Ok(*text),
        _ => Err(Wrong::Form),
    }
}

/// The one text of a list, or none.
pub fn at_most_one<'a>(texts: &[&'a str]) -> Result<Option<&'a str>, Wrong<'a>>
    ensures { Reads (option_map (λ text. text.now)) result
        (at_most_one (map (λ text. text.now) texts.now)) }
{
    match texts {
        [] => Ok(None),
        [text] => Ok(Some(*text)),
        _ => Err(Wrong::Form),
    }
}

/// What stands between commas.
pub trait Item: Sized {
    // The item that a text is.
    ghost item_of: { List ℕ → Option Self };

    // What holds of each item.
    ghost holds: { Self → Type 0 } = { λ _. ⊤ };

    /// Reads one item.
    fn read<'a>(text: &'a str) -> Result<Self, Wrong<'a>>
        ensures value { Reads (λ item. item) result (item_of text.now) }
        ensures holds { IfOk result holds };
}

/// The items between the commas of a text, and none where there is no text.
pub fn items<'a, T: Item + Drop>(alloc: Global, text: Option<&'a str>) -> Result<Vec<T>, Wrong<'a>>
    ensures value { Finds (λ found. found.items) result
        (each T.item_of (between_commas (option_map (λ t. t.now) text.entry))) }
    ensures holds { IfOk result (λ found. All T.holds found.items) }
{
    let texts = between_commas(alloc, text)?;
    let mut items = Vec::new(alloc);
    for text in &texts {
        let item = T::read(text)?;
        items.push(item)?;
    }
    Ok(items)
}

// The texts between the commas of a text, and none where there is no text.
fn between_commas(alloc: Global, text: Option<&str>) -> Result<Vec<&str>, AllocError>
    ensures { IfOk result (λ texts. map (λ t. t.now) texts.items
        ≡ between_commas (option_map (λ t. t.now) text.entry)) }
{
    match text {
        Some(text) => text.split(',').collect(alloc),
        None => Ok(Vec::new(alloc)),
    }
}
