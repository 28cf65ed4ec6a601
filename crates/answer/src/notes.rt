//! Words on the cause of a fault, as they are written behind its line.
ghost use Rattle.std.specs.Prelude.{◌≡◌, ◌++◌, IfOk, codes, map, string_bytes};
ghost use Rattle.std.specs.Str.Lines.{lines};
ghost use Rattle.answer.specs.Explained.{note_text, notes_text, told_text};

use std::alloc::{AllocError, Global};

/// Appends the line of a fault, and words on its cause.
pub(crate) fn append_told(
    alloc: Global,
    line: &str,
    words: &str,
    report: &mut String,
) -> Result<(), AllocError>
    ensures { IfOk result (λ _. string_bytes report.new
        ≡ string_bytes report.old ++ told_text line.now words.now) }
{
    report.push_str(line)?;
    append_notes(alloc, words, report)
}

/// Appends words, each line of them behind two spaces.
pub(crate) fn append_notes(
    alloc: Global,
    words: &str,
    report: &mut String,
) -> Result<(), AllocError>
    ensures { IfOk result (λ _. string_bytes report.new
        ≡ string_bytes report.old ++ notes_text words.now) }
{
    let lines = lines(alloc, words)?;
    for line in &lines {
        let note = note_text(alloc, line)?;
        report.push_str(note.as_str())?;
    }
    Ok(())
}

fn lines(alloc: Global, text: &str) -> Result<Vec<&str>, AllocError>
    ensures { IfOk result (λ found. map (λ line. line.now) found.items ≡ lines text.now) }
{
    text.lines().collect(alloc)
}

fn note_text(alloc: Global, line: &str) -> Result<String, AllocError>
    ensures { IfOk result (λ text. string_bytes text ≡ note_text line.now) }
{
    format!(in alloc; "  {line}\n")
}
