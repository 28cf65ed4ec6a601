//! The faults of settings files, each with a sentence and words on its cause.
ghost use Rattle.std.specs.Prelude.{◌≡◌, ◌++◌, IfOk, codes, string_bytes};
ghost use Rattle.std.specs.Fmt.{decimal};
ghost use Rattle.ini_config.specs.Surveyed.{line_faults_seen, line_fault_seen, subject_seen};
ghost use Rattle.answer.specs.Explained.{GrowsBy, IsTold, TellsEach, TellsFile, entry_words, explained, group_fault_text, group_sentence, line_text, line_words, sentence, whole_code, whole_sentence, whole_text};

use crate::causes::{Reading, line_cause, whole_cause};
use crate::notes::{append_notes, append_told};
use ini_config::{Faults, GroupError, IniCode, LineFault, Subject, WholeFault};
use std::alloc::{AllocError, Global};

/// Appends a line for each fault of a file that has this text, and words on its cause.
pub(crate) fn append_faults(
    alloc: Global,
    file: &str,
    text: &str,
    faults: &Faults<'_>,
    report: &mut String,
) -> Result<(), AllocError>
    ensures { IfOk result (λ _. GrowsBy
        (TellsFile file.now (line_faults_seen faults.now.lines.items) faults.now.whole.items)
        (string_bytes report.old) (string_bytes report.new)) }
{
    append_lines(alloc, file, text, &faults.lines, report)?;
    append_whole(alloc, file, &faults.whole, report)
}

fn append_lines(
    alloc: Global,
    file: &str,
    text: &str,
    faults: &[LineFault<'_>],
    report: &mut String,
) -> Result<(), AllocError>
    ensures { IfOk result (λ _. GrowsBy
        (TellsEach (λ fault. IsTold (line_text file.now fault)) (line_faults_seen faults.now))
        (string_bytes report.old) (string_bytes report.new)) }
{
    let mut reading = Reading::new(text);
    for fault in faults {
        append_line(alloc, file, &mut reading, fault, report)?;
    }
    Ok(())
}

fn append_line(
    alloc: Global,
    file: &str,
    reading: &mut Reading<'_>,
    fault: &LineFault<'_>,
    report: &mut String,
) -> Result<(), AllocError>
    ensures { IfOk result (λ _. GrowsBy (IsTold (line_text file.now (line_fault_seen fault.now)))
        (string_bytes report.old) (string_bytes report.new)) }
{
    let words = line_cause(alloc, reading, fault)?;
    let line = line_text(alloc, file, fault)?;
    append_told(alloc, line.as_str(), words.as_str(), report)
}

fn append_whole(
    alloc: Global,
    file: &str,
    faults: &[WholeFault],
    report: &mut String,
) -> Result<(), AllocError>
    ensures { IfOk result (λ _. GrowsBy
        (TellsEach (λ fault. IsTold (whole_text file.now fault)) faults.now)
        (string_bytes report.old) (string_bytes report.new)) }
{
    for fault in faults {
        append_of_whole(alloc, file, *fault, report)?;
    }
    Ok(())
}

fn append_of_whole(
    alloc: Global,
    file: &str,
    fault: WholeFault,
    report: &mut String,
) -> Result<(), AllocError>
    ensures { IfOk result (λ _. GrowsBy (IsTold (whole_text file.now fault))
        (string_bytes report.old) (string_bytes report.new)) }
{
    let line = whole_text(alloc, file, fault)?;
    append_told(alloc, line.as_str(), whole_cause(fault), report)
}

/// The fault of a group, and words on its cause.
pub(crate) fn group_told_text(
    alloc: Global,
    error: GroupError,
    words: &str,
) -> Result<String, AllocError>
    ensures { IfOk result (λ text. IsTold (group_fault_text error) (string_bytes text)) }
{
    let mut text = group_fault_text(alloc, error)?;
    append_notes(alloc, words, &mut text)?;
    Ok(text)
}

// The fault of a group.
fn group_fault_text(alloc: Global, error: GroupError) -> Result<String, AllocError>
    ensures { IfOk result (λ text. string_bytes text ≡ group_fault_text error) }
{
    let start = group_start(alloc, error.number(), error.name())?;
    sentence_line(alloc, start.as_str(), group_sentence(error))
}

fn group_start(alloc: Global, number: u8, name: &str) -> Result<String, AllocError>
    ensures { IfOk result (λ text. string_bytes text ≡ decimal number ++ codes " " ++ name.now) }
{
    format!(in alloc; "{number} {name}")
}

fn line_text(alloc: Global, file: &str, fault: &LineFault<'_>) -> Result<String, AllocError>
    ensures { IfOk result (λ text. string_bytes text
        ≡ line_text file.now (line_fault_seen fault.now)) }
{
    let words = sentence(alloc, fault.code, fault.subject)?;
    explained(alloc, file, fault.line, fault.code, words.as_str())
}

fn whole_text(alloc: Global, file: &str, fault: WholeFault) -> Result<String, AllocError>
    ensures { IfOk result (λ text. string_bytes text ≡ whole_text file.now fault) }
{
    explained(alloc, file, 0, whole_code(fault), whole_sentence(fault))
}

fn explained(
    alloc: Global,
    file: &str,
    line: usize,
    code: IniCode,
    words: &str,
) -> Result<String, AllocError>
    ensures { IfOk result (λ text. string_bytes text ≡ explained file.now line code words.now) }
{
    let start = line_start(alloc, file, line, code.number(), code.name())?;
    sentence_line(alloc, start.as_str(), words)
}

fn line_start(
    alloc: Global,
    file: &str,
    line: usize,
    number: u8,
    name: &str,
) -> Result<String, AllocError>
    ensures { IfOk result (λ text. string_bytes text ≡ file.now ++ codes ":" ++ decimal line
        ++ codes ": " ++ decimal number ++ codes " " ++ name.now) }
{
    format!(in alloc; "{file}:{line}: {number} {name}")
}

// A line's beginning, and a sentence.
fn sentence_line(alloc: Global, start: &str, words: &str) -> Result<String, AllocError>
    ensures { IfOk result (λ text. string_bytes text
        ≡ start.now ++ codes ": " ++ words.now ++ codes "\n") }
{
    format!(in alloc; "{start}: {words}\n")
}

// The name of what is at fault, and what is wrong with it.
fn sentence(alloc: Global, code: IniCode, subject: Subject<'_>) -> Result<String, AllocError>
    ensures { IfOk result (λ text. string_bytes text ≡ sentence code (subject_seen subject.entry)) }
{
    match subject {
        Subject::Line => line_sentence(alloc, line_words(code)),
        Subject::Section(name) => section_sentence(alloc, name, line_words(code)),
        Subject::Key(name) => named_sentence(alloc, name, line_words(code)),
        Subject::Entry(name) => named_sentence(alloc, name, entry_words(code)),
    }
}

fn line_sentence(alloc: Global, words: &str) -> Result<String, AllocError>
    ensures { IfOk result (λ text. string_bytes text ≡ codes "the line " ++ words.now) }
{
    format!(in alloc; "the line {words}")
}

fn section_sentence(alloc: Global, name: &str, words: &str) -> Result<String, AllocError>
    ensures { IfOk result (λ text. string_bytes text
        ≡ codes "[" ++ name.now ++ codes "] " ++ words.now) }
{
    format!(in alloc; "[{name}] {words}")
}

fn named_sentence(alloc: Global, name: &str, words: &str) -> Result<String, AllocError>
    ensures { IfOk result (λ text. string_bytes text ≡ name.now ++ codes " " ++ words.now) }
{
    format!(in alloc; "{name} {words}")
}

fn line_words(code: IniCode) -> &'static str
    ensures { result.now ≡ line_words code }
{
    match code {
        IniCode::BadLine => "does not have the form KEY = VALUE in a section",
        IniCode::UnknownSection => "is not in this profile",
        IniCode::UnknownKey => "is not in this profile",
        IniCode::BadNumber => "is not a decimal number without leading zeros",
        IniCode::OutOfRange => "is outside its range",
        IniCode::Repeated => "is there for the second time",
        IniCode::Missing => "is required",
        IniCode::NotInProfile => "asks for what is not in this profile",
        IniCode::Memory => "is not read, since memory ran out",
    }
}

fn entry_words(code: IniCode) -> &'static str
    ensures { result.now ≡ entry_words code }
{
    match code {
        IniCode::BadLine => "does not have the form NAME = KEY=VALUE KEY=VALUE ..",
        IniCode::UnknownSection => "is not in this profile",
        IniCode::UnknownKey => "has a pair that is not in this profile",
        IniCode::BadNumber => "has no decimal number where one belongs",
        IniCode::OutOfRange => "has a number outside its range, or is the 65th entry",
        IniCode::Repeated => "is there for the second time, or has a pair twice",
        IniCode::Missing => "lacks a required pair",
        IniCode::NotInProfile => "asks for what is not in this profile",
        IniCode::Memory => "is not read, since memory ran out",
    }
}

fn whole_code(fault: WholeFault) -> IniCode
    ensures { result ≡ whole_code fault }
{
    match fault {
        WholeFault::Links => IniCode::OutOfRange,
        _ => IniCode::Missing,
    }
}

fn whole_sentence(fault: WholeFault) -> &'static str
    ensures { result.now ≡ whole_sentence fault }
{
    match fault {
        WholeFault::PoolMode => "pool_mode is required",
        WholeFault::AuthType => "auth_type is required",
        WholeFault::ListenAddr => "listen_addr is required",
        WholeFault::Links => "the databases have more than 65535 server connections",
    }
}

fn group_sentence(error: GroupError) -> &'static str
    ensures { result.now ≡ group_sentence error }
{
    match error {
        GroupError::SamePeer => "two files have the same peer_id",
        GroupError::MissingPeer => "a file does not list the peer_id of another in [peers]",
        GroupError::NoPeering => "one of several files has no peer_id, or 0",
        GroupError::Memory => "memory ran out",
    }
}
