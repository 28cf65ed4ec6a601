//! The program's answer to its arguments.
ghost use Rattle.std.specs.Prelude.{◌≡◌, ℕ, IfErr, IfOk, Some, [], map, string_bytes, true, false};
ghost use Rattle.std.specs.Io.KnownBytes.{Appends};
ghost use Rattle.pg_ids.specs.AnyKey.{IsAnyKey};
ghost use Rattle.command_line.specs.declared.wrong.Wrong.TheVariants as wrongs;
ghost use Rattle.answer.specs.declared.fault.Fault.TheVariants.{Memory};
ghost use Rattle.answer.specs.Answer.{IsAnswer, IsFault, IsOutput, IsUsage, WritesFault};
ghost use Rattle.answer.specs.Printing.{AppendsPart, IsWritten, Stops, Writes, change};
ghost use Rattle.command_line.specs.Request.{asked, asked_in};
ghost use Rattle.answer.specs.Files.{folder_of};
ghost use Rattle.answer.specs.Statuses.{status_of};
ghost use Rattle.answer.specs.Texts.{fault_text, key_text, part_text};

use crate::check::check_line;
use crate::check_all::check_all_line;
use crate::decide::decide_line;
use crate::fault::Fault;
use crate::opener::Opener;
use crate::outcome::outcome_text;
use crate::output::{Output, is_interrupted};
use command_line::{Request, Wrong, help, help_on_help, usage, version};
use pg_ids::{AnyKey, LongPart};
use std::alloc::{AllocError, Global};
use std::sync::Wait;

/// Writes the answer to these arguments to `out`, or why there is none to `err`, and nothing else.
/// Returns the status that the program ends with: 0 for an answer, 1 for a fault in running, 2 for
/// arguments, settings, a script or a group that are refused. Where memory runs out the fault says
/// so. Where a write fails or takes nothing, or the flush fails, the status is 1.
pub fn answer<R: Wait, O: Opener, W: Output, E: Output>(
    rt: &R,
    alloc: Global,
    arguments: &[&str],
    opener: &O,
    out: &mut W,
    err: &mut E,
) -> u8
    ensures { IsAnswer (folder_of (O.text opener.now) (O.opens opener.now) O.Reader.gave)
        (map (λ argument. argument.now) arguments.now)
        (change W.wrote W.flushed W.holds out.old out.new)
        (change E.wrote E.flushed E.holds err.old err.new)
        result }
{
    match output(rt, alloc, arguments, opener) {
        Ok(text) => write(out, &text, 0),
        Err(fault) => write_fault(alloc, err, &fault),
    }
}

// The text that is the answer, or why there is none.
fn output<R: Wait, O: Opener>(
    rt: &R,
    alloc: Global,
    arguments: &[&str],
    opener: &O,
) -> Result<Vec<u8>, Fault>
    ensures text { IfOk result (λ text. IsOutput
        (folder_of (O.text opener.now) (O.opens opener.now) O.Reader.gave)
        (asked (map (λ argument. argument.now) arguments.now)) text.items) }
    ensures fault { IfErr result (λ fault. IsFault
        (folder_of (O.text opener.now) (O.opens opener.now) O.Reader.gave)
        (asked (map (λ argument. argument.now) arguments.now)) fault) }
{
    match Request::read(alloc, arguments) {
        Ok(request) => output_of(rt, alloc, request, opener),
        Err(wrong) => Err(usage_fault(alloc, arguments, wrong)),
    }
}

/// The fault of arguments that ask for nothing.
pub fn usage_fault<'a>(alloc: Global, arguments: &'a [&'a str], wrong: Wrong<'_>) -> Fault
    ensures usage { IsUsage result }
    ensures memory { wrong.entry ≡ wrongs.Memory → result ≡ Memory }
{
    match usage(alloc, arguments, wrong) {
        Ok(text) => Fault::Usage(text),
        Err(_) => Fault::Memory,
    }
}

// The text that answers a request, or why there is none.
fn output_of<R: Wait, O: Opener>(
    rt: &R,
    alloc: Global,
    request: Request<'_>,
    opener: &O,
) -> Result<Vec<u8>, Fault>
    ensures text { IfOk result (λ text. IsOutput
        (folder_of (O.text opener.now) (O.opens opener.now) O.Reader.gave)
        (Some (asked_in request.entry))
        text.items) }
    ensures fault { IfErr result (λ fault. IsFault
        (folder_of (O.text opener.now) (O.opens opener.now) O.Reader.gave)
        (Some (asked_in request.entry)) fault) }
{
    match request {
        Request::Key(key) => Ok(key_line(alloc, key)?.into_bytes()),
        Request::Decide(request) => Ok(decide_line(rt, alloc, request)?.into_bytes()),
        Request::Check(files) => Ok(check_line(alloc, opener, &files)?.into_bytes()),
        Request::CheckAll(files) => Ok(check_all_line(alloc, opener, &files)?.into_bytes()),
        Request::World(file) => outcome_text(alloc, opener, file),
        Request::Help(topic) => Ok(help(alloc, topic)?.into_bytes()),
        Request::HelpOnHelp => Ok(help_on_help(alloc)?.into_bytes()),
        Request::Version => Ok(version(alloc)?.into_bytes()),
    }
}

// The line that names a key's parts.
fn key_line(alloc: Global, key: AnyKey) -> Result<String, AllocError>
    ensures line { IfOk result (λ line. string_bytes line ≡ key_text key) }
    ensures key { IsAnyKey key }
{
    let part = part_text(alloc, key.long_part())?;
    let short = key.short();
    let peer = short.peer.get();
    let slot = short.slot.get();
    let secret = short.secret.get();
    let hops = short.hops.get();
    let part = part.as_str();
    format!(in alloc; "peer {peer} slot {slot} secret {secret} hops {hops}{part}\n")
}

// What the line of a long key has besides.
fn part_text(alloc: Global, part: Option<LongPart>) -> Result<String, AllocError>
    ensures { IfOk result (λ text. string_bytes text ≡ part_text part) }
{
    let Some(part) = part else {
        return Ok(String::new(alloc));
    };
    let boot = part.boot.get();
    let serial = part.serial.get();
    format!(in alloc; " boot {boot} serial {serial}")
}

/// Writes a fault, and returns its status, or 1 where it can't be written.
pub fn write_fault<W: Output>(alloc: Global, writer: &mut W, fault: &Fault) -> u8
    ensures { WritesFault fault.now
        (change W.wrote W.flushed W.holds writer.old writer.new) result }
{
    match fault.text(alloc) {
        Ok(text) => write(writer, text.as_bytes(), fault.status()),
        Err(_) => write(writer, b"out of memory\n", 1),
    }
}

// Writes and flushes the text. Returns the status, or 1 where that fails.
fn write<W: Output>(writer: &mut W, text: &[u8], status: u8) -> u8
    ensures { IsWritten (change W.wrote W.flushed W.holds writer.old writer.new)
        text.now status result }
{
    if !write_whole(writer, text) {
        return 1;
    }
    match writer.flush_once() {
        Ok(()) => status,
        Err(_) => 1,
    }
}

// Whether all bytes were written. Otherwise a beginning of them was.
fn write_whole<W: Output>(writer: &mut W, bytes: &[u8]) -> bool
    ensures whole { result ≡ true → Appends (W.holds writer.old) (W.holds writer.new) bytes.now }
    ensures part { AppendsPart (W.holds writer.old) (W.holds writer.new) bytes.now }
    ensures writes { result ≡ true → (count : ℕ)
        × Writes (change W.wrote W.flushed W.holds writer.old writer.new) bytes.now [] count }
    ensures stops { result ≡ false
        → Stops (change W.wrote W.flushed W.holds writer.old writer.new) bytes.now }
{
    let mut taken = 0;
    for _ in 0..u64::MAX {
        if taken >= bytes.len() {
            return true;
        }
        match writer.write_once(bytes.split_at(taken).1) {
            Ok(count) => {
                if count == 0 {
                    return false;
                }
                taken += count;
            }
            Err(error) => {
                if !is_interrupted(&error) {
                    return false;
                }
            }
        }
    }
    false
}
