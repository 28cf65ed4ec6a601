//! The texts of files, and the fault of a file that has none.
ghost use Rattle.std.specs.Prelude.{◌≡◌, ◌≢◌, ◌⊎◌, IfErr, IfOk, IfSome, String, string_bytes};
ghost use Rattle.std.specs.IoError.{error_kind};
ghost use Rattle.std.specs.declared.io.ErrorKind.TheVariants.{OutOfMemory};
ghost use Rattle.answer.specs.Reading.{Unreadable};
ghost use Rattle.answer.specs.ReadingFaults.{CannotRead, HasNoText, HasRead, IsUnread};
ghost use Rattle.answer.specs.declared.file_text.NoText.TheVariants.{Memory, Failed};

use crate::fault::Fault;
use crate::input::Input;
use crate::opener::Opener;
use crate::output::is_interrupted;
use std::alloc::{AllocError, Global};
use std::io::{Error, ErrorKind};

/// Why a file has no text.
#[derive(Debug, Drop)]
pub(crate) enum NoText {
    /// Memory ran out.
    Memory,
    /// It can't be opened, or a read of it failed.
    Failed(Error),
    /// It isn't UTF-8.
    NotUtf8,
}

// How many bytes are read at a time.
const CHUNK: usize = 4096;

/// What the file holds. Fails if it can't be opened or read, and if it isn't UTF-8.
pub(crate) fn file_text<O: Opener>(alloc: Global, opener: &O, file: &str) -> Result<String, NoText>
    ensures text { IfOk result (λ text. IfSome (O.text opener.now file.now)
        (λ bytes. string_bytes text ≡ bytes)) }
    ensures none { IfErr result
        (λ why. HasNoText (Unreadable (O.opens opener.now file.now) O.Reader.gave) why) }
{
    match opener.open(file) {
        Ok(mut reader) => text_of(alloc, &mut reader),
        Err(error) => Err(no_text(error)),
    }
}

// What a reader has left, as a text.
fn text_of<I: Input>(alloc: Global, input: &mut I) -> Result<String, NoText>
    ensures text { IfOk result (λ text. IfSome (I.left input.old)
        (λ bytes. string_bytes text ≡ bytes)) }
    ensures none { IfErr result (λ why. IsUnread I.gave input.old why) }
{
    let bytes = read_whole(alloc, input)?;
    match String::from_utf8(bytes) {
        Ok(text) => Ok(text),
        Err(_) => Err(NoText::NotUtf8),
    }
}

// All bytes up to the end. A read that is interrupted is made again.
fn read_whole<I: Input>(alloc: Global, input: &mut I) -> Result<Vec<u8>, NoText>
    ensures known { IfOk result
        (λ bytes. IfSome (I.left input.old) (λ known. bytes.items ≡ known)) }
    ensures read { IfOk result (λ bytes. HasRead I.gave input.old bytes.items) }
    ensures fault { IfErr result (λ why. CannotRead I.gave input.old why) }
{
    let mut bytes = Vec::new(alloc);
    let mut chunk = [0; CHUNK];
    for _ in 0..u64::MAX {
        match input.read_once(&mut chunk) {
            Ok(count) => {
                if count == 0 {
                    return Ok(bytes);
                }
                bytes.extend_from_slice(chunk.split_at(count).0)?;
            }
            Err(error) => {
                if !is_interrupted(&error) {
                    return Err(no_text(error));
                }
            }
        }
    }
    Err(NoText::Memory)
}

/// Why an opening or a read failed.
pub(crate) fn no_text(error: Error) -> NoText
    ensures memory { error_kind error ≡ OutOfMemory → result ≡ Memory }
    ensures failed { error_kind error ≢ OutOfMemory → result ≡ Failed error }
{
    if error.kind() == ErrorKind::OutOfMemory {
        NoText::Memory
    } else {
        NoText::Failed(error)
    }
}

/// The fault of a file that has no text.
pub(crate) fn unread(alloc: Global, file: &str, why: &NoText) -> Fault
    ensures { (result ≡ Fault.Memory) ⊎ ((name reason : String Global)
        × (string_bytes name ≡ file.now) × (result ≡ Fault.Unread name reason)) }
{
    let Ok(reason) = reason(alloc, why) else {
        return Fault::Memory;
    };
    match String::from_str(alloc, file) {
        Ok(file) => Fault::Unread { file, reason },
        Err(_) => Fault::Memory,
    }
}

// What is reported of it, in the words of Rust's errors.
fn reason(alloc: Global, why: &NoText) -> Result<String, AllocError> {
    match why {
        NoText::Memory => String::from_str(alloc, "out of memory"),
        NoText::Failed(error) => format!(in alloc; "{error}"),
        NoText::NotUtf8 => String::from_str(alloc, "stream did not contain valid UTF-8"),
    }
}

impl From<AllocError> for NoText {
    ghost from_gives = { λ _ why. why ≡ Memory };

    fn from(_: AllocError) -> NoText {
        NoText::Memory
    }
}
