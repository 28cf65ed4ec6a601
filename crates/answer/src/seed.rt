//! The seed of `serve`, which may lie in a file.
ghost use Rattle.std.specs.Prelude.{◌≡◌, IfErr, IfOk, IfSome, Some, take};
ghost use Rattle.command_line.specs.Seeds.{counted_bytes};
ghost use Rattle.answer.specs.Answer.{IsUsage};
ghost use Rattle.answer.specs.Reading.{Fails};
ghost use Rattle.answer.specs.ReadingFaults.{CannotRead, HasNoText};
ghost use Rattle.answer.specs.Seeds.{GaveFirst, GaveSeed, HoldsSeed, IsNoSeed, IsReadSeed, IsSeedFault, IsSeedOf, ReadsFirst};

use crate::fault::Fault;
use crate::file_text::{NoText, no_text, unread};
use crate::input::Input;
use crate::opener::Opener;
use crate::output::is_interrupted;
use command_line::{Place, SeedSource, Wrong, counted_bytes, seed_held, usage};
use std::alloc::Global;

/// The seed: these bytes, or what the file holds. Fails if the file can't be read or holds no seed.
pub fn seed_of<O: Opener>(
    alloc: Global,
    opener: &O,
    source: SeedSource<'_>,
) -> Result<[u8; 32], Fault>
    ensures seed { IfOk result (λ seed. IsSeedOf (O.text opener.now) source.entry seed) }
    ensures read { IfOk result
        (λ seed. IsReadSeed (O.opens opener.now) O.Reader.gave source.entry seed) }
    ensures refused { IfErr result (λ fault. IsSeedFault (O.text opener.now)
        (O.opens opener.now) O.Reader.gave source.entry fault) }
{
    match source {
        SeedSource::Bytes(seed) => Ok(seed),
        SeedSource::File(file) => seed_in(alloc, opener, file),
    }
}

// The seed that the file holds.
fn seed_in<O: Opener>(alloc: Global, opener: &O, file: &str) -> Result<[u8; 32], Fault>
    ensures seed { IfOk result (λ seed. HoldsSeed (O.text opener.now file.now) file.now seed) }
    ensures read { IfOk result
        (λ seed. GaveSeed (O.opens opener.now) O.Reader.gave file.now (Some seed)) }
    ensures refused { IfErr result (λ fault. IsNoSeed (O.text opener.now file.now)
        (O.opens opener.now) O.Reader.gave file.now fault) }
{
    match beginning(alloc, opener, file) {
        Ok(bytes) => match seed_held(&bytes) {
            Some(seed) => Ok(seed),
            None => Err(no_seed(alloc, file)),
        },
        Err(NoText::Memory) => Err(Fault::Memory),
        Err(why) => Err(unread(alloc, file, &why)),
    }
}

// The bytes of the file that count.
fn beginning<O: Opener>(alloc: Global, opener: &O, file: &str) -> Result<Vec<u8>, NoText>
    ensures known { IfOk result (λ bytes. IfSome (O.text opener.now file.now)
        (λ text. bytes.items ≡ take (counted_bytes file.now) text)) }
    ensures read { IfOk result (λ bytes. GaveFirst (O.opens opener.now file.now) O.Reader.gave
        (counted_bytes file.now) bytes.items) }
    ensures none { IfErr result
        (λ why. HasNoText (Fails (O.opens opener.now file.now) O.Reader.gave) why) }
{
    match opener.open(file) {
        Ok(mut reader) => first_bytes(alloc, &mut reader, counted_bytes(file)),
        Err(error) => Err(no_text(error)),
    }
}

// As many bytes, or all where there are fewer. A read that is interrupted is made again.
fn first_bytes<I: Input>(alloc: Global, input: &mut I, count: usize) -> Result<Vec<u8>, NoText>
    ensures known { IfOk result (λ bytes. IfSome (I.left input.old)
        (λ known. bytes.items ≡ take count known)) }
    ensures read { IfOk result (λ bytes. ReadsFirst I.gave input.old count bytes.items) }
    ensures fault { IfErr result (λ why. CannotRead I.gave input.old why) }
{
    let mut bytes = Vec::new(alloc);
    let mut byte = [0];
    for _ in 0..u64::MAX {
        if bytes.len() == count {
            return Ok(bytes);
        }
        match input.read_once(&mut byte) {
            Ok(0) => return Ok(bytes),
            Ok(_) => bytes.extend_from_slice(&byte)?,
            Err(error) => {
                if !is_interrupted(&error) {
                    return Err(no_text(error));
                }
            }
        }
    }
    Err(NoText::Memory)
}

// The fault of a file that holds no seed.
fn no_seed(alloc: Global, file: &str) -> Fault
    ensures { IsUsage result }
{
    match usage(alloc, &[], Wrong::Value(Place::SeedFile, file)) {
        Ok(text) => Fault::Usage(text),
        Err(_) => Fault::Memory,
    }
}
