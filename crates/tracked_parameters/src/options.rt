//! The `options` of a StartupMessage.
ghost use Rattle.std.specs.Prelude.{◌≡◌, ◌==◌, [], ◌∷◌, ◌++◌, List, ℕ, false, OnOk, IfOk};
ghost use Rattle.tracked_parameters.specs.Options.{is_space, arguments, whole};
ghost use Rattle.tracked_parameters.specs.StoredReports.{all_items};

use std::alloc::{AllocError, Global};

/// The arguments that white space separates. A backslash makes the next byte one of its argument.
pub fn split(alloc: Global, text: &[u8]) -> Result<Vec<Vec<u8>>, AllocError>
    ensures { IfOk result (λ all. all_items all.items ≡ arguments text.now) }
{
    let mut splitter = Splitter::new(alloc);
    for byte in text {
        splitter.take(*byte)?;
    }
    splitter.finish()?;
    Ok(splitter.whole)
}

// Arguments that are whole, the one that has begun, and whether a backslash precedes.
#[derive(Drop)]
struct Splitter {
    alloc: Global,
    whole: Vec<Vec<u8>>,
    begun: Vec<u8>,
    escaped: bool,
}

impl Splitter {
    ghost use Rattle.tracked_parameters.specs.StoredReports.{arguments_with};

    fn new(alloc: Global) -> Splitter
        ensures { (bytes : List ℕ) → arguments_with result bytes ≡ arguments bytes }
    {
        Splitter {
            alloc,
            whole: Vec::new(alloc),
            begun: Vec::new(alloc),
            escaped: false,
        }
    }

    // Takes the next byte.
    fn take(&mut self, byte: u8) -> Result<(), AllocError>
        ensures { OnOk result ((bytes : List ℕ)
            → arguments_with self.new bytes ≡ arguments_with self.old (byte ∷ bytes)) }
    {
        if !self.escaped && byte == b'\\' {
            self.escaped = true;
            return Ok(());
        }
        if !self.escaped && is_space(byte) {
            return self.finish();
        }
        self.begun.push(byte)?;
        self.escaped = false;
        Ok(())
    }

    // Ends the argument that has begun.
    fn finish(&mut self) -> Result<(), AllocError>
        ensures whole { OnOk result (all_items self.new.whole.items
            ≡ all_items self.old.whole.items ++ whole self.old.begun.items) }
        ensures begun { OnOk result (self.new.begun.items ≡ []) }
        ensures escaped { self.new.escaped ≡ self.old.escaped }
    {
        if self.begun.is_empty() {
            return Ok(());
        }
        let begun = std::mem::replace(&mut self.begun, Vec::new(self.alloc));
        self.whole.push(begun)?;
        Ok(())
    }
}

// White space, as C's `isspace` has it.
fn is_space(byte: u8) -> bool
    ensures { result ≡ is_space byte }
{
    matches!(byte, 9..=13) || byte == b' '
}
