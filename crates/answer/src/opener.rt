//! Where the program's files come from.
ghost use Rattle.std.specs.Prelude.{◌≡◌, ℕ, List, IfOk, IfSome, Result, Some, None, ⊤};
ghost use Rattle.std.specs.declared.io.Error.{Error};
ghost use Rattle.std.specs.declared.option.Option.{Option};

use crate::input::Input;
use std::fs::File;
use std::io;

/// Opens files by name.
pub trait Opener {
    /// What a file is read from.
    type Reader: Input + Drop;

    // What the file with a name holds, where that is known.
    ghost text: { Self → List ℕ → Option (List ℕ) } = { λ _ _. None };

    /// What may come of opening the file with this name.
    ghost opens: { Self → List ℕ → Result Self.Reader Error → Type 0 };

    /// The file with this name, from its beginning.
    fn open(&self, name: &str) -> io::Result<Self::Reader>
        ensures text { IfOk result (λ reader. IfSome (text self.now name.now)
            (λ bytes. Self.Reader.left reader ≡ Some bytes)) }
        ensures opened { opens self.now name.now result };
}

/// The files of the machine.
#[derive(Drop)]
pub struct Disk<'a> {
    rt: &'a HostRuntime,
}

impl<'a> Disk<'a> {
    /// The files that the runtime reaches.
    pub fn new(rt: &'a HostRuntime) -> Disk<'a> {
        Disk { rt }
    }
}

impl Opener for Disk<'_> {
    type Reader = File;

    // No contract says what is on a disk.
    ghost opens = { λ _ _ _. ⊤ };

    fn open(&self, name: &str) -> io::Result<File> {
        File::open(self.rt, name)
    }
}
