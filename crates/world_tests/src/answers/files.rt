//! A file over memory.
ghost use Rattle.std.specs.Prelude.{⊤};

use answer::Opener;
use std::io::{self, ErrorKind};

// The only file that there is.
#[derive(Drop)]
pub struct OneFile<'a> {
    pub name: &'a str,
    pub text: &'a [u8],
}

impl<'a> Opener for OneFile<'a> {
    type Reader = &'a [u8];

    // No contract says what a test has.
    ghost opens = { λ _ _ _. ⊤ };

    fn open(&self, name: &str) -> io::Result<&'a [u8]> {
        if name == self.name {
            Ok(self.text)
        } else {
            Err(io::Error::from(ErrorKind::NotFound))
        }
    }
}
