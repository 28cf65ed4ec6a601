//! Calls that fail, each in its turn.
use crate::name::Who;
use std::io;
use std::io::{Error, ErrorKind};

// How a call fails: by an error, or by taking nothing or finding the end of the input.
#[derive(Clone, Copy, PartialEq, Eq)]
pub(crate) enum Fault {
    Breaks,
    Interrupted,
    Stops,
}

impl Fault {
    // What the call returns.
    pub(crate) fn outcome(self) -> io::Result<usize> {
        match self {
            Fault::Breaks => Err(Error::from(ErrorKind::ConnectionReset)),
            Fault::Interrupted => Err(Error::from(ErrorKind::Interrupted)),
            Fault::Stops => Ok(0),
        }
    }

    pub(crate) fn words(self) -> &'static str {
        match self {
            Fault::Breaks => "breaks",
            Fault::Interrupted => "is interrupted",
            Fault::Stops => "stops",
        }
    }
}

// Which call fails of the connections of this side, from 0 on, and how.
#[derive(Clone, Copy)]
pub(crate) struct Failing {
    pub(crate) who: Who,
    pub(crate) call: usize,
    pub(crate) fault: Fault,
}
