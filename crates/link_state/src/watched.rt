//! A parameter that is watched.
ghost use Rattle.std.specs.Prelude.{◌≡◌, ◌≢◌, ◌+◌, ◌≤◌, IfOk, IfNone, IfSome, Some, length, string_len, vec_capacity};

use crate::Difference;
use crate::value::value_in;
use std::alloc::{AllocError, Global};

// How many bytes are kept of a value that was reported, above those that clients get.
const SHOWN: usize = 64;

/// A parameter that is watched, and what was reported of it last. It takes all of its memory when
/// it is made.
#[derive(Debug, Drop)]
pub struct Watched {
    name: String,
    told: String,
    // The first bytes of the value that was reported last.
    last: Vec<u8>,
    reported: bool,
    ghost short: { string_len name + string_len told ≤ 8000 },
    ghost capacity: { string_len told + 64 ≤ vec_capacity last },
}

impl Watched {
    ghost use Rattle.link_state.specs.Watch.{shown};
    ghost use Rattle.link_state.specs.Watched.{seen, fresh, judged};

    /// One of which nothing was reported yet.
    pub fn new(alloc: Global, name: &str, told: &str) -> Result<Watched, AllocError>
        requires { length name.now + length told.now ≤ 8000 }
        ensures { IfOk result (λ one. seen one
            ≡ fresh record { name = name.now; value = told.now }) }
    {
        let name = String::from_str(alloc, name)?;
        let told = String::from_str(alloc, told)?;
        let last = Vec::with_capacity(alloc, told.len() + SHOWN)?;
        Ok(Watched {
            name,
            told,
            last,
            reported: false,
        })
    }

    /// Takes note of a ParameterStatus by the first bytes of its body.
    pub fn judge(&mut self, body: &[u8])
        ensures { seen self.new ≡ judged body.now (seen self.old) }
    {
        let Some(value) = value_in(body, self.name.as_str()) else {
            return;
        };
        let count = value.len().min(self.told.len() + SHOWN);
        self.last.clear();
        self.last.extend_from_slice(&value[..count]).unwrap();
        self.reported = true;
    }

    /// How many bytes of a ParameterStatus are enough to judge it.
    pub fn needs(&self) -> usize
        ensures value { result ≡ 6 + length (seen self.now).name + shown (seen self.now).told }
        ensures small { result ≤ 8070 }
    {
        6 + self.name.len() + self.told.len() + SHOWN
    }

    /// What was reported last, if clients get another value.
    pub fn difference(&self) -> Option<Difference<'_>>
        ensures none { IfNone result (IfSome (seen self.now).last
            (λ last. last ≡ (seen self.now).told)) }
        ensures some { IfSome result (λ change. (change.name.now ≡ (seen self.now).name)
            × (change.told.now ≡ (seen self.now).told)
            × ((seen self.now).last ≡ Some change.reported.now)
            × (change.reported.now ≢ change.told.now)) }
    {
        if !self.reported || self.last.as_slice() == self.told.as_bytes() {
            return None;
        }
        Some(Difference {
            name: self.name.as_str(),
            told: self.told.as_str(),
            reported: self.last.as_slice(),
        })
    }
}
