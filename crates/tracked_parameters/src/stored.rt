//! A report that is kept.
ghost use Rattle.std.specs.Prelude.{◌≡◌, IfOk};

use crate::setting::Setting;
use std::alloc::{AllocError, Global};

/// A parameter and the value that a server reported of it.
#[derive(Debug, Drop)]
pub struct Stored {
    name: Vec<u8>,
    value: Vec<u8>,
}

impl Stored {
    ghost use Rattle.tracked_parameters.specs.StoredReports.{kept_report};
    ghost use Rattle.tracked_parameters.specs.Status.{told};

    /// Takes the memory for both.
    pub fn new(alloc: Global, setting: Setting<'_>) -> Result<Stored, AllocError>
        ensures { IfOk result (λ stored. kept_report stored ≡ told setting.entry) }
    {
        let name = setting.name.to_vec(alloc)?;
        let value = setting.value.to_vec(alloc)?;
        Ok(Stored { name, value })
    }

    pub fn name(&self) -> &[u8]
        ensures { result.now ≡ (kept_report self.now).name }
    {
        self.name.as_slice()
    }

    pub fn lend(&self) -> Setting<'_>
        ensures { told result ≡ kept_report self.now }
    {
        Setting {
            name: self.name.as_slice(),
            value: self.value.as_slice(),
        }
    }
}
