//! The sections of a settings file.
ghost use Rattle.std.specs.Prelude.{◌≡◌};
ghost use Rattle.std.specs.List.{list_all};
ghost use Rattle.ini_config.specs.Text.{is_key_byte};

use crate::fault::IniCode;

/// A section by its name.
#[derive(Clone, Copy, Debug, PartialEq, Eq)]
pub(crate) enum Section {
    Pgbouncer,
    Databases,
    Peers,
}

impl Section {
    ghost use Rattle.ini_config.specs.Reads.{Answers};
    ghost use Rattle.ini_config.specs.Settings.{section_named, same_section, is_reserved, key_form};

    /// The section with this name.
    #[tactic(auto, unfolding(crate::specs::Settings::section_named))]
    pub(crate) fn of(name: &str) -> Result<Section, IniCode>
        ensures { result ≡ section_named name.now }
    {
        match name {
            "pgbouncer" => Ok(Section::Pgbouncer),
            "databases" => Ok(Section::Databases),
            "peers" => Ok(Section::Peers),
            _ => Err(IniCode::UnknownSection),
        }
    }

    /// Whether both are one section.
    pub(crate) fn is(self, other: Section) -> bool
        ensures { result ≡ same_section self other }
    {
        self == other
    }

    fn is_reserved(self, key: &str) -> bool
        ensures { result ≡ is_reserved self key.now }
    {
        match self {
            Section::Databases => key == "*" || key == "pgbouncer",
            Section::Pgbouncer | Section::Peers => false,
        }
    }

    /// Refuses a key that has no form of this section.
    #[tactic(auto, unfolding(crate::specs::Settings::key_form))]
    pub(crate) fn check_key(self, key: &str) -> Result<(), IniCode>
        ensures { Answers (λ _. key.now) result (key_form self key.now) }
    {
        if self.is_reserved(key) {
            return Err(IniCode::NotInProfile);
        }
        if !is_key(key.as_bytes()) {
            return Err(IniCode::BadLine);
        }
        Ok(())
    }
}

fn is_key(bytes: &[u8]) -> bool
    ensures { result ≡ list_all is_key_byte bytes.now }
{
    bytes
        .iter()
        .all(|byte| byte.is_ascii_alphanumeric() || *byte == b'_')
}
