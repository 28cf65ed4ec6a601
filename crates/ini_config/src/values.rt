//! The values of keys and words.
ghost use Rattle.std.specs.Prelude.{◌≡◌, ◌<◌, ◌≤◌, ◌⊎◌, MatchResult, Ok, Err, Some, IfOk, OnErr, string_bytes};
ghost use Rattle.ini_config.specs.Reads.{once, Gives};
ghost use Rattle.ini_config.specs.Text.{number_in};
ghost use Rattle.ini_config.specs.Entry.{host_value};
ghost use Rattle.ini_config.specs.Keys.{address_value};

use crate::fault::IniCode;
use crate::text::number_in;
use pg_ids::PeerNo;
use std::alloc::Global;

/// Sets a value that isn't set yet.
pub(crate) fn once<T: Drop>(place: &mut Option<T>, value: Result<T, IniCode>) -> Result<(), IniCode>
    ensures once { MatchResult result
        (λ _. once place.old value ≡ Ok place.new)
        (λ e. once place.old value ≡ Err e) }
    ensures place { (place.new ≡ place.old) ⊎ ((v : T) × (value ≡ Ok v) × (place.new ≡ Some v)) }
    ensures kept { OnErr result (place.new ≡ place.old) }
{
    if place.is_some() {
        return Err(IniCode::Repeated);
    }
    let value = value?;
    *place = Some(value);
    Ok(())
}

/// Any text.
pub(crate) fn text_value(alloc: Global, text: &str) -> Result<String, IniCode>
    ensures { Gives string_bytes result (Ok text.now) }
{
    Ok(String::from_str(alloc, text)?)
}

/// A host, which is no path of a Unix socket.
#[tactic(auto, unfolding(crate::specs::Entry::host_value))]
pub(crate) fn host_value(alloc: Global, text: &str) -> Result<String, IniCode>
    ensures { Gives string_bytes result (host_value text.now) }
{
    if text.as_bytes().first() == Some(&b'/') {
        return Err(IniCode::NotInProfile);
    }
    text_value(alloc, text)
}

/// One host to listen at.
#[tactic(auto, unfolding(crate::specs::Keys::address_value))]
pub(crate) fn address_value(alloc: Global, text: &str) -> Result<String, IniCode>
    ensures { Gives string_bytes result (address_value text.now) }
{
    if text == "*" {
        return Err(IniCode::NotInProfile);
    }
    text_value(alloc, text)
}

/// A port or a pool size, 1 to 65535.
pub(crate) fn size_value(text: &str) -> Result<u16, IniCode>
    ensures value { result ≡ number_in 1 65535 text.now }
    ensures range { IfOk result (λ n. 0 < n) }
{
    let number = number_in(1, 65535, text)?;
    Ok(number as u16)
}

/// A peer number from `low` to 16383.
pub(crate) fn peer_value(low: u32, text: &str) -> Result<PeerNo, IniCode>
    ensures value { result ≡ number_in low 16383 text.now }
    ensures range { IfOk result (λ n. low ≤ n) }
{
    let number = number_in(low, 16383, text)?;
    PeerNo::new(number as u16).ok_or(IniCode::OutOfRange)
}
