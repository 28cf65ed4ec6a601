//! Bytes appended to a buffer, all or none.
ghost use Rattle.std.specs.Prelude.{◌≡◌, ◌<◌, ◌++◌, ◌^◌, flat_map, length, sum_by, OnOk, OnErr, IsOkUnless};

use crate::startup_error::StartupError;

/// Appends these parts to the buffer, one after the other. Their memory is reserved before anything
/// is written, so that the buffer is unchanged if this fails.
pub fn append(out: &mut Vec<u8>, parts: &[&[u8]]) -> Result<(), StartupError>
    requires { sum_by (λ part. length part.now) parts.now < 2 ^ 32 }
    ensures ok { OnOk result
        (out.new.items ≡ out.old.items ++ flat_map (λ part. part.now) parts.now) }
    ensures err { OnErr result (out.new.items ≡ out.old.items) }
    ensures memory { IsOkUnless result StartupError.Memory }
{
    out.reserve(parts.iter().map(|part| part.len()).sum())?;
    for part in parts {
        out.extend_from_slice(part).unwrap();
    }
    Ok(())
}
