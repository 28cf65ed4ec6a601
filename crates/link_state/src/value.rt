//! The value in a ParameterStatus.
ghost use Rattle.std.specs.Prelude.{◌≡◌, ◌<◌, ◌==◌, [], length, IfSome};
ghost use Rattle.std.specs.Option.{option_map};
ghost use Rattle.std.specs.List.{position_from};
ghost use Rattle.link_state.specs.Watch.{before_zero, value_in};

/// The value that a ParameterStatus with this body gives to the parameter.
pub fn value_in<'a>(body: &'a [u8], name: &str) -> Option<&'a [u8]>
    ensures { option_map (λ value. value.now) result ≡ value_in name.now body.now }
{
    let Some(rest) = body.strip_prefix(name.as_bytes()) else {
        return None;
    };
    value_after(rest)
}

// The value behind the name, and behind the zero byte that ends it.
fn value_after(rest: &[u8]) -> Option<&[u8]>
    ensures { option_map (λ value. value.now) result ≡ value_in [] rest.now }
{
    match rest {
        [0, value @ ..] => Some(before_zero(value)),
        _ => None,
    }
}

// What stands before the first zero byte.
fn before_zero(bytes: &[u8]) -> &[u8]
    ensures { result.now ≡ before_zero bytes.now }
{
    match zero_at(bytes) {
        Some(end) => &bytes[..end],
        None => bytes,
    }
}

// The place of the first zero byte.
fn zero_at(bytes: &[u8]) -> Option<usize>
    ensures place { result ≡ position_from (λ byte. byte == 0) 0 bytes.now }
    ensures within { IfSome result (λ end. end < length bytes.now) }
{
    bytes.iter().position(|byte| *byte == 0)
}
