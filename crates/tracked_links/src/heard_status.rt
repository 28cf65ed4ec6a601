//! A ParameterStatus is taken note of, by the first bytes of its body.
ghost use Rattle.std.specs.Prelude.{◌≡◌, ◌<◌, ◌≤◌, ◌++◌, ◌==◌, List, ℕ, length, slice_get, take, IfSome};
ghost use Rattle.std.specs.List.{AllByRecursion, position_from};
ghost use Rattle.tracked_parameters.specs.Values.{Fit};
ghost use Rattle.tracked_links.specs.Heard.{HearsStatus, HearsMessage};
ghost use Rattle.tracked_links.specs.HeardInside.{Suffices, IsBeforeZero, IsKept};

use link_state::Incoming;
use tracked_parameters::{ServerValues, Setting, TrackedNames, read_status};

// The longest value that is kept.
const LONGEST_VALUE: usize = 10_000;

// How many bytes of a body are kept beside the name: a value that is too long, and two zero bytes.
const BESIDE_NAME: usize = LONGEST_VALUE + 3;

/// How many bytes of a body are enough, whichever of the names it has.
pub(crate) fn most_of(names: &TrackedNames) -> usize
    ensures enough { AllByRecursion (Suffices result) names.now }
    ensures small { result ≤ 10000000000000000000 }
{
    let mut most = BESIDE_NAME;
    for place in 0..names.len() {
        most = most.max(most_at(names, place));
    }
    most
}

// The same for the name at this place.
fn most_at(names: &TrackedNames, place: usize) -> usize
    ensures enough { IfSome (slice_get names.now place) (Suffices result) }
    ensures small { result ≤ 10000000000000000000 }
{
    match names.get(place) {
        Some(name) => name.len() + BESIDE_NAME,
        None => BESIDE_NAME,
    }
}

/// Takes note of a whole message, of whose body at most this many bytes are kept.
pub(crate) fn hear_message(
    server: &mut ServerValues,
    names: &TrackedNames,
    message: &Incoming,
    most: usize,
)
    requires fit { Fit names.now server.old.current }
    requires enough { AllByRecursion (Suffices most) names.now }
    requires head { 5 ≤ length message.now.front.items }
    ensures fit { Fit names.now server.new.current }
    ensures hears { (kind : ℕ) (whole : List ℕ) → IsKept message.now.front.items most kind whole
        → HearsMessage (kind == 83) names.now whole server.old server.new }
{
    let Some(body) = message.status() else {
        return;
    };
    hear_status(server, names, body, most);
}

// Takes note of a ParameterStatus of whose body these bytes are kept.
fn hear_status(server: &mut ServerValues, names: &TrackedNames, body: &[u8], most: usize)
    requires fit { Fit names.now server.old.current }
    requires enough { AllByRecursion (Suffices most) names.now }
    ensures fit { Fit names.now server.new.current }
    ensures hears { (whole : List ℕ) → body.now ≡ take most whole
        → HearsStatus names.now whole server.old server.new }
{
    if body.len() < most {
        hear_whole(server, names, body);
    } else {
        hear_cut(server, names, body);
    }
}

// Takes note of one whose body this is.
fn hear_whole(server: &mut ServerValues, names: &TrackedNames, body: &[u8])
    requires { Fit names.now server.old.current }
    ensures fit { Fit names.now server.new.current }
    ensures hears { HearsStatus names.now body.now server.old server.new }
{
    let Some(setting) = read_status(body) else {
        return;
    };
    let _ = server.note(names, setting);
}

// Takes note of one whose body begins so: if its name is tracked, its value is too long.
fn hear_cut(server: &mut ServerValues, names: &TrackedNames, body: &[u8])
    requires fit { Fit names.now server.old.current }
    requires enough { AllByRecursion (Suffices (length body.now)) names.now }
    ensures fit { Fit names.now server.new.current }
    ensures hears { (more : List ℕ) → HearsStatus names.now (body.now ++ more) server.old server.new }
{
    let name = before_zero(body);
    if name.len() == body.len() {
        return;
    }
    let value = before_zero(body.split_at(name.len() + 1).1);
    if value.len() <= LONGEST_VALUE {
        return;
    }
    let _ = server.note(names, Setting { name, value });
}

// What stands before the first zero byte, all if there is none.
fn before_zero(bytes: &[u8]) -> &[u8]
    ensures { IsBeforeZero bytes.now result.now }
{
    match zero_at(bytes) {
        Some(end) => &bytes[..end],
        None => bytes,
    }
}

// The place of the first zero byte.
fn zero_at(bytes: &[u8]) -> Option<usize>
    ensures place { result ≡ position_from (λ byte. byte == 0) 0 bytes.now }
    ensures within { IfSome result (λ end. end < length bytes.now) }
{
    bytes.iter().position(|byte| *byte == 0)
}
