//! The session that a StartupMessage begins.
ghost use Rattle.std.specs.Prelude.{◌≡◌, ◌≢◌, ◌↔◌, ◌+◌, ◌*◌, ◌≤◌, ◌==◌, [], ◌∷◌, IsTrue, false, length, take, count_by, IfSome, IfNone, List, bytes_eq, codes, if◌then◌else◌};
ghost use Rattle.std.specs.List.{AllByRecursion};
ghost use Rattle.startup.specs.Kinds.{Seen};
ghost use Rattle.startup.specs.Packet.{startup_code};
ghost use Rattle.startup.specs.FirstPacket.{length_of, code_of, HasHeader, Answers};
ghost use Rattle.startup.specs.StartupMessage.{Parameter as Sent, IsParameter, AreParameters, is_reserved, body_of, unless_empty};
ghost use Rattle.startup.specs.Session.{HoldsAtMost};

use crate::first::First;
use crate::header::Header;
use crate::names::are_distinct;
use crate::packets::unfinished;
use crate::parameter::Parameter;
use crate::startup_error::StartupError;
use pg_ids::Kind;
use std::alloc::Global;

// How many parameters the longest packet can hold: three bytes each, between the header and a zero
// byte.
const MOST_PARAMETERS: usize = 3330;

// How many parameters a client may send that is read with little stack.
const FEW_PARAMETERS: usize = 24;

/// The answer to the header of a StartupMessage of this kind and what stands behind it.
pub fn read_startup(
    alloc: Global,
    kind: Kind,
    so_far: &[u8],
    header: Header,
    at_end: bool,
) -> Result<First, StartupError>
    requires stands { HasHeader so_far.now }
    requires length { header.length ≡ length_of so_far.now }
    requires code { code_of so_far.now ≡ startup_code kind }
    ensures { (seen : Seen) → Answers seen so_far.now at_end result }
{
    let used = header.length as usize;
    if so_far.len() < used {
        return unfinished(at_end);
    }
    let Some(session) = Session::read(&so_far[8..used]) else {
        return Err(StartupError::BadText);
    };
    if session.user.is_empty() {
        return Err(StartupError::NoUser);
    }
    let user = String::from_str(alloc, session.user)?;
    let database = String::from_str(alloc, session.database_or_user())?;
    Ok(First::Startup {
        kind,
        user,
        database,
        used,
    })
}

/// What a pooler takes from a StartupMessage's parameters: user and database, each empty where it
/// isn't given.
#[derive(Clone, Copy, Debug)]
pub struct Session<'a> {
    pub user: &'a str,
    pub database: &'a str,
}

impl<'a> Session<'a> {
    ghost use Rattle.startup.specs.Session.{IsSessionOf, IsReadOf};

    /// The session of a StartupMessage's body, none where the body isn't of its form or names what
    /// may not be set.
    pub fn read(body: &'a [u8]) -> Option<Session<'a>>
        requires { length body.now ≤ 9992 }
        ensures found { IfSome result (λ session. IsSessionOf session body.now) }
        ensures none { IfNone result ((ps : List Sent) → AreParameters ps → body.now ≢ body_of ps) }
    {
        if zeros(body) <= 2 * FEW_PARAMETERS + 1 {
            Session::read_few(body)
        } else {
            Session::read_many(body)
        }
    }

    // The same of a body of few parameters. Neither this nor the next is inlined, so that only a
    // client that sends many parameters takes the stack that sorting them needs.
    #[inline(never)]
    fn read_few(body: &'a [u8]) -> Option<Session<'a>>
        requires { count_by (λ byte. byte == 0) body.now ≤ 49 }
        ensures found { IfSome result (λ session. IsSessionOf session body.now) }
        ensures none { IfNone result ((ps : List Sent) → AreParameters ps → body.now ≢ body_of ps) }
    {
        Session::read_by(body, &mut [""; FEW_PARAMETERS])
    }

    // The same of any body.
    #[inline(never)]
    fn read_many(body: &'a [u8]) -> Option<Session<'a>>
        requires { length body.now ≤ 9992 }
        ensures found { IfSome result (λ session. IsSessionOf session body.now) }
        ensures none { IfNone result ((ps : List Sent) → AreParameters ps → body.now ≢ body_of ps) }
    {
        Session::read_by(body, &mut [""; MOST_PARAMETERS])
    }

    // The same, with `names` to hold the names.
    fn read_by(body: &'a [u8], names: &mut [&'a str]) -> Option<Session<'a>>
        requires { HoldsAtMost (length names.old) body.now }
        ensures found { IfSome result (λ session. IsSessionOf session body.now) }
        ensures none { IfNone result ((ps : List Sent) → AreParameters ps → body.now ≢ body_of ps) }
    {
        let (session, count) = Session::read_all(body, names)?;
        if are_distinct(&mut names[..count]) {
            Some(session)
        } else {
            None
        }
    }

    // The session of a body's parameters and their number, none where the body isn't of its form or
    // names what is reserved. Their names are put at the front of `names`; some may be the same.
    fn read_all(body: &'a [u8], names: &mut [&'a str]) -> Option<(Session<'a>, usize)>
        requires { HoldsAtMost (length names.old) body.now }
        ensures found { IfSome result (λ read. (read.1 ≤ length names.new)
            × IsReadOf read.0 (take read.1 names.new) body.now) }
        ensures none { IfNone result ((ps : List Sent) → AllByRecursion IsParameter ps
            → AllByRecursion (λ p. is_reserved p.name ≡ false) ps → body.now ≢ body_of ps) }
    {
        let mut session = Session {
            user: "",
            database: "",
        };
        let mut count = 0;
        let mut rest = body;
        'parameters: while !is_end(rest) {
            let (parameter, after) = Parameter::read(rest)?;
            if parameter.is_reserved() {
                return None;
            }
            names[count] = parameter.name;
            count += 1;
            session = session.with(parameter);
            rest = after;
        }
        Some((session, count))
    }

    // The session after one more parameter.
    fn with(self, parameter: Parameter<'a>) -> Session<'a>
        ensures user { result.user.now ≡ (if bytes_eq (codes "user") parameter.entry.name.now
            then parameter.entry.value.now else self.entry.user.now) }
        ensures database { result.database.now ≡
            (if bytes_eq (codes "database") parameter.entry.name.now
            then parameter.entry.value.now else self.entry.database.now) }
    {
        match parameter.name {
            "user" => Session {
                user: parameter.value,
                ..self
            },
            "database" => Session {
                database: parameter.value,
                ..self
            },
            _ => self,
        }
    }

    /// The database, or where none is given the one named as the user is.
    pub fn database_or_user(self) -> &'a str
        ensures { result.now ≡ unless_empty self.entry.database.now self.entry.user.now }
    {
        if self.database.is_empty() {
            self.user
        } else {
            self.database
        }
    }
}

// How many zero bytes there are: two for each parameter, and one behind them.
fn zeros(body: &[u8]) -> usize
    ensures { result ≡ count_by (λ byte. byte == 0) body.now }
{
    body.iter().filter(|byte| **byte == 0).count()
}

// Do the parameters end here, with the zero byte that is the last?
fn is_end(rest: &[u8]) -> bool
    ensures { IsTrue result ↔ (rest.now ≡ 0 ∷ []) }
{
    matches!(rest, [0])
}
