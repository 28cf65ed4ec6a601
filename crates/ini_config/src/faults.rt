//! All faults of a settings file: those of its lines, and those of the file as a whole.
ghost use Rattle.std.specs.Prelude.{◌≡◌, ◌++◌, ◌&&◌, not, [], IfOk, Ok, map};
ghost use Rattle.std.specs.Str.Lines.{lines};
ghost use Rattle.ini_config.specs.Faults.{AreFaults, is_section_line, names, told, whole_faults};
ghost use Rattle.ini_config.specs.Node.{NodeSettings};
ghost use Rattle.ini_config.specs.Settings.{settings_of};
ghost use Rattle.ini_config.specs.Surveyed.{line_faults_seen, nothing_surveyed, survey_fault, survey_line, surveyed};
ghost use Rattle.ini_config.specs.View.{given_seen};
ghost use Rattle.std.specs.List.{list_any};

use crate::draft::{Draft, bracketed};
use crate::fault::IniCode;
use crate::read::{POOL_SIZE, links_fit};
use crate::text::{cut_at_equals, trimmed};
use std::alloc::{AllocError, Global};

/// What a fault in a line is of.
#[derive(Clone, Copy, Debug, PartialEq, Eq)]
pub enum Subject<'a> {
    /// A line without a name.
    Line,
    /// The section of this name.
    Section(&'a str),
    /// This key of `[pgbouncer]`.
    Key(&'a str),
    /// This entry of `[databases]` or `[peers]`.
    Entry(&'a str),
}

/// A fault in a line.
#[derive(Clone, Copy, Debug, PartialEq, Eq)]
pub struct LineFault<'a> {
    /// The line, from 1.
    pub line: usize,
    /// What is wrong there.
    pub code: IniCode,
    /// What it is of.
    pub subject: Subject<'a>,
}

/// A fault of the file as a whole.
#[derive(Clone, Copy, Debug, PartialEq, Eq)]
pub enum WholeFault {
    /// `pool_mode` isn't there.
    PoolMode,
    /// `auth_type` isn't there.
    AuthType,
    /// `listen_addr` isn't there.
    ListenAddr,
    /// The databases have more than 65,535 server connections together.
    Links,
}

/// All faults of a settings file.
#[derive(Drop)]
pub struct Faults<'a> {
    /// Those of lines, in their order.
    pub lines: Vec<LineFault<'a>>,
    /// Those of the whole.
    pub whole: Vec<WholeFault>,
}

/// All faults of a settings text: each line at fault is taken out, and what is left is read on. A
/// section that is refused is taken out with its lines. A key that has to be given is reported as
/// missing only where no line that was taken out names it. Fails if memory runs out.
pub fn all_faults<'a>(alloc: Global, text: &'a str) -> Result<Faults<'a>, AllocError>
    ensures faults { IfOk result (λ faults. AreFaults [] (lines text.now)
        (line_faults_seen faults.lines.items) faults.whole.items) }
    // A text without faults is accepted.
    ensures accepted { IfOk result (λ faults. faults.lines.items ≡ [] → faults.whole.items ≡ []
        → (node : NodeSettings) × (settings_of text.now ≡ Ok node)) }
{
    let mut survey = Survey::new(alloc);
    let mut number = 0;
    for line in text.lines() {
        number += 1;
        survey.take_line(number, line)?;
    }
    let whole = whole_faults(alloc, &survey.draft, &survey.taken)?;
    Ok(Faults {
        lines: survey.faults,
        whole,
    })
}

// What has been read of a text so far, whose faults don't stop it.
#[derive(Drop)]
struct Survey<'a> {
    draft: Draft,
    // The lines that were taken out.
    taken: Vec<&'a str>,
    // Whether the lines up to the next section are taken out.
    skips: bool,
    faults: Vec<LineFault<'a>>,
}

impl<'a> Survey<'a> {
    fn new(alloc: Global) -> Survey<'a>
        ensures { surveyed result ≡ nothing_surveyed }
    {
        Survey {
            draft: Draft::new(alloc),
            taken: Vec::new(alloc),
            skips: false,
            faults: Vec::new(alloc),
        }
    }

    // One more line.
    #[tactic(auto, unfolding(crate::specs::Surveyed::survey_line))]
    fn take_line(&mut self, number: usize, line: &'a str) -> Result<(), AllocError>
        ensures { IfOk result
            (λ _. surveyed self.new ≡ survey_line (surveyed self.old) number line.now) }
    {
        let opens = is_section_line(line);
        if self.leaves_out(opens) {
            self.taken.push(line)?;
            return Ok(());
        }
        match self.draft.take_line(trimmed(line)) {
            Ok(()) => {
                self.skips = false;
                Ok(())
            }
            Err(IniCode::Memory) => Err(AllocError),
            Err(code) => self.take_fault(number, code, line, opens),
        }
    }

    // Whether a line that opens a section, or doesn't, goes with a section line that was refused.
    fn leaves_out(&self, opens: bool) -> bool
        ensures { result ≡ (self.now.skips && not opens) }
    {
        self.skips && !opens
    }

    // A fault in this line.
    fn take_fault(
        &mut self,
        number: usize,
        code: IniCode,
        line: &'a str,
        opens: bool,
    ) -> Result<(), AllocError>
        ensures { IfOk result
            (λ _. surveyed self.new ≡ survey_fault (surveyed self.old) number code line.now opens) }
    {
        let subject = self.draft.subject_of(trimmed(line));
        self.faults.push(LineFault {
            line: number,
            code,
            subject,
        })?;
        self.taken.push(line)?;
        self.skips = opens;
        Ok(())
    }
}

// Whether a line has the form of a section's.
fn is_section_line(line: &str) -> bool
    ensures { result ≡ is_section_line line.now }
{
    bracketed(trimmed(line)).is_some()
}

// What is wrong with the whole, where these lines were taken out.
fn whole_faults(alloc: Global, draft: &Draft, taken: &[&str]) -> Result<Vec<WholeFault>, AllocError>
    ensures { IfOk result (λ found. found.items
        ≡ whole_faults (map (λ line. line.now) taken.now) (given_seen draft.now)) }
{
    let keys = &draft.keys;
    let pool_mode = is_missing(taken, "pool_mode", keys.pool_mode.is_none());
    let auth_type = is_missing(taken, "auth_type", keys.auth_type.is_none());
    let listen_addr = is_missing(taken, "listen_addr", keys.listen_addr.is_none());
    let links = !links_fit(
        keys.default_pool_size.unwrap_or(POOL_SIZE),
        &draft.databases,
    );
    let mut found = Vec::new(alloc);
    tell(&mut found, pool_mode, WholeFault::PoolMode)?;
    tell(&mut found, auth_type, WholeFault::AuthType)?;
    tell(&mut found, listen_addr, WholeFault::ListenAddr)?;
    tell(&mut found, links, WholeFault::Links)?;
    Ok(found)
}

// One more fault, if it is there.
fn tell(found: &mut Vec<WholeFault>, is: bool, fault: WholeFault) -> Result<(), AllocError>
    ensures { IfOk result (λ _. found.new.items ≡ found.old.items ++ told is fault) }
{
    if is {
        found.push(fault)?;
    }
    Ok(())
}

// Whether a key that isn't given is named by none of these lines.
fn is_missing(taken: &[&str], key: &str, none: bool) -> bool
    ensures { result ≡ (none && not (list_any (λ line. names key.now line.now) taken.now)) }
{
    none && !is_named(taken, key)
}

fn is_named(taken: &[&str], key: &str) -> bool
    ensures { result ≡ list_any (λ line. names key.now line.now) taken.now }
{
    taken.iter().any(|line| names(line, key))
}

// Whether this is what stands before the first `=` of a line.
fn names(line: &str, key: &str) -> bool
    ensures { result ≡ names key.now line.now }
{
    match cut_at_equals(line) {
        Ok((name, _)) => trimmed(name) == key,
        Err(_) => false,
    }
}
