//! `pgpeer check --all`: all faults of settings files.
ghost use Rattle.std.specs.Prelude.{◌≡◌, ◌⊎◌, ◌++◌, [], ◌∷◌, IfErr, IfOk, Ok, String, map, string_bytes};
ghost use Rattle.ini_config.specs.Node.{NodeSettings};
ghost use Rattle.ini_config.specs.Settings.{settings_of};
ghost use Rattle.answer.specs.AllFaults.{IsMemoryOf, IsUnread, IsUnreadFile, IsWholeFault, TellsAll, TellsFaults, TellsNoGroup};
ghost use Rattle.answer.specs.Files.{folder_of, IsGroupLine, SayInOrder, Says};
ghost use Rattle.answer.specs.Explained.{GrowsBy, IsTold, group_fault_text};

use crate::check::{group_line, in_file, settings_text};
use crate::explained::{append_faults, group_told_text};
use crate::fault::Fault;
use crate::group_causes::group_cause;
use crate::opener::Opener;
use ini_config::{Group, GroupError, Settings, all_faults, read_settings};
use std::alloc::Global;

/// The line that names how many nodes these files make a group of; or why they make none: all
/// faults of the files, in order, or else that of the group, each with a sentence and words on its
/// cause. A file that can't be read goes before all others.
pub fn check_all_line<O: Opener>(alloc: Global, opener: &O, files: &[&str]) -> Result<String, Fault>
    ensures group { IfOk result (λ line. IsGroupLine (O.text opener.now)
        (map (λ file. file.now) files.now) (string_bytes line)) }
    ensures refused { IfErr result (λ fault. IsWholeFault
        (folder_of (O.text opener.now) (O.opens opener.now) O.Reader.gave)
        (map (λ file. file.now) files.now) fault) }
{
    let found = tell_all(alloc, opener, files)?;
    if !found.report.is_empty() {
        return Err(Fault::Explained(found.report));
    }
    let group = group_of_files(alloc, files, found.nodes)?;
    let count = group.nodes().len();
    group_line(alloc, count)
}

// The group of these nodes, each of the file at its place, or why they are none.
fn group_of_files(alloc: Global, files: &[&str], nodes: Vec<Settings>) -> Result<Group, Fault>
    ensures group { IfOk result (λ group. group ≡ nodes.items) }
    ensures refused { IfErr result (λ fault. (fault ≡ Fault.Memory) ⊎ TellsNoGroup nodes.items fault) }
{
    let words = group_cause(alloc, files, &nodes)?;
    group_told(alloc, nodes, words.as_str())
}

// The group of these nodes, or why they are none, with words on the cause.
fn group_told(alloc: Global, nodes: Vec<Settings>, words: &str) -> Result<Group, Fault>
    ensures group { IfOk result (λ group. group ≡ nodes.items) }
    ensures refused { IfErr result (λ fault. (fault ≡ Fault.Memory) ⊎ TellsNoGroup nodes.items fault) }
{
    match Group::check(nodes) {
        Ok(group) => Ok(group),
        Err(error) => Err(group_fault(alloc, error, words)),
    }
}

// The fault of a group, with words on its cause.
fn group_fault(alloc: Global, error: GroupError, words: &str) -> Fault
    ensures memory { error ≡ GroupError.Memory → result ≡ Fault.Memory }
    ensures told { (result ≡ Fault.Memory) ⊎ ((text : String Global)
        × IsTold (group_fault_text error) (string_bytes text)
        × (result ≡ Fault.Explained text)) }
{
    if error == GroupError::Memory {
        return Fault::Memory;
    }
    match group_told_text(alloc, error, words) {
        Ok(text) => Fault::Explained(text),
        Err(_) => Fault::Memory,
    }
}

// What files say, and what is wrong with them.
#[derive(Drop)]
struct Survey {
    // The settings of each file, where no file has a fault.
    nodes: Vec<Settings>,
    // A line for each fault, and words on its cause.
    report: String,
}

// What these files say, in order.
fn tell_all<O: Opener>(alloc: Global, opener: &O, files: &[&str]) -> Result<Survey, Fault>
    ensures told { IfOk result (λ found. TellsAll (O.text opener.now)
        (map (λ file. file.now) files.now) (string_bytes found.report)) }
    ensures said { IfOk result (λ found. string_bytes found.report ≡ [] → SayInOrder
        (O.text opener.now) (map (λ file. file.now) files.now) found.nodes.items) }
    ensures refused { IfErr result (λ fault. IsUnread
        (folder_of (O.text opener.now) (O.opens opener.now) O.Reader.gave)
        (map (λ file. file.now) files.now) fault) }
{
    let mut found = Survey {
        nodes: Vec::new(alloc),
        report: String::new(alloc),
    };
    for file in files {
        found.take_file(alloc, opener, file)?;
    }
    Ok(found)
}

impl Survey {
    // One more file.
    fn take_file<O: Opener>(&mut self, alloc: Global, opener: &O, file: &str) -> Result<(), Fault>
        ensures told { IfOk result (λ _. GrowsBy (TellsFaults (O.text opener.now file.now) file.now)
            (string_bytes self.old.report) (string_bytes self.new.report)) }
        ensures said { IfOk result (λ _. string_bytes self.new.report ≡ []
            → (node : NodeSettings) × Says (O.text opener.now file.now) node
            × (self.new.nodes.items ≡ self.old.nodes.items ++ node ∷ [])) }
        ensures refused { IfErr result (λ fault. IsUnreadFile
            (folder_of (O.text opener.now) (O.opens opener.now) O.Reader.gave) file.now fault) }
    {
        let text = settings_text(alloc, opener, file)?;
        let faults = all_faults(alloc, text.as_str())?;
        append_faults(alloc, file, text.as_str(), &faults, &mut self.report)?;
        if !self.report.is_empty() {
            return Ok(());
        }
        let node = right_settings(alloc, file, text.as_str())?;
        let Ok(()) = self.nodes.push(node) else {
            return Err(Fault::Memory);
        };
        Ok(())
    }
}

// The settings that a text without faults says.
fn right_settings(alloc: Global, file: &str, text: &str) -> Result<Settings, Fault>
    requires { (node : NodeSettings) × (settings_of text.now ≡ Ok node) }
    ensures said { IfOk result (λ node. settings_of text.now ≡ Ok node) }
    ensures memory { IfErr result (λ fault. IsMemoryOf file.now fault) }
{
    match read_settings(alloc, text) {
        Ok(settings) => Ok(settings),
        Err(error) => Err(in_file(alloc, file, error)),
    }
}
