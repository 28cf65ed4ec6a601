//! `pgpeer check`: whether settings files make a group.
ghost use Rattle.std.specs.Prelude.{◌≡◌, ◌⊎◌, IfErr, IfOk, MatchResult, String, map, string_bytes, IfSome};
ghost use Rattle.answer.specs.AllFaults.{IsUnreadFile};
ghost use Rattle.answer.specs.Files.{folder_of, IsCheckFault, IsFileFault, IsGroupLine, SayInOrder, Says};
ghost use Rattle.answer.specs.Texts.{group_text};

use crate::fault::Fault;
use crate::file_text::{NoText, file_text, unread};
use crate::opener::Opener;
use ini_config::{Group, GroupError, IniCode, IniError, Settings, read_settings};
use std::alloc::Global;

/// The line that names how many nodes these files make a group of, or the first fault: of a file, in
/// the order of the arguments, or else of the group.
pub fn check_line<O: Opener>(alloc: Global, opener: &O, files: &[&str]) -> Result<String, Fault>
    ensures group { IfOk result (λ line. IsGroupLine (O.text opener.now)
        (map (λ file. file.now) files.now) (string_bytes line)) }
    ensures refused { IfErr result (λ fault. IsCheckFault
        (folder_of (O.text opener.now) (O.opens opener.now) O.Reader.gave)
        (map (λ file. file.now) files.now) fault) }
{
    let group = group_of(alloc, opener, files)?;
    let count = group.nodes().len();
    group_line(alloc, count)
}

/// The group whose nodes are what these files say, one for each file, in order; or the first fault:
/// of a file, or else of the group.
pub fn group_of<O: Opener>(alloc: Global, opener: &O, files: &[&str]) -> Result<Group, Fault>
    ensures said { IfOk result (λ group. SayInOrder (O.text opener.now)
        (map (λ file. file.now) files.now) group) }
    ensures refused { IfErr result (λ fault. IsCheckFault
        (folder_of (O.text opener.now) (O.opens opener.now) O.Reader.gave)
        (map (λ file. file.now) files.now) fault) }
{
    match Group::check(settings_of(alloc, opener, files)?) {
        Ok(group) => Ok(group),
        Err(error) => Err(Fault::OfGroup(error)),
    }
}

/// The line that names how many nodes a group has.
pub(crate) fn group_line(alloc: Global, count: usize) -> Result<String, Fault>
    ensures { MatchResult result
        (λ line. string_bytes line ≡ group_text count)
        (λ fault. fault ≡ Fault.Memory) }
{
    format!(in alloc; "group of {count} nodes\n").map_err(|_| Fault::Memory)
}

// The settings that the files say, in order.
fn settings_of<O: Opener>(alloc: Global, opener: &O, files: &[&str]) -> Result<Vec<Settings>, Fault>
    ensures said { IfOk result (λ nodes. SayInOrder (O.text opener.now)
        (map (λ file. file.now) files.now) nodes.items) }
    ensures refused { IfErr result (λ fault. IsCheckFault
        (folder_of (O.text opener.now) (O.opens opener.now) O.Reader.gave)
        (map (λ file. file.now) files.now) fault) }
{
    let mut nodes = Vec::new(alloc);
    for file in files {
        let node = node_of(alloc, opener, file)?;
        let Ok(()) = nodes.push(node) else {
            return Err(Fault::OfGroup(GroupError::Memory));
        };
    }
    Ok(nodes)
}

// The settings that the file says.
fn node_of<O: Opener>(alloc: Global, opener: &O, file: &str) -> Result<Settings, Fault>
    ensures said { IfOk result (λ node. Says (O.text opener.now file.now) node) }
    ensures refused { IfErr result
        (λ fault. IsFileFault
        (folder_of (O.text opener.now) (O.opens opener.now) O.Reader.gave)
        file.now fault) }
{
    let text = settings_text(alloc, opener, file)?;
    match read_settings(alloc, text.as_str()) {
        Ok(settings) => Ok(settings),
        Err(error) => Err(in_file(alloc, file, error)),
    }
}

/// What the file holds.
pub(crate) fn settings_text<O: Opener>(
    alloc: Global,
    opener: &O,
    file: &str,
) -> Result<String, Fault>
    ensures held { IfOk result (λ text. IfSome (O.text opener.now file.now)
        (λ bytes. string_bytes text ≡ bytes)) }
    ensures refused { IfErr result
        (λ fault. IsUnreadFile
        (folder_of (O.text opener.now) (O.opens opener.now) O.Reader.gave)
        file.now fault) }
{
    match file_text(alloc, opener, file) {
        Ok(text) => Ok(text),
        Err(NoText::Memory) => Err(in_file(alloc, file, OUT_OF_MEMORY)),
        Err(why) => Err(unread(alloc, file, &why)),
    }
}

/// The fault of a file for which there was no memory.
const OUT_OF_MEMORY: IniError = IniError {
    line: 0,
    code: IniCode::Memory,
};

/// The fault of a file.
pub(crate) fn in_file(alloc: Global, file: &str, error: IniError) -> Fault
    ensures { (result ≡ Fault.Memory) ⊎ ((name : String Global) × (string_bytes name ≡ file.now)
        × (result ≡ Fault.InFile name error)) }
{
    match String::from_str(alloc, file) {
        Ok(file) => Fault::InFile { file, error },
        Err(_) => Fault::Memory,
    }
}
