//! The texts of faults of scripts.
use std::alloc::Global;
use std::process::Abort;
use std::test::Fail;
use world_script::ScriptError;

#[test]
fn texts_of_faults(rt: HostRuntime) -> Result<(), Fail> {
    let bad = ScriptError::Bad { line: 2 };
    expect_text(&rt, bad, Some(80), "2: 80 BadScript")?;
    expect_text(&rt, ScriptError::Memory, None, "out of memory")
}

// The fault has this number, and is written as this text.
fn expect_text(
    rt: &(impl Abort + Alloc<A = Global>),
    fault: ScriptError,
    number: Option<u8>,
    text: &str,
) -> Result<(), Fail> {
    let written = format!(in rt.alloc(); "{fault}")?;
    assert_eq!(rt; fault.number(), number);
    assert_eq!(rt; written.as_str(), text);
    Ok(())
}
