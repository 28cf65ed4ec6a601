//! Parameters among the arguments of `serve` that are long or have zero bytes.
use command_line::{Running, usage};
use std::alloc::Global;
use std::process::Abort;
use std::test::Fail;

const SEED: &str = "000102030405060708090a0b0c0d0e0f101112131415161718191A1B1C1D1E1F";

// Parameters with a zero byte.
const BAD_REPORTS: [&str; 2] = ["a\0=value", "b=\0"];

#[test]
fn bad_reports(rt: HostRuntime) -> Result<(), Fail> {
    for report in BAD_REPORTS {
        let fault = format!(in rt.alloc();
            "invalid value '{report}' for '--report <NAME=VALUE>': \
             expected a name, '=' and a value, without zero bytes"
        )?;
        let words = [
            "serve", "--front", "1", "--seed", SEED, "--report", report, "a.ini",
        ];
        expect_wrong(&rt, &words, fault.as_str())?;
    }
    Ok(())
}

// The parameters that are reported may have 8,000 bytes together, of which 7 stand around each name
// and value.
#[test]
fn long_reports(rt: HostRuntime) -> Result<(), Fail> {
    let alloc = rt.alloc();
    let longest = format!(in alloc; "name={:>7981}", "v")?;
    let words = [
        "serve",
        "--front",
        "1",
        "--seed",
        SEED,
        "--report",
        longest.as_str(),
        "--report=b=",
        "a.ini",
    ];
    expect_asked(&rt, &words);
    let longer = format!(in alloc; "name={:>7982}", "v")?;
    let fault =
        "invalid value 'b=' for '--report <NAME=VALUE>': expected at most 8000 bytes in all";
    let words = [
        "serve",
        "--front",
        "1",
        "--seed",
        SEED,
        "--report",
        longer.as_str(),
        "--report=b=",
        "a.ini",
    ];
    expect_wrong(&rt, &words, fault)
}

// These arguments ask for a group.
#[track_caller]
fn expect_asked<'a>(rt: &(impl Abort + Alloc<A = Global>), words: &'a [&'a str]) {
    let is_asked = matches!(
        Running::read(rt.alloc(), words),
        Ok(Some(Running::Serve(_)))
    );
    assert!(rt; is_asked);
}

const SERVE: &str =
    "serve --front <PORT> --seed-file <FILE> [--boot <N>] [--report <NAME=VALUE>]... <FILE>...";

// These arguments are refused: this fault, and the usage of the command.
#[track_caller]
fn expect_wrong<'a>(
    rt: &(impl Abort + Alloc<A = Global>),
    words: &'a [&'a str],
    fault: &str,
) -> Result<(), Fail> {
    let alloc = rt.alloc();
    let Err(wrong) = Running::read(alloc, words) else {
        assert!(rt; false, "{words:?}");
        return Ok(());
    };
    let written = usage(alloc, words, wrong)?;
    let expected = format!(in alloc;
        "error: {fault}\n\nUsage: pgpeer {SERVE}\n\nFor more information, try '--help'.\n"
    )?;
    assert_eq!(rt; written.as_str(), expected.as_str(), "{words:?}");
    Ok(())
}
