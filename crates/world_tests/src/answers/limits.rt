//! As many clients as there may be, and more, and a long script.
use super::files::OneFile;
use super::{answered, expect_answer};
use std::alloc::Global;
use std::process::Abort;
use std::sync::Wait;
use std::test::Fail;

// Requests for slots 0, 59,999 and 60,000 of pooler 2, with hops 3, the first with secret 1 and the
// others with secret 7.
const ONE: &str = "0000001004d2162e0008000000000007";

const LAST: &str = "0000001004d2162e000ba97c0000001f";

const PAST: &str = "0000001004d2162e000ba9800000001f";

#[test]
fn sixty_thousand_clients(rt: HostRuntime) -> Result<(), Fail> {
    let live = repeated(rt.alloc(), "7", ",7", 59999)?;
    expect_among(&rt, live.as_str(), LAST, "refused 63\n");
    expect_among(&rt, live.as_str(), PAST, "refused 61\n");
    Ok(())
}

#[track_caller]
fn expect_among(
    rt: &(impl Abort + Wait + Alloc<A = Global>),
    live: &str,
    packet: &str,
    line: &str,
) {
    let words = ["decide", "--me", "2", "--live", live, packet];
    expect_answer(rt, &words, 0, line, "");
}

const TOO_MANY: &str = "\
error: too many values for '--live <C,C..>': expected at most 65535

Usage: pgpeer decide --me <N> [--peers <P,P..>] [--live <C,C..>] <HEX>

For more information, try '--help'.
";

#[test]
fn too_many_clients(rt: HostRuntime) -> Result<(), Fail> {
    let live = repeated(rt.alloc(), "7", ",7", 65535)?;
    let words = ["decide", "--me", "2", "--live", live.as_str(), ONE];
    expect_answer(&rt, &words, 2, "", TOO_MANY);
    Ok(())
}

#[test]
fn many_lines(rt: HostRuntime) -> Result<(), Fail> {
    let text = repeated(rt.alloc(), "node 2 1 2\n", "acquire 10\n", 10_000)?;
    let file = OneFile {
        name: "FILE",
        text: text.as_bytes(),
    };
    let answer = answered(&rt, &["world", "FILE"], &file);
    let end = b"\n10000 skipped\nevents 10000 skipped 10000 interrupts 0\n".as_slice();
    assert!(rt; answer.out.ends_with(end));
    Ok(())
}

// A text with this part this many times behind.
fn repeated(alloc: Global, first: &str, part: &str, count: u32) -> Result<String, Fail> {
    let mut text = String::from_str(alloc, first)?;
    for _ in 0..count {
        text.push_str(part)?;
    }
    Ok(text)
}
