//! Tests by subject, and what they share: the program's answer to arguments.
use answer::answer;
use files::OneFile;
use std::alloc::Global;
use std::process::Abort;
use std::sync::Wait;

mod files;
mod limits;
mod reports;
mod writers;

// What the program answers.
#[derive(Drop)]
struct Answer {
    status: u8,
    out: Vec<u8>,
    err: Vec<u8>,
}

// Where this is the only file.
fn answered(rt: &(impl Wait + Alloc<A = Global>), words: &[&str], file: &OneFile<'_>) -> Answer {
    let alloc = rt.alloc();
    let mut out = Vec::new(alloc);
    let mut err = Vec::new(alloc);
    let status = answer(rt, alloc, words, file, &mut out, &mut err);
    Answer { status, out, err }
}

// An empty file.
const EMPTY: OneFile<'static> = OneFile {
    name: "empty",
    text: b"",
};

// These arguments are answered with this status, and these texts on standard output and standard
// error.
#[track_caller]
fn expect_answer(
    rt: &(impl Abort + Wait + Alloc<A = Global>),
    words: &[&str],
    status: u8,
    out: &str,
    err: &str,
) {
    let answer = answered(rt, words, &EMPTY);
    assert_eq!(rt; answer.status, status);
    assert_eq!(rt; answer.out.as_slice(), out.as_bytes());
    assert_eq!(rt; answer.err.as_slice(), err.as_bytes());
}
