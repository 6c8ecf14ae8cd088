//! Lines behind a device line, by what is wrong with them.
use crate::fixture::{assert_fault, device_line, on_line};
use scenario_text::Why;
use std::alloc::Global;
use std::process::Abort;
use std::test::Fail;

/// With nothing wrong.
const RIGHT: [&str; 15] = [
    "",
    " # \u{7f}",
    "submit d0 a 1 28000000000000000100 in=512",
    "submit d0 a 4294967295 2a000000000300000100 out=5a*512,00*3",
    "submit d0 a 0 2a000000000300000100 in=0",
    "submit d0 a 0 2a000000000300000100 out=00*1048576",
    "submit d0 a 0 2a000000000300000100",
    "submit d0 a 1 000000000000",
    "enter d0",
    "handle d0 1000000000",
    "tick d0 1000000",
    "reset d0 2 # two",
    "tmr d0 7 none",
    "tmr d0 1 1,2#,3",
    "device d1 tcm-user/0/d1/ro/file/x ring=4096 blocks=16 flags=ooo timeout=30",
];

/// A byte, also where what stands before it is no verb.
const BYTES: [&str; 2] = ["\u{7f}#", "verb \u{b}"];

/// The verb.
const VERBS: [&str; 1] = ["Stat d0"];

/// A field that is missing, or one too many; what the fields say is wrong too.
const FIELDS: [&str; 7] = [
    "submit d9 A x",
    "submit d9 A x y z",
    "submit d9 A x y in=x in=x",
    "dispatch",
    "drain d0 d0",
    "handle d0",
    "tmr d0 1",
];

/// The name of a device that is not there, or at a device line one that is no name or taken; what follows is wrong too.
const NAMES: [&str; 6] = [
    "submit d9 A x y",
    "publish d9",
    "respond d9 x",
    "tmr d9 8 none",
    "device 0d x ring=0 blocks=0 flags=0 timeout=0",
    "device d0 tcm-user/0/d0/mem/64 ring=4096 blocks=16 flags=ooo timeout=30",
];

/// The initiator; the tag and the command descriptor block are wrong too.
const INITIATORS: [&str; 1] = ["submit d0 A x y"];

/// A number.
const NUMBERS: [&str; 13] = [
    "submit d0 a 01 y",
    "submit d0 a 4294967296 y",
    "submit d0 a 1 28000000000000000100 in=1048577",
    "submit d0 a 1 28000000000000000100 in=",
    "respond d0 0",
    "handle d0 1000000001",
    "tick d0 1000001",
    "reset d0 0",
    "reset d0 3",
    "tmr d0 8 none",
    "tmr d0 0 none",
    "tmr d0 1 1,1",
    "tmr d0 1 1,",
];

/// The command descriptor block: too short for its group, or with a capital.
const CDBS: [&str; 2] = [
    "submit d0 a 1 2800000000 in=x",
    "submit d0 a 1 2A000000000300000100",
];

/// The runs: other digits, none, or more than 1,048,576 bytes.
const RUNS: [&str; 3] = [
    "submit d0 a 1 28000000000000000100 out=zz*3",
    "submit d0 a 1 28000000000000000100 out=",
    "submit d0 a 1 2a000000000300000100 out=00*1048576,00*1",
];

/// The direction: bytes that go with a READ(10), or come back from a WRITE(10).
const DIRECTIONS: [&str; 2] = [
    "submit d0 a 1 28000000000000000100 out=00*512",
    "submit d0 a 1 2a000000000300000100 in=1",
];

/// Nothing, but it is not served yet.
const NOT_YET: [&str; 1] = ["dump d0"];

fn right() -> &'static [&'static str] {
    &RIGHT
}

fn bytes() -> &'static [&'static str] {
    &BYTES
}

fn verbs() -> &'static [&'static str] {
    &VERBS
}

fn fields() -> &'static [&'static str] {
    &FIELDS
}

fn names() -> &'static [&'static str] {
    &NAMES
}

fn initiators() -> &'static [&'static str] {
    &INITIATORS
}

fn numbers() -> &'static [&'static str] {
    &NUMBERS
}

fn cdbs() -> &'static [&'static str] {
    &CDBS
}

fn runs() -> &'static [&'static str] {
    &RUNS
}

fn directions() -> &'static [&'static str] {
    &DIRECTIONS
}

fn not_yet() -> &'static [&'static str] {
    &NOT_YET
}

/// A line behind a device line, without a line feed.
fn last(alloc: Global, line: &str) -> Result<String, Fail> {
    let device = device_line();
    Ok(format!(in alloc; "{device}\n{line}")?)
}

/// A line between a device line and another line.
fn between(alloc: Global, line: &str) -> Result<String, Fail> {
    let device = device_line();
    Ok(format!(in alloc; "{device}\n{line}\nstat d0\n")?)
}

/// Asserts what is wrong with each line, as the last one and before another.
fn assert_each(
    rt: &impl Abort,
    alloc: Global,
    lines: &[&str],
    why: Option<Why>,
) -> Result<(), Fail> {
    for &line in lines {
        let text = last(alloc, line)?;
        assert_fault(rt, alloc, line, text.as_bytes(), on_line(2, why))?;
        let text = between(alloc, line)?;
        assert_fault(rt, alloc, line, text.as_bytes(), on_line(2, why))?;
    }
    Ok(())
}

#[test]
fn other_lines(rt: HostRuntime) -> Result<(), Fail> {
    let alloc = rt.alloc();
    assert_each(&rt, alloc, right(), None)?;
    assert_each(&rt, alloc, bytes(), Some(Why::Byte))?;
    assert_each(&rt, alloc, verbs(), Some(Why::Verb))?;
    assert_each(&rt, alloc, fields(), Some(Why::Fields))?;
    assert_each(&rt, alloc, names(), Some(Why::Name))?;
    assert_each(&rt, alloc, initiators(), Some(Why::Init))?;
    assert_each(&rt, alloc, numbers(), Some(Why::Number))?;
    assert_each(&rt, alloc, cdbs(), Some(Why::Cdb))?;
    assert_each(&rt, alloc, runs(), Some(Why::Runs))?;
    assert_each(&rt, alloc, directions(), Some(Why::Direction))?;
    assert_each(&rt, alloc, not_yet(), Some(Why::NotYet))
}
