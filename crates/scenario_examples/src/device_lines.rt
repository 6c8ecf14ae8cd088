//! Device lines by what is wrong with them, each behind `device d0 `.
use crate::fixture::{assert_fault, on_line};
use scenario_text::Why;
use std::alloc::Global;
use std::process::Abort;
use std::test::Fail;

/// With nothing wrong.
const RIGHT: [&str; 7] = [
    "tcm-user/0/d0/mem/64 ring=4096 blocks=16 flags=none timeout=30",
    // The largest of each.
    "tcm-user/65535/d0/mem/32768 ring=4194304 blocks=4096 flags=tmr,ooo,len timeout=1000000 qfull=1000000",
    "tcm-user/0/d0/mem/1 ring=4096 blocks=256 flags=ooo timeout=0 qfull=0 pages=16 # more",
    "tcm-user/0/d0/mem/1 ring=4096 blocks=16 flags=ooo timeout=0 pages=1",
    // Each other kind of medium.
    "tcm-user/0/d0/ro/mem/64 ring=4096 blocks=16 flags=ooo timeout=30",
    "tcm-user/0/d0/fail/1+2/mem/64 ring=4096 blocks=16 flags=ooo timeout=30",
    "tcm-user/0/d0/file/a/b ring=4096 blocks=16 flags=ooo timeout=30",
];

/// A field that is missing, too many, out of order, twice, or without its prefix.
const FIELDS: [&str; 8] = [
    "tcm-user/0/d0/mem/1 ring=4096 blocks=16 flags=ooo",
    "tcm-user/0/d0/mem/1 ring=4096 blocks=16 flags=ooo timeout=0 qfull=0 pages=1 x",
    "tcm-user/0/d0/mem/1 ring=4096 blocks=16 flags=ooo timeout=0 pages=1 qfull=0",
    "tcm-user/0/d0/mem/1 ring=4096 blocks=16 flags=ooo timeout=0 pages=1 pages=1",
    "tcm-user/0/d0/mem/1 4096 blocks=16 flags=ooo timeout=0",
    "tcm-user/0/d0/mem/1 ring=4096 16 flags=ooo timeout=0",
    "tcm-user/0/d0/mem/1 ring=4096 blocks=16 ooo timeout=0",
    "tcm-user/0/d0/mem/1 ring=4096 blocks=16 flags=ooo 0",
];

/// The config.
const CONFIGS: [&str; 3] = [
    // Of another device, and the ring is wrong too.
    "tcm-user/0/d1/mem/64 ring=0 blocks=16 flags=ooo timeout=30",
    "tcm-user/0/d0/mem/064 ring=4096 blocks=16 flags=ooo timeout=30",
    // Failing calls that do not rise.
    "tcm-user/0/d0/fail/1+1/mem/64 ring=4096 blocks=16 flags=ooo timeout=30",
];

/// A number.
const NUMBERS: [&str; 9] = [
    // No multiple of 4096, and the flags are wrong too.
    "tcm-user/0/d0/mem/1 ring=4097 blocks=16 flags=x timeout=30",
    "tcm-user/0/d0/mem/1 ring=4198400 blocks=16 flags=ooo timeout=30",
    "tcm-user/0/d0/mem/1 ring= blocks=16 flags=ooo timeout=30",
    // The flags are wrong too.
    "tcm-user/0/d0/mem/1 ring=4096 blocks=0 flags=x timeout=30",
    "tcm-user/0/d0/mem/1 ring=4096 blocks=4097 flags=ooo timeout=30",
    "tcm-user/0/d0/mem/1 ring=4096 blocks=16 flags=ooo timeout=1000001",
    "tcm-user/0/d0/mem/1 ring=4096 blocks=16 flags=ooo timeout=30 qfull=1000001",
    "tcm-user/0/d0/mem/1 ring=4096 blocks=16 flags=ooo timeout=30 pages=17",
    // More than 4096 pages in all.
    "tcm-user/0/d0/mem/1 ring=4096 blocks=257 flags=ooo timeout=30 pages=16",
];

/// The flags.
const FLAGS: [&str; 3] = [
    // None, and the timeout is wrong too.
    "tcm-user/0/d0/mem/1 ring=4096 blocks=16 flags= timeout=x",
    "tcm-user/0/d0/mem/1 ring=4096 blocks=16 flags=len,len timeout=30",
    "tcm-user/0/d0/mem/1 ring=4096 blocks=16 flags=none,len timeout=30",
];

fn right() -> &'static [&'static str] {
    &RIGHT
}

fn fields() -> &'static [&'static str] {
    &FIELDS
}

fn configs() -> &'static [&'static str] {
    &CONFIGS
}

fn numbers() -> &'static [&'static str] {
    &NUMBERS
}

fn flags() -> &'static [&'static str] {
    &FLAGS
}

/// A device line alone.
fn alone(alloc: Global, fields: &str) -> Result<String, Fail> {
    Ok(format!(in alloc; "device d0 {fields}")?)
}

/// A device line behind a comment and a line of blanks.
fn third(alloc: Global, fields: &str) -> Result<String, Fail> {
    Ok(format!(in alloc; "# \u{7}\n\t\r\ndevice d0 {fields}\n")?)
}

/// Asserts what is wrong with each device line, alone and as the last of three lines.
fn assert_each(
    rt: &impl Abort,
    alloc: Global,
    lines: &[&str],
    why: Option<Why>,
) -> Result<(), Fail> {
    for &fields in lines {
        let text = alone(alloc, fields)?;
        assert_fault(rt, alloc, fields, text.as_bytes(), on_line(1, why))?;
        let text = third(alloc, fields)?;
        assert_fault(rt, alloc, fields, text.as_bytes(), on_line(3, why))?;
    }
    Ok(())
}

#[test]
fn device_lines(rt: HostRuntime) -> Result<(), Fail> {
    let alloc = rt.alloc();
    assert_each(&rt, alloc, right(), None)?;
    assert_each(&rt, alloc, fields(), Some(Why::Fields))?;
    assert_each(&rt, alloc, configs(), Some(Why::Config))?;
    assert_each(&rt, alloc, numbers(), Some(Why::Number))?;
    assert_each(&rt, alloc, flags(), Some(Why::Flags))
}
