//! Device lines after others, and dumps by the settings of their device.
use crate::fixture::{assert_fault, on_line};
use scenario_text::Why;
use std::alloc::Global;
use std::process::Abort;
use std::test::Fail;

/// The medium of a device `d0`, and the name and the config of another device.
type Pair = (&'static str, &'static str);

/// Devices that can stand beside each other: their files have different names, or one has none.
const BESIDE: [Pair; 4] = [
    ("mem/64", "d1 tcm-user/0/d1/mem/64"),
    ("file/x", "d1 tcm-user/0/d1/file/y"),
    ("file/x", "d1 tcm-user/0/d1/file/X"),
    ("file/64", "d1 tcm-user/0/d1/mem/64"),
];

/// One file for both, whatever stands before its name; or a config with the name of the other device.
const CONFIGS: [Pair; 5] = [
    ("file/x", "d1 tcm-user/0/d1/file/x"),
    ("file/x", "d1 tcm-user/0/d1/ro/file/x"),
    ("ro/file/x", "d1 tcm-user/0/d1/fail/1/file/x"),
    ("fail/2/file/x", "d1 tcm-user/0/d1/file/x"),
    ("mem/64", "d1 tcm-user/0/d0/mem/64"),
];

/// One name for both.
const NAMES: [Pair; 1] = [("mem/64", "d0 tcm-user/0/d0/mem/64")];

/// Settings of devices whose dump breaks no rule: a ring of 65,536 bytes and 64 pages of data blocks at most.
const SMALL: [&str; 2] = [
    "ring=65536 blocks=64 flags=none timeout=0",
    "ring=4096 blocks=32 flags=none timeout=0 pages=2",
];

/// Settings of devices that are too large for a dump.
const LARGE: [&str; 3] = [
    "ring=69632 blocks=64 flags=none timeout=0",
    "ring=65536 blocks=65 flags=none timeout=0",
    "ring=4096 blocks=13 flags=none timeout=0 pages=5",
];

fn beside() -> &'static [Pair] {
    &BESIDE
}

fn configs() -> &'static [Pair] {
    &CONFIGS
}

fn names() -> &'static [Pair] {
    &NAMES
}

fn small() -> &'static [&'static str] {
    &SMALL
}

fn large() -> &'static [&'static str] {
    &LARGE
}

/// Two device lines.
fn both(alloc: Global, medium: &str, other: &str) -> Result<String, Fail> {
    let rest = settings();
    Ok(format!(in alloc; "device d0 tcm-user/0/d0/{medium} {rest}\ndevice {other} {rest}")?)
}

/// The settings of both devices.
fn settings() -> &'static str {
    "ring=4096 blocks=16 flags=ooo timeout=30"
}

/// Asserts what is wrong with the second line of each pair.
fn assert_each_pair(
    rt: &impl Abort,
    alloc: Global,
    pairs: &[Pair],
    why: Option<Why>,
) -> Result<(), Fail> {
    for &(medium, other) in pairs {
        let text = both(alloc, medium, other)?;
        assert_fault(rt, alloc, other, text.as_bytes(), on_line(2, why))?;
    }
    Ok(())
}

#[test]
fn two_devices(rt: HostRuntime) -> Result<(), Fail> {
    let alloc = rt.alloc();
    assert_each_pair(&rt, alloc, beside(), None)?;
    assert_each_pair(&rt, alloc, configs(), Some(Why::Config))?;
    assert_each_pair(&rt, alloc, names(), Some(Why::Name))
}

/// A dump of a device with these settings.
fn dump(alloc: Global, settings: &str) -> Result<String, Fail> {
    Ok(format!(in alloc; "device d0 tcm-user/0/d0/mem/64 {settings}\ndump d0")?)
}

/// Asserts what is wrong with a dump of a device with each of these settings.
fn assert_each_dump(
    rt: &impl Abort,
    alloc: Global,
    devices: &[&str],
    why: Why,
) -> Result<(), Fail> {
    for &settings in devices {
        let text = dump(alloc, settings)?;
        assert_fault(rt, alloc, settings, text.as_bytes(), Some((2, why)))?;
    }
    Ok(())
}

#[test]
fn dumps(rt: HostRuntime) -> Result<(), Fail> {
    let alloc = rt.alloc();
    assert_each_dump(&rt, alloc, small(), Why::NotYet)?;
    assert_each_dump(&rt, alloc, large(), Why::Dump)
}
