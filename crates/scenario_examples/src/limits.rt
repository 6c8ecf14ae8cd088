//! As many lines, devices, initiators and bytes as a scenario may have, and one more.
use crate::fixture::{assert_fault, device_line};
use scenario_text::Why;
use std::alloc::Global;
use std::test::Fail;

/// A line, how many of it stand at most behind a device line, and the line on which one more stands.
type Most = (&'static str, u32, u32);

/// Lines that are 20,000 at most, or 64 MiB of data at most in either direction.
const MOST_LINES: [Most; 3] = [
    ("drain d0", 20_000, 20_002),
    ("submit d0 a 1 28000000000000000100 in=1048576", 64, 66),
    ("submit d0 a 1 2a000000000000000100 out=00*1048576", 64, 66),
];

fn most_lines() -> &'static [Most] {
    &MOST_LINES
}

/// Appends a line so often.
fn repeat(text: &mut String, line: &str, count: u32) -> Result<(), Fail> {
    for _ in 0..count {
        text.push_str(line)?;
        text.push_str("\n")?;
    }
    Ok(())
}

#[test]
fn repeated_lines(rt: HostRuntime) -> Result<(), Fail> {
    let alloc = rt.alloc();
    for &(line, most, one_more) in most_lines() {
        let mut text = String::new(alloc);
        repeat(&mut text, device_line(), 1)?;
        repeat(&mut text, line, most)?;
        assert_fault(&rt, alloc, line, text.as_bytes(), None)?;
        repeat(&mut text, line, 1)?;
        assert_fault(
            &rt,
            alloc,
            line,
            text.as_bytes(),
            Some((one_more, Why::Many)),
        )?;
    }
    Ok(())
}

/// The line of a device of this number, over a file of its own.
fn file_device(alloc: Global, number: u32) -> Result<String, Fail> {
    Ok(format!(in alloc;
        "device d{number} tcm-user/0/d{number}/file/f{number} ring=8192 blocks=65 flags=ooo timeout=30\n"
    )?)
}

/// The lines of 16 devices.
fn sixteen_devices(alloc: Global) -> Result<String, Fail> {
    let mut text = String::new(alloc);
    for number in 0..16u32 {
        text.push_str(&file_device(alloc, number)?)?;
    }
    Ok(text)
}

/// The submit of an initiator to a device, by their numbers.
fn submit(alloc: Global, device: u32, init: u32) -> Result<String, Fail> {
    Ok(format!(in alloc; "submit d{device} i{init} 1 28000000000000000100 in=1\n")?)
}

/// A 17th device is one too many, and no device line stands after another line.
#[test]
fn seventeen_devices(rt: HostRuntime) -> Result<(), Fail> {
    let alloc = rt.alloc();
    let more = file_device(alloc, 16)?;
    let mut text = sixteen_devices(alloc)?;
    text.push_str(&more)?;
    assert_fault(
        &rt,
        alloc,
        "16 devices and a device",
        text.as_bytes(),
        Some((17, Why::Many)),
    )?;
    let mut text = sixteen_devices(alloc)?;
    text.push_str("stat d15\n")?;
    text.push_str(&more)?;
    assert_fault(
        &rt,
        alloc,
        "16 devices, a stat and a device",
        text.as_bytes(),
        Some((18, Why::Order)),
    )
}

/// Each of 16 devices with 16 initiators; a 17th initiator of one of them is one too many.
#[test]
fn seventeen_initiators(rt: HostRuntime) -> Result<(), Fail> {
    let alloc = rt.alloc();
    let mut text = sixteen_devices(alloc)?;
    for device in 0..16u32 {
        for init in 0..16u32 {
            text.push_str(&submit(alloc, device, init)?)?;
        }
    }
    assert_fault(&rt, alloc, "16 initiators", text.as_bytes(), None)?;
    text.push_str(&submit(alloc, 7, 16)?)?;
    assert_fault(
        &rt,
        alloc,
        "17 initiators",
        text.as_bytes(),
        Some((273, Why::Many)),
    )
}

/// The longest text, and one byte more.
#[test]
fn longest(rt: HostRuntime) -> Result<(), Fail> {
    let alloc = rt.alloc();
    let mut text = Vec::new(alloc);
    text.resize(4_194_304, b'#')?;
    assert_fault(&rt, alloc, "the longest", text.as_slice(), None)?;
    text.push(b'#')?;
    assert_fault(
        &rt,
        alloc,
        "one byte more",
        text.as_slice(),
        Some((0, Why::TooLong)),
    )
}
