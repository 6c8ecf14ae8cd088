//! Texts, and their first faults.
use scenario_text::{ScenarioFault, Why, read_scenario};
use std::alloc::Global;
use std::process::Abort;
use std::test::Fail;

/// The line and the cause of a fault.
pub type Fault = (u32, Why);

/// The line of a device `d0` with 64 logical blocks in memory.
pub fn device_line() -> &'static str {
    "device d0 tcm-user/0/d0/mem/64 ring=4096 blocks=16 flags=ooo timeout=30"
}

/// What is wrong on this line.
pub fn on_line(line: u32, why: Option<Why>) -> Option<Fault> {
    match why {
        Some(why) => Some((line, why)),
        None => None,
    }
}

/// The first fault of a text.
fn fault_of(alloc: Global, text: &[u8]) -> Result<Option<Fault>, Fail> {
    match read_scenario(alloc, text) {
        Ok(_) => Ok(None),
        Err(ScenarioFault::Bad { line, why }) => Ok(Some((line, why))),
        Err(ScenarioFault::NoMemory) => Err(Fail::new("memory")),
    }
}

/// Asserts that this is the first fault of a text, which is of such lines.
pub fn assert_fault(
    rt: &impl Abort,
    alloc: Global,
    lines: &str,
    text: &[u8],
    wanted: Option<Fault>,
) -> Result<(), Fail> {
    let found = fault_of(alloc, text)?;
    assert_eq!(rt; found, wanted, "{lines}");
    Ok(())
}
