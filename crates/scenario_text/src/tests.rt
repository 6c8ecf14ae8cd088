//! Which dumps break a rule, by how many there are: no text shows it, since the first dump is refused before.
use crate::so_far::breaks_dump;
use crate::{Line, LineKind, Scenario, read_scenario};
use std::alloc::Global;
use std::test::Fail;

/// A scenario of one small device.
fn small_device(alloc: Global) -> Result<Scenario, Fail> {
    let text = "device d0 tcm-user/0/d0/mem/64 ring=4096 blocks=16 flags=ooo timeout=30";
    Ok(read_scenario(alloc, text.as_bytes())?)
}

/// Whether a line of this device is one dump too many, with so many dumps, or dumps a device that is too large or not there.
fn breaks(scenario: &Scenario, dumps: u32, device: u32, what: LineKind) -> bool {
    breaks_dump(scenario.devices.as_slice(), dumps, &Line { device, what })
}

#[test]
fn dumps(rt: HostRuntime) -> Result<(), Fail> {
    let scenario = small_device(rt.alloc())?;
    assert_eq!(rt; breaks(&scenario, 16, 0, LineKind::Dump), false);
    assert_eq!(rt; breaks(&scenario, 17, 0, LineKind::Dump), true);
    assert_eq!(rt; breaks(&scenario, 17, 0, LineKind::Drain), false);
    assert_eq!(rt; breaks(&scenario, 1, 1, LineKind::Dump), true);
    Ok(())
}
