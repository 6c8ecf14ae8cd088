//! The examples over the device that keeps plain lists, with a medium in memory.
use crate::examples::orders::OUT_OF_ORDER;
use crate::examples::room::{EXACT_FIT, FULL_RING};
use crate::examples::sent::READ_ONE;
use crate::examples::{ANSWERS, Device, Example, RESETS, ROOM, WAITING};
use crate::fixture::{Disk, disk, settings, settings_of};
use crate::fronts::ends_after;
use crate::rows::{command, run};
use std::alloc::Global;
use std::test::Fail;
use tcmu_types::Submit;

/// The first call of an example that does not answer as its row says, and whether what is logged is as wanted.
fn made(alloc: Global, example: &Example, device: Device) -> Result<(Option<usize>, bool), Fail> {
    let disk = disk(alloc, settings_of(device))?;
    run(disk, alloc, example.calls, example.log)
}

#[test]
fn each_example_of_answers(rt: HostRuntime) -> Result<(), Fail> {
    let alloc = rt.alloc();
    for example in &ANSWERS {
        let made = made(alloc, example, example.device)?;
        assert_eq!(rt; made, (None, true), "{}", example.name);
    }
    Ok(())
}

#[test]
fn each_example_of_resets(rt: HostRuntime) -> Result<(), Fail> {
    let alloc = rt.alloc();
    for example in &RESETS {
        let made = made(alloc, example, example.device)?;
        assert_eq!(rt; made, (None, true), "{}", example.name);
    }
    Ok(())
}

#[test]
fn each_example_of_room(rt: HostRuntime) -> Result<(), Fail> {
    let alloc = rt.alloc();
    for example in &ROOM {
        let made = made(alloc, example, example.device)?;
        assert_eq!(rt; made, (None, true), "{}", example.name);
    }
    Ok(())
}

#[test]
fn each_example_of_a_command_that_waits(rt: HostRuntime) -> Result<(), Fail> {
    let alloc = rt.alloc();
    for example in &WAITING {
        let made = made(alloc, example, example.device)?;
        assert_eq!(rt; made, (None, true), "{}", example.name);
    }
    Ok(())
}

#[test]
fn each_example_of_a_command_that_waits_where_answers_go_in_order(
    rt: HostRuntime,
) -> Result<(), Fail> {
    let alloc = rt.alloc();
    for example in &WAITING {
        let made = made(alloc, example, Device::NarrowInOrder)?;
        assert_eq!(rt; made, (None, true), "{}", example.name);
    }
    Ok(())
}

#[test]
fn a_reset_ends_each_front_of_an_example(rt: HostRuntime) -> Result<(), Fail> {
    let alloc = rt.alloc();
    for rows in 0..=OUT_OF_ORDER.len() {
        let disk = disk(alloc, settings_of(Device::Usual))?;
        assert!(rt; ends_after(disk, alloc, &OUT_OF_ORDER, rows)?, "{rows}");
    }
    Ok(())
}

/// A ring of 4096 bytes with so many entries of 128, and the serial of the last one queued.
fn filled(alloc: Global, count: u8) -> Result<(u64, Disk), Fail> {
    let mut disk = disk(alloc, settings(64, 30, 0, true, false))?;
    let command = command(alloc, &READ_ONE)?;
    let mut queued = 0;
    for serial in 1..=count as u64 {
        if disk.submit(alloc, &command)? == Submit::Queued(serial) {
            queued = serial;
        }
    }
    Ok((queued, disk))
}

#[test]
fn a_ring_of_4096_bytes_holds_31_entries_of_128(rt: HostRuntime) -> Result<(), Fail> {
    let alloc = rt.alloc();
    let (queued, disk) = filled(alloc, 31)?;
    assert_eq!(rt; queued, 31);
    assert_eq!(rt; run(disk, alloc, &FULL_RING, &[])?, (None, true));
    Ok(())
}

#[test]
fn an_item_may_end_with_the_ring(rt: HostRuntime) -> Result<(), Fail> {
    let alloc = rt.alloc();
    let (queued, disk) = filled(alloc, 30)?;
    assert_eq!(rt; queued, 30);
    assert_eq!(rt; run(disk, alloc, &EXACT_FIT, &[])?, (None, true));
    Ok(())
}
