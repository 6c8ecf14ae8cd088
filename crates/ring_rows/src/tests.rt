//! The examples of path_rows over a device that is bytes, with a medium in memory.
use block_engine::Engine;
use media::MemMedium;
use path_rows::Rig;
use path_rows::examples::orders::OUT_OF_ORDER;
use path_rows::examples::room::{EXACT_FIT, FULL_RING};
use path_rows::examples::sent::READ_ONE;
use path_rows::examples::{ANSWERS, Device, Example, RESETS, ROOM, WAITING};
use path_rows::fixture::{engine, settings, settings_of};
use path_rows::fronts::ends_after;
use path_rows::rows::{command, run};
use ring_path::RingPath;
use std::alloc::Global;
use std::test::Fail;
use tcmu_types::{Settings, Submit};

/// A device over the bytes of a region, with a medium in memory.
type RingDisk = Rig<RingPath<Engine<MemMedium>>>;

/// A device of these settings, over logical blocks of zeros.
fn disk(alloc: Global, settings: Settings) -> Result<RingDisk, Fail> {
    match RingPath::new(alloc, settings, engine(alloc)?) {
        Ok(path) => Ok(Rig::new(path)),
        Err(_) => Err("memory for a device")?,
    }
}

/// The first call of an example that does not answer as its row says, and whether what is logged is as wanted.
fn made(alloc: Global, example: &Example, device: Device) -> Result<(Option<usize>, bool), Fail> {
    let disk = disk(alloc, settings_of(device))?;
    run(disk, alloc, example.calls, example.log)
}

#[test]
fn each_example_of_answers(rt: HostRuntime) -> Result<(), Fail> {
    let alloc = rt.alloc();
    for example in &ANSWERS {
        let made = made(alloc, example, example.device)?;
        assert_eq!(rt; made, (None, true), "{}", example.name);
    }
    Ok(())
}

#[test]
fn each_example_of_resets(rt: HostRuntime) -> Result<(), Fail> {
    let alloc = rt.alloc();
    for example in &RESETS {
        let made = made(alloc, example, example.device)?;
        assert_eq!(rt; made, (None, true), "{}", example.name);
    }
    Ok(())
}

#[test]
fn each_example_of_room(rt: HostRuntime) -> Result<(), Fail> {
    let alloc = rt.alloc();
    for example in &ROOM {
        let made = made(alloc, example, example.device)?;
        assert_eq!(rt; made, (None, true), "{}", example.name);
    }
    Ok(())
}

#[test]
fn each_example_of_a_command_that_waits(rt: HostRuntime) -> Result<(), Fail> {
    let alloc = rt.alloc();
    for example in &WAITING {
        let made = made(alloc, example, example.device)?;
        assert_eq!(rt; made, (None, true), "{}", example.name);
    }
    Ok(())
}

#[test]
fn each_example_of_a_command_that_waits_where_answers_go_in_order(
    rt: HostRuntime,
) -> Result<(), Fail> {
    let alloc = rt.alloc();
    for example in &WAITING {
        let made = made(alloc, example, Device::NarrowInOrder)?;
        assert_eq!(rt; made, (None, true), "{}", example.name);
    }
    Ok(())
}

#[test]
fn a_reset_ends_each_front_of_an_example(rt: HostRuntime) -> Result<(), Fail> {
    let alloc = rt.alloc();
    for rows in 0..=OUT_OF_ORDER.len() {
        let disk = disk(alloc, settings_of(Device::Usual))?;
        assert!(rt; ends_after(disk, alloc, &OUT_OF_ORDER, rows)?, "{rows}");
    }
    Ok(())
}

/// A ring of 4096 bytes with so many entries of 128, and the serial of the last one queued.
fn filled(alloc: Global, count: u8) -> Result<(u64, RingDisk), Fail> {
    let mut disk = disk(alloc, settings(64, 30, 0, true, false))?;
    let command = command(alloc, &READ_ONE)?;
    let mut queued = 0;
    for serial in 1..=count as u64 {
        if disk.submit(alloc, &command)? == Submit::Queued(serial) {
            queued = serial;
        }
    }
    Ok((queued, disk))
}

#[test]
fn a_ring_of_4096_bytes_holds_31_entries_of_128(rt: HostRuntime) -> Result<(), Fail> {
    let alloc = rt.alloc();
    let (queued, disk) = filled(alloc, 31)?;
    assert_eq!(rt; queued, 31);
    assert_eq!(rt; run(disk, alloc, &FULL_RING, &[])?, (None, true));
    Ok(())
}

#[test]
fn an_item_may_end_with_the_ring(rt: HostRuntime) -> Result<(), Fail> {
    let alloc = rt.alloc();
    let (queued, disk) = filled(alloc, 30)?;
    assert_eq!(rt; queued, 30);
    assert_eq!(rt; run(disk, alloc, &EXACT_FIT, &[])?, (None, true));
    Ok(())
}
