//! What SCSI commands answer over media that configs make: failing calls, protection and files (SPC-4, SBC-3).
use crate::config_media::{ConfigMedium, files_with, made};
use block_engine::Engine;
use edge::{Files, MemFiles, MemStore};
use scsi_examples::requests::{
    GOOD, Outcome, PROTECTED, READ_ERROR, WRITE_ERROR, ask, filled, is_block_of,
};
use std::alloc::Global;
use std::process::Abort;
use std::test::Fail;
use tcmu_types::Name;

/// An engine over a medium that a config makes.
type Disk = Engine<ConfigMedium>;

/// A disk over the medium of a config text.
fn disk(alloc: Global, config: &str, files: &mut MemFiles) -> Result<Disk, Fail> {
    let name = Name::new("d0").ok_or("a name")?;
    Ok(Engine::new(name, made(alloc, config, files)?))
}

/// Asserts how a WRITE(10) of the first block ends, with this byte throughout.
fn assert_write(
    rt: &impl Abort,
    alloc: Global,
    disk: &mut Disk,
    byte: u8,
    wanted: Outcome,
) -> Result<(), Fail> {
    let sent = filled(alloc, byte, 512)?;
    let reply = ask(alloc, disk, "2a000000000000000100", &sent, 0)?;
    assert_eq!(rt; Outcome::of(&reply), wanted, "a block of {byte:#04x}");
    Ok(())
}

/// How a READ(10) of the first block ends, and whether it gave a block of this byte.
fn read(alloc: Global, disk: &mut Disk, byte: u8) -> Result<(Outcome, bool), Fail> {
    let reply = ask(alloc, disk, "28000000000000000100", &[], 512)?;
    let whole = is_block_of(reply.payload.as_slice(), byte);
    Ok((Outcome::of(&reply), whole))
}

/// Asserts how a READ(10) of the first block ends: GOOD with this byte throughout, or without such a block.
fn assert_read(
    rt: &impl Abort,
    alloc: Global,
    disk: &mut Disk,
    byte: u8,
    wanted: Outcome,
) -> Result<(), Fail> {
    let (outcome, whole) = read(alloc, disk, byte)?;
    assert_eq!(rt; outcome, wanted, "a block of {byte:#04x}");
    assert_eq!(rt; whole, wanted == GOOD, "a block of {byte:#04x}");
    Ok(())
}

#[test]
fn a_listed_write_leaves_what_was_there(rt: HostRuntime) -> Result<(), Fail> {
    let alloc = rt.alloc();
    let mut files = files_with(alloc, 512, &[])?;
    let mut disk = disk(alloc, "tcm-user/0/d0/fail/2/mem/64", &mut files)?;
    assert_write(&rt, alloc, &mut disk, 0x11, GOOD)?;
    assert_write(&rt, alloc, &mut disk, 0x22, WRITE_ERROR)?;
    assert_read(&rt, alloc, &mut disk, 0x11, GOOD)
}

#[test]
fn a_protected_medium_refuses_writes(rt: HostRuntime) -> Result<(), Fail> {
    let alloc = rt.alloc();
    let mut files = files_with(alloc, 512, &[])?;
    let mut disk = disk(alloc, "tcm-user/0/d0/ro/mem/64", &mut files)?;
    assert_write(&rt, alloc, &mut disk, 0x11, PROTECTED)?;
    assert_read(&rt, alloc, &mut disk, 0x00, GOOD)
}

/// Reads four times from a file whose store fails at this call, and asserts that just this read fails.
fn assert_fails_at(rt: &impl Abort, alloc: Global, failing: u64) -> Result<(), Fail> {
    let mut files = files_with(alloc, 1024, &[failing])?;
    let mut disk = disk(alloc, "tcm-user/0/d0/file/img", &mut files)?;
    for call in 1..=4u64 {
        let wanted = if call == failing { READ_ERROR } else { GOOD };
        assert_read(rt, alloc, &mut disk, 0x00, wanted)?;
    }
    Ok(())
}

#[test]
fn each_call_of_the_store_fails_in_turn(rt: HostRuntime) -> Result<(), Fail> {
    let alloc = rt.alloc();
    for failing in 1..=4 {
        assert_fails_at(&rt, alloc, failing)?;
    }
    Ok(())
}

/// The store below a disk.
fn store_of(disk: Disk) -> Result<MemStore, Fail> {
    Ok(disk.into_medium().into_file().ok_or("a store")?)
}

/// Whether a store has a block of 11h and behind it one of zeros.
fn is_written(store: &MemStore) -> bool {
    let bytes = store.bytes();
    if bytes.len() != 1024 {
        return false;
    }
    let (front, back) = bytes.split_at(512);
    is_block_of(front, 0x11) && is_block_of(back, 0x00)
}

#[test]
fn what_was_written_is_in_the_file(rt: HostRuntime) -> Result<(), Fail> {
    let alloc = rt.alloc();
    let mut files = files_with(alloc, 1024, &[])?;
    let mut disk = disk(alloc, "tcm-user/0/d0/file/img", &mut files)?;
    assert_write(&rt, alloc, &mut disk, 0x11, GOOD)?;
    let store = store_of(disk)?;
    assert!(rt; files.get(b"img").is_none());
    files.keep(b"img", store);
    let store = files.get(b"img").ok_or("a file")?;
    assert!(rt; is_written(store));
    Ok(())
}
