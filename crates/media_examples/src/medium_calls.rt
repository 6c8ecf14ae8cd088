//! The calls of media that configs make: listed calls that fail, protection, and files that open.
use crate::config_media::{ConfigMedium, fault_of, files_with, made};
use edge::{Failed, MemFiles};
use handler_trait::Medium;
use media::MakeFault;
use std::alloc::Global;
use std::process::Abort;
use std::test::Fail;

/// A call of a medium.
#[derive(Clone, Copy, Debug)]
enum Call {
    /// Writes this block full of a byte.
    Write(u64, u8),
    /// Fills so many blocks from the first on with a byte.
    Fill(u64, u8),
    /// Reads this block.
    Read(u64),
    Sync,
}

/// What a call came to.
#[derive(Clone, Copy, Debug, PartialEq, Eq)]
enum Told {
    Done,
    /// A block full of this byte was read.
    Full(u8),
    /// A block of different bytes was read.
    Mixed,
    Failed,
    /// It was not made, since the medium has not so many blocks.
    Short,
}

/// On 64 blocks in memory, where the calls 2, 4 and 5 fail.
const IN_MEMORY: [(Call, Told); 6] = [
    (Call::Write(0, 0x11), Told::Done),
    (Call::Write(0, 0x22), Told::Failed),
    (Call::Read(0), Told::Full(0x11)),
    (Call::Fill(2, 0x33), Told::Failed),
    (Call::Sync, Told::Failed),
    (Call::Read(1), Told::Full(0x00)),
];

/// On a file of two blocks, where the calls 1 and 3 fail, and of those that reach the store the second.
const IN_A_FILE: [(Call, Told); 6] = [
    (Call::Write(0, 0x11), Told::Failed),
    (Call::Write(0, 0x22), Told::Done),
    (Call::Write(1, 0x33), Told::Failed),
    // This is the second call of the store.
    (Call::Sync, Told::Failed),
    (Call::Fill(2, 0x44), Told::Done),
    (Call::Read(1), Told::Full(0x44)),
];

/// Configs, and how many blocks their media have and whether they are protected; the file has one block.
const PROTECTION: [(&str, u64, bool); 3] = [
    ("tcm-user/0/d0/mem/64", 64, false),
    ("tcm-user/0/d0/ro/mem/64", 64, true),
    ("tcm-user/0/d0/ro/file/img", 1, true),
];

/// The size of a file, and what is wrong when it is opened first.
const OPENINGS: [(usize, Option<MakeFault>); 3] = [
    (512, None),
    (0, Some(MakeFault::Open)),
    (513, Some(MakeFault::Open)),
];

fn in_memory() -> &'static [(Call, Told)] {
    &IN_MEMORY
}

fn in_a_file() -> &'static [(Call, Told)] {
    &IN_A_FILE
}

fn protection() -> &'static [(&'static str, u64, bool)] {
    &PROTECTION
}

fn openings() -> &'static [(usize, Option<MakeFault>)] {
    &OPENINGS
}

/// A block full of this byte.
fn block_of(byte: u8) -> [u8; 512] {
    [byte; 512]
}

/// What a read of these bytes came to.
fn told_of(bytes: &[u8]) -> Told {
    let Some(&first) = bytes.first() else {
        return Told::Mixed;
    };
    if bytes.iter().all(|byte| *byte == first) {
        Told::Full(first)
    } else {
        Told::Mixed
    }
}

/// What a call came to that reads nothing.
fn told_by(answer: Result<(), Failed>) -> Told {
    match answer {
        Ok(()) => Told::Done,
        Err(Failed) => Told::Failed,
    }
}

/// Writes a block of this byte, where the medium has so many blocks.
fn write(medium: &mut ConfigMedium, block: u64, byte: u8) -> Told {
    if medium.blocks() <= block {
        return Told::Short;
    }
    told_by(medium.write(512 * block, &block_of(byte)))
}

/// Fills so many blocks from the first on, where the medium has them.
fn fill(medium: &mut ConfigMedium, count: u64, byte: u8) -> Told {
    if count == 0 || medium.blocks() < count {
        return Told::Short;
    }
    told_by(medium.fill(0, &block_of(byte), count))
}

/// Reads a block, where the medium has so many.
fn read(medium: &mut ConfigMedium, block: u64) -> Told {
    if medium.blocks() <= block {
        return Told::Short;
    }
    let mut bytes = block_of(0xee);
    match medium.read(512 * block, &mut bytes) {
        Ok(()) => told_of(&bytes),
        Err(Failed) => Told::Failed,
    }
}

fn sync(medium: &mut ConfigMedium) -> Told {
    told_by(medium.sync())
}

/// What a call comes to.
fn make(medium: &mut ConfigMedium, call: Call) -> Told {
    match call {
        Call::Write(block, byte) => write(medium, block, byte),
        Call::Fill(count, byte) => fill(medium, count, byte),
        Call::Read(block) => read(medium, block),
        Call::Sync => sync(medium),
    }
}

/// Makes each call, and asserts what it comes to.
fn assert_each(rt: &impl Abort, medium: &mut ConfigMedium, calls: &[(Call, Told)]) {
    for &(call, wanted) in calls {
        assert_eq!(rt; make(medium, call), wanted, "{call:?}");
    }
}

/// The size of a medium's file, and what its bytes are; None where it has no file.
fn file_of(medium: ConfigMedium) -> Option<(usize, Told)> {
    let store = medium.into_file()?;
    Some((store.bytes().len(), told_of(store.bytes())))
}

#[test]
fn listed_calls_fail_and_change_nothing(rt: HostRuntime) -> Result<(), Fail> {
    let alloc = rt.alloc();
    let mut files = files_with(alloc, 512, &[])?;
    let mut medium = made(alloc, "tcm-user/0/d0/fail/2+4+5/mem/64", &mut files)?;
    assert_each(&rt, &mut medium, in_memory());
    assert!(rt; file_of(medium).is_none());
    Ok(())
}

#[test]
fn listed_calls_do_not_reach_the_file(rt: HostRuntime) -> Result<(), Fail> {
    let alloc = rt.alloc();
    let mut files = files_with(alloc, 1024, &[2])?;
    let mut medium = made(alloc, "tcm-user/0/d0/fail/1+3/file/img", &mut files)?;
    assert_each(&rt, &mut medium, in_a_file());
    let (size, bytes) = file_of(medium).ok_or("a file")?;
    assert_eq!(rt; size, 1024);
    assert_eq!(rt; bytes, Told::Full(0x44));
    Ok(())
}

/// How many blocks the medium of a config has, and whether it is protected.
fn shape_of(alloc: Global, config: &str, files: &mut MemFiles) -> Result<(u64, bool), Fail> {
    let medium = made(alloc, config, files)?;
    Ok((medium.blocks(), medium.protected()))
}

#[test]
fn a_protected_medium_says_so(rt: HostRuntime) -> Result<(), Fail> {
    let alloc = rt.alloc();
    let mut files = files_with(alloc, 512, &[])?;
    for &(config, wanted_blocks, wanted_protected) in protection() {
        let (blocks, protected) = shape_of(alloc, config, &mut files)?;
        assert_eq!(rt; blocks, wanted_blocks, "{config}");
        assert_eq!(rt; protected, wanted_protected, "{config}");
    }
    Ok(())
}

/// Asserts why no medium is made of a config text over files; None where one is.
fn assert_fault(
    rt: &impl Abort,
    alloc: Global,
    config: &str,
    files: &mut MemFiles,
    wanted: Option<MakeFault>,
) -> Result<(), Fail> {
    let fault = fault_of(alloc, config, files)?;
    assert_eq!(rt; fault, wanted, "{config}");
    Ok(())
}

#[test]
fn a_file_opens_once_where_it_is_whole_blocks(rt: HostRuntime) -> Result<(), Fail> {
    let alloc = rt.alloc();
    let img = "tcm-user/0/d0/file/img";
    let none = "tcm-user/0/d0/file/none";
    for &(size, first) in openings() {
        let mut files = files_with(alloc, size, &[])?;
        assert_fault(&rt, alloc, none, &mut files, Some(MakeFault::Open))?;
        assert_fault(&rt, alloc, img, &mut files, first)?;
        assert_fault(&rt, alloc, img, &mut files, Some(MakeFault::Open))?;
        assert_fault(&rt, alloc, "tcm-user/0/d0/mem/1", &mut files, None)?;
    }
    Ok(())
}
