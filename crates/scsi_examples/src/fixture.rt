//! Engines over media in memory, and what is asserted of their answers.
use crate::requests::{Outcome, ask, filled, is_block_of};
use block_engine::Engine;
use media::MemMedium;
use std::alloc::Global;
use std::process::Abort;
use std::test::Fail;
use tcmu_types::Name;

/// An engine over a medium in memory.
pub type Disk = Engine<MemMedium>;

/// A command, how many zeros go with it, how many bytes may come back, and how it ends.
pub type Case = (&'static str, usize, u32, Outcome);

/// A disk of so many logical blocks of zeros, one at least.
pub fn disk(alloc: Global, blocks: u32) -> Result<Disk, Fail> {
    let name = Name::new("d0").ok_or("a name")?;
    let medium = MemMedium::new(alloc, if blocks == 0 { 1 } else { blocks })?;
    Ok(Engine::new(name, medium))
}

/// Asserts how a command ends that sends these bytes and asks for none.
pub fn assert_ends(
    rt: &impl Abort,
    alloc: Global,
    disk: &mut Disk,
    cdb: &str,
    sent: &[u8],
    wanted: Outcome,
) -> Result<(), Fail> {
    let reply = ask(alloc, disk, cdb, sent, 0)?;
    assert_eq!(rt; Outcome::of(&reply), wanted, "{cdb}");
    Ok(())
}

/// Asserts that a READ(10) of logical block 3 gives this byte throughout.
pub fn assert_reads(rt: &impl Abort, alloc: Global, disk: &mut Disk, byte: u8) -> Result<(), Fail> {
    let reply = ask(alloc, disk, "28000000000300000100", &[], 512)?;
    let whole = is_block_of(reply.payload.as_slice(), byte);
    assert!(rt; whole, "a block of {byte:#04x}");
    Ok(())
}

/// Asks a disk each command, and asserts that it ends as its case says.
pub fn assert_each(
    rt: &impl Abort,
    alloc: Global,
    disk: &mut Disk,
    cases: &[Case],
) -> Result<(), Fail> {
    for &(cdb, sent, in_len, wanted) in cases {
        let sent = filled(alloc, 0, sent)?;
        let reply = ask(alloc, disk, cdb, &sent, in_len)?;
        assert_eq!(rt; Outcome::of(&reply), wanted, "{cdb}");
    }
    Ok(())
}
