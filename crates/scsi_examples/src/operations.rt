//! Each operation with the outcomes of its rules, and what is then read (SPC-4, SBC-3).
use crate::fixture::{Case, Disk, assert_each, assert_ends, assert_reads, disk};
use crate::requests::{
    FIELD, GOOD, LIST_LENGTH, MISCOMPARE, OPERATION_CODE, RANGE, ask, bytes_of, filled,
};
use handler_trait::Medium;
use std::alloc::Global;
use std::process::Abort;
use std::test::Fail;
use tcmu_types::Bytes;

/// One case at least of each kind of answer.
const OPERATIONS: [Case; 28] = [
    // TEST UNIT READY
    ("000000000000", 0, 0, GOOD),
    // Codes that are not served.
    ("ff000000000000000000000000000000", 0, 0, OPERATION_CODE),
    ("5e000000000000000000", 0, 64, OPERATION_CODE),
    // READ(10)
    ("28000000003f00000100", 0, 512, GOOD),
    ("28000000003f00000200", 0, 1024, RANGE),
    ("28000000004000000000", 0, 512, GOOD),
    ("28000000004100000000", 0, 512, RANGE),
    ("28200000000000000100", 0, 512, FIELD),
    // READ(16)
    ("88ffffffffffffffffff000000010000", 0, 512, FIELD),
    ("8800ffffffffffffffff000000010000", 0, 512, RANGE),
    // WRITE(10)
    ("2a000000000000000100", 511, 0, FIELD),
    ("2a000000003f00000100", 512, 0, GOOD),
    ("2a000000004000000100", 512, 0, RANGE),
    ("2a000000004000000000", 0, 0, GOOD),
    ("2a000000004100000000", 0, 0, RANGE),
    // SYNCHRONIZE CACHE(10)
    ("35000000004000000000", 0, 0, GOOD),
    ("35000000003f00000200", 0, 0, RANGE),
    // WRITE SAME(10)
    ("41000000003f00000100", 512, 0, GOOD),
    ("41000000003f00000100", 1024, 0, FIELD),
    ("41000000003f00000000", 512, 0, FIELD),
    ("41000000003f00000200", 512, 0, RANGE),
    // COMPARE AND WRITE
    ("89000000000000000040000000000000", 0, 0, GOOD),
    ("8900000000000000003f000000010000", 1024, 0, GOOD),
    ("8900000000000000003f000000010000", 512, 0, FIELD),
    ("89000000000000000040000000010000", 1024, 0, RANGE),
    // UNMAP
    ("42000000000000000000", 0, 0, GOOD),
    ("42000000000000000700", 7, 0, LIST_LENGTH),
    ("42000000000000001800", 23, 0, FIELD),
];

/// Each form that answers bytes.
const ANSWERING: [Case; 25] = [
    // READ(6)
    ("080000000100", 0, 512, GOOD),
    ("0800003f0100", 0, 512, GOOD),
    ("080000400100", 0, 512, RANGE),
    ("080000000000", 0, 512, RANGE),
    // READ(12)
    ("a8000000003f000000010000", 0, 512, GOOD),
    ("a80000000040000000010000", 0, 512, RANGE),
    ("a80000000040000000000000", 0, 512, GOOD),
    ("a82000000000000000010000", 0, 512, FIELD),
    // READ(16)
    ("8800000000000000003f000000010000", 0, 512, GOOD),
    ("88000000000000000040000000000000", 0, 512, GOOD),
    ("88200000000000000000000000010000", 0, 512, FIELD),
    // REQUEST SENSE
    ("030000001200", 0, 18, GOOD),
    ("030100001200", 0, 18, FIELD),
    // INQUIRY
    ("120000002400", 0, 36, GOOD),
    ("120001002400", 0, 36, FIELD),
    ("120183002400", 0, 36, GOOD),
    ("1201b1002400", 0, 36, FIELD),
    // MODE SENSE(6)
    ("1a0008002400", 0, 36, GOOD),
    ("1a0009002400", 0, 36, FIELD),
    ("1a0008012400", 0, 36, FIELD),
    // READ CAPACITY(10)
    ("25000000000000000000", 0, 8, GOOD),
    // READ CAPACITY(16)
    ("9e100000000000000000000000200000", 0, 32, GOOD),
    ("9e110000000000000000000000200000", 0, 32, FIELD),
    // REPORT LUNS
    ("a00000000000000000100000", 0, 16, GOOD),
    ("a00003000000000000100000", 0, 16, FIELD),
];

/// Each form that takes bytes, or none.
const TAKING: [Case; 25] = [
    // WRITE(6)
    ("0a00003f0100", 512, 0, GOOD),
    ("0a0000400100", 512, 0, RANGE),
    ("0a0000000100", 511, 0, FIELD),
    ("0a0000000000", 0, 0, FIELD),
    // WRITE(10)
    ("2a200000000000000100", 512, 0, FIELD),
    // WRITE(12)
    ("aa000000003f000000010000", 512, 0, GOOD),
    ("aa0000000040000000010000", 512, 0, RANGE),
    ("aa0000000000000000010000", 513, 0, FIELD),
    ("aa2000000000000000010000", 512, 0, FIELD),
    ("aa0000000040000000000000", 0, 0, GOOD),
    // WRITE(16)
    ("8a00000000000000003f000000010000", 512, 0, GOOD),
    ("8a000000000000000040000000010000", 512, 0, RANGE),
    ("8a000000000000000000000000010000", 0, 0, FIELD),
    ("8a200000000000000000000000010000", 512, 0, FIELD),
    ("8a000000000000000041000000000000", 0, 0, RANGE),
    // SYNCHRONIZE CACHE(16)
    ("91000000000000000040000000000000", 0, 0, GOOD),
    ("91000000000000000041000000000000", 0, 0, RANGE),
    // WRITE SAME(10)
    ("41010000000000000100", 512, 0, FIELD),
    // WRITE SAME(16)
    ("9300000000000000003f000000010000", 512, 0, GOOD),
    ("93000000000000000040000000010000", 512, 0, RANGE),
    ("93000000000000000000000000000000", 512, 0, FIELD),
    ("93010000000000000000000000010000", 512, 0, FIELD),
    ("93000000000000000000000000010000", 511, 0, FIELD),
    // COMPARE AND WRITE
    ("89200000000000000000000000010000", 1024, 0, FIELD),
    // UNMAP
    ("42010000000000001800", 24, 0, FIELD),
];

/// A command of no data, how many bytes may come back, and how many do.
type CutCase = (&'static str, u32, usize);

/// On 8192 logical blocks.
const CUT: [CutCase; 10] = [
    // INQUIRY
    ("120000002400", 64, 36),
    ("120000000500", 64, 5),
    ("120000002400", 8, 8),
    // REQUEST SENSE
    ("030000001200", 64, 18),
    // INQUIRY
    ("12018300ff00", 64, 18),
    // MODE SENSE(6)
    ("1a003f00ff00", 64, 36),
    // REPORT LUNS
    ("a00000000000000000100000", 64, 16),
    // READ CAPACITY(10)
    ("25000000000000000000", 64, 8),
    // READ(10)
    ("28000000000000000200", 700, 700),
    ("28000000000000000200", 4_096, 1_024),
];

fn operations() -> &'static [Case] {
    &OPERATIONS
}

fn answering() -> &'static [Case] {
    &ANSWERING
}

fn taking() -> &'static [Case] {
    &TAKING
}

fn cut() -> &'static [CutCase] {
    &CUT
}

#[test]
fn each_operation_at_the_edges_of_its_rules(rt: HostRuntime) -> Result<(), Fail> {
    let alloc = rt.alloc();
    let mut disk = disk(alloc, 64)?;
    assert_each(&rt, alloc, &mut disk, operations())?;
    assert_eq!(rt; disk.into_medium().blocks(), 64);
    Ok(())
}

#[test]
fn each_form_that_answers_bytes(rt: HostRuntime) -> Result<(), Fail> {
    let alloc = rt.alloc();
    let mut disk = disk(alloc, 64)?;
    assert_each(&rt, alloc, &mut disk, answering())
}

#[test]
fn each_form_that_takes_bytes(rt: HostRuntime) -> Result<(), Fail> {
    let alloc = rt.alloc();
    let mut disk = disk(alloc, 64)?;
    assert_each(&rt, alloc, &mut disk, taking())
}

#[test]
fn what_is_written_is_read_until_it_is_unmapped(rt: HostRuntime) -> Result<(), Fail> {
    let alloc = rt.alloc();
    let mut disk = disk(alloc, 64)?;
    let sent = filled(alloc, 0x5a, 512)?;
    assert_ends(&rt, alloc, &mut disk, "2a000000000300000100", &sent, GOOD)?;
    assert_reads(&rt, alloc, &mut disk, 0x5a)?;
    let list = bytes_of(alloc, "001600100000000000000000000000030000000100000000")?;
    assert_ends(&rt, alloc, &mut disk, "42000000000000001800", &list, GOOD)?;
    assert_reads(&rt, alloc, &mut disk, 0)
}

#[test]
fn other_bytes_than_those_on_the_disk_miscompare(rt: HostRuntime) -> Result<(), Fail> {
    let alloc = rt.alloc();
    let mut disk = disk(alloc, 64)?;
    let sent = filled(alloc, 0x01, 1_024)?;
    let cdb = "89000000000000000003000000010000";
    assert_ends(&rt, alloc, &mut disk, cdb, &sent, MISCOMPARE)?;
    assert_reads(&rt, alloc, &mut disk, 0)
}

/// Asserts how many bytes a command answers.
fn assert_answered(
    rt: &impl Abort,
    alloc: Global,
    disk: &mut Disk,
    cdb: &str,
    in_len: u32,
    wanted: usize,
) -> Result<(), Fail> {
    let reply = ask(alloc, disk, cdb, &[], in_len)?;
    assert_eq!(rt; reply.payload.len(), wanted, "{cdb}");
    Ok(())
}

#[test]
fn answers_are_cut_to_both_lengths(rt: HostRuntime) -> Result<(), Fail> {
    let alloc = rt.alloc();
    let mut disk = disk(alloc, 8_192)?;
    for &(cdb, in_len, wanted) in cut() {
        assert_answered(&rt, alloc, &mut disk, cdb, in_len, wanted)?;
    }
    Ok(())
}

/// The answer to READ CAPACITY(16).
fn capacity(alloc: Global, disk: &mut Disk) -> Result<Bytes, Fail> {
    let reply = ask(alloc, disk, "9e100000000000000000000000200000", &[], 32)?;
    Ok(reply.payload)
}

#[test]
fn the_capacity_names_the_last_block(rt: HostRuntime) -> Result<(), Fail> {
    let alloc = rt.alloc();
    let mut disk = disk(alloc, 8_192)?;
    let data = capacity(alloc, &mut disk)?;
    let data = data.as_slice();
    assert!(rt; data.starts_with(b"\x00\x00\x00\x00\x00\x00\x1f\xff\x00\x00\x02\x00"));
    Ok(())
}
