//! Each form of a command at its last range, one block past it, and with a count of 0; the limits of WRITE SAME and of UNMAP's lists.
use crate::fixture::{Case, Disk, assert_each, assert_ends, assert_reads, disk};
use crate::requests::{
    FIELD, GOOD, LIST_FIELD, LIST_LENGTH, OPERATION_CODE, Outcome, RANGE, bytes_of, filled,
};
use std::alloc::Global;
use std::process::Abort;
use std::test::Fail;

/// An UNMAP, its parameter list, and how it ends.
type ListCase = (&'static str, &'static str, Outcome);

/// On 256 logical blocks: commands that answer bytes, and some that are not served.
const ANSWERS_AT_LIMITS: [Case; 25] = [
    // READ(6)
    ("080000000000", 0, 131_072, GOOD),
    ("080000010000", 0, 131_072, RANGE),
    ("08e000000100", 0, 512, GOOD),
    // READ(10)
    ("2800000000ff00000100", 0, 512, GOOD),
    ("28000000010000000100", 0, 512, RANGE),
    // READ(12)
    ("a80000000101000000000000", 0, 512, RANGE),
    // READ(16)
    ("88000000000000000100000000010000", 0, 512, RANGE),
    ("88000000000000000101000000000000", 0, 512, RANGE),
    // REQUEST SENSE
    ("03fe00001200", 0, 18, GOOD),
    // INQUIRY
    ("12fe00002400", 0, 36, GOOD),
    ("120100002400", 0, 36, GOOD),
    ("120180002400", 0, 36, GOOD),
    ("1201b0004000", 0, 64, GOOD),
    // MODE SENSE(6)
    ("1a000a002400", 0, 36, GOOD),
    ("1a003f002400", 0, 36, GOOD),
    ("1a0048002400", 0, 36, FIELD),
    ("1a0088002400", 0, 36, FIELD),
    // READ CAPACITY(16)
    ("9ef00000000000000000000000200000", 0, 32, GOOD),
    ("9e000000000000000000000000200000", 0, 32, FIELD),
    // REPORT LUNS
    ("a00001000000000000100000", 0, 16, GOOD),
    ("a00002000000000000100000", 0, 16, GOOD),
    // Codes that are not served.
    ("040000000000", 0, 0, OPERATION_CODE),
    ("5a003f00000000002400", 0, 36, OPERATION_CODE),
    ("7f000000000000000000000000000000", 0, 0, OPERATION_CODE),
    ("a30000000000000000100000", 0, 16, OPERATION_CODE),
];

/// On 256 logical blocks: commands that take bytes, or none.
const CALLS_AT_LIMITS: [Case; 18] = [
    // WRITE(6)
    ("0a0000000000", 131_072, 0, GOOD),
    ("0a0000000000", 512, 0, FIELD),
    ("0a0000010000", 131_072, 0, RANGE),
    ("0ae000000100", 512, 0, GOOD),
    // WRITE(10)
    ("2a00000000ff00000100", 512, 0, GOOD),
    ("2a000000010000000100", 512, 0, RANGE),
    // WRITE(12)
    ("aa0000000101000000000000", 0, 0, RANGE),
    // WRITE(16)
    ("8a000000000000000100000000000000", 0, 0, GOOD),
    // SYNCHRONIZE CACHE(10)
    ("3500000000ff00000100", 0, 0, GOOD),
    ("35000000010000000100", 0, 0, RANGE),
    ("35000000010100000000", 0, 0, RANGE),
    // SYNCHRONIZE CACHE(16)
    ("910000000000000000ff000000010000", 0, 0, GOOD),
    ("91000000000000000100000000010000", 0, 0, RANGE),
    // WRITE SAME(16)
    ("93000000000000000000000000010000", 1_024, 0, FIELD),
    // COMPARE AND WRITE
    ("890000000000000000fe000000020000", 2_048, 0, GOOD),
    ("89000000000000000101000000000000", 0, 0, RANGE),
    ("89000000000000000000000000000000", 512, 0, FIELD),
    // Codes that are not served.
    ("5f000000000000001800", 24, 0, OPERATION_CODE),
];

/// On 2048 logical blocks: the counts of WRITE SAME.
const COUNTS_OF_WRITE_SAME: [Case; 8] = [
    // WRITE SAME(10)
    ("41000000000000080000", 512, 0, GOOD),
    ("41000000000000080100", 512, 0, FIELD),
    ("41000000000100080000", 512, 0, RANGE),
    ("41000000000000000000", 512, 0, FIELD),
    // WRITE SAME(16)
    ("93000000000000000000000008000000", 512, 0, GOOD),
    ("93000000000000000000000008010000", 512, 0, FIELD),
    ("93000000000000000001000008000000", 512, 0, RANGE),
    ("93000000000000000000000000000000", 512, 0, FIELD),
];

/// On 64 logical blocks: the head of a list is 8 bytes, each descriptor 16.
const UNMAP_LISTS: [ListCase; 17] = [
    ("42000000000000000100", "00", LIST_LENGTH),
    ("42000000000000000700", "00050000000000", LIST_LENGTH),
    ("42000000000000000800", "0006000000000000", GOOD),
    ("42000000000000000800", "0007000000000000", LIST_FIELD),
    ("42000000000000000800", "0006000100000000", LIST_FIELD),
    (
        "42000000000000001700",
        "0015000f00000000000000000000004100000001000000",
        GOOD,
    ),
    (
        "42000000000000001800",
        "0016001000000000000000000000003f0000000100000000",
        GOOD,
    ),
    (
        "42000000000000001800",
        "0016001000000000000000000000003f0000000200000000",
        RANGE,
    ),
    (
        "42000000000000001800",
        "001600100000000000000000000000400000000000000000",
        GOOD,
    ),
    (
        "42000000000000001800",
        "001600100000000000000000000000410000000000000000",
        RANGE,
    ),
    (
        "42000000000000001800",
        "0017001000000000000000000000003f0000000100000000",
        LIST_FIELD,
    ),
    (
        "42000000000000001800",
        "0016001100000000000000000000003f0000000100000000",
        LIST_FIELD,
    ),
    (
        "42000000000000001800",
        "001600100000000000000000000000000000800000000000",
        RANGE,
    ),
    (
        "42000000000000001800",
        "001600100000000000000000000000000000800100000000",
        LIST_FIELD,
    ),
    (
        "42000000000000001800",
        "00160010000000000000000000000000ffffffff00000000",
        LIST_FIELD,
    ),
    (
        "42000000000000002800",
        "00260020000000000000000000000000000040000000000000000000000000000000400000000000",
        RANGE,
    ),
    (
        "42000000000000002800",
        "00260020000000000000000000000000000040000000000000000000000000000000400100000000",
        LIST_FIELD,
    ),
];

fn answers_at_limits() -> &'static [Case] {
    &ANSWERS_AT_LIMITS
}

fn calls_at_limits() -> &'static [Case] {
    &CALLS_AT_LIMITS
}

fn counts_of_write_same() -> &'static [Case] {
    &COUNTS_OF_WRITE_SAME
}

fn unmap_lists() -> &'static [ListCase] {
    &UNMAP_LISTS
}

#[test]
fn answers_at_their_limits(rt: HostRuntime) -> Result<(), Fail> {
    let alloc = rt.alloc();
    let mut disk = disk(alloc, 256)?;
    assert_each(&rt, alloc, &mut disk, answers_at_limits())
}

#[test]
fn calls_at_their_limits(rt: HostRuntime) -> Result<(), Fail> {
    let alloc = rt.alloc();
    let mut disk = disk(alloc, 256)?;
    assert_each(&rt, alloc, &mut disk, calls_at_limits())
}

#[test]
fn write_same_is_of_2048_blocks_at_most(rt: HostRuntime) -> Result<(), Fail> {
    let alloc = rt.alloc();
    let mut disk = disk(alloc, 2_048)?;
    assert_each(&rt, alloc, &mut disk, counts_of_write_same())
}

/// Asserts how an UNMAP ends, its parameter list in hexadecimal digits.
fn assert_unmap(
    rt: &impl Abort,
    alloc: Global,
    disk: &mut Disk,
    cdb: &str,
    list: &str,
    wanted: Outcome,
) -> Result<(), Fail> {
    let list = bytes_of(alloc, list)?;
    assert_ends(rt, alloc, disk, cdb, &list, wanted)
}

#[test]
fn an_unmap_list_is_checked_before_ranges(rt: HostRuntime) -> Result<(), Fail> {
    let alloc = rt.alloc();
    let mut disk = disk(alloc, 64)?;
    for &(cdb, list, wanted) in unmap_lists() {
        assert_unmap(&rt, alloc, &mut disk, cdb, list, wanted)?;
    }
    Ok(())
}

/// A parameter list of a head and so many descriptors of no block.
fn list_of(alloc: Global, head: &[u8], count: u16) -> Result<Vec<u8>, Fail> {
    let mut list = Vec::new(alloc);
    list.extend_from_slice(head)?;
    list.resize(8 + 16 * count as usize, 0)?;
    Ok(list)
}

#[test]
fn an_unmap_list_has_256_descriptors_at_most(rt: HostRuntime) -> Result<(), Fail> {
    let alloc = rt.alloc();
    let mut disk = disk(alloc, 64)?;
    let most = list_of(alloc, b"\x10\x06\x10\x00", 256)?;
    assert_ends(&rt, alloc, &mut disk, "42000000000000100800", &most, GOOD)?;
    let more = list_of(alloc, b"\x10\x16\x10\x10", 257)?;
    assert_ends(
        &rt,
        alloc,
        &mut disk,
        "42000000000000101800",
        &more,
        LIST_FIELD,
    )
}

#[test]
fn an_unmap_out_of_range_changes_nothing(rt: HostRuntime) -> Result<(), Fail> {
    let alloc = rt.alloc();
    let mut disk = disk(alloc, 64)?;
    let sent = filled(alloc, 0x5a, 512)?;
    assert_ends(&rt, alloc, &mut disk, "2a000000000300000100", &sent, GOOD)?;
    assert_reads(&rt, alloc, &mut disk, 0x5a)?;
    let one_in_range =
        "00260020000000000000000000000003000000010000000000000000000000400000000100000000";
    assert_unmap(
        &rt,
        alloc,
        &mut disk,
        "42000000000000002800",
        one_in_range,
        RANGE,
    )?;
    assert_reads(&rt, alloc, &mut disk, 0x5a)
}
