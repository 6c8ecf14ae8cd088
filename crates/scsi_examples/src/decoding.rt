//! The table of operation codes by example, with values from SPC-4 and SBC-3.
use cdb_decode::{CdbFault, Op, decode};
use std::test::Fail;
use tcmu_types::Cdb;

/// What the block of these bytes asks, where they are a block.
fn decoded(bytes: &[u8]) -> Option<Result<Op, CdbFault>> {
    Cdb::new(bytes).ok().map(|cdb| decode(&cdb))
}

/// Why the block of these bytes asks nothing.
fn fault(bytes: &[u8]) -> Option<CdbFault> {
    decoded(bytes)?.err()
}

/// The fault of the block that these bytes begin, followed by zeros.
fn padded_fault(code: u8, one: u8, two: u8, three: u8) -> Option<CdbFault> {
    let block = [code, one, two, three, 0, 0, 0, 0, 0, 0, 0, 0, 0, 0, 0, 0];
    fault(&block[..6])
        .or(fault(&block[..10]))
        .or(fault(&block[..12]))
        .or(fault(&block))
}

/// A block, and the operation that it asks.
type Row = (&'static [u8], Op);

/// Blocks of 6 bytes.
const SIX: [Row; 7] = [
    (&[0x00, 0, 0, 0, 0, 0], Op::TestUnitReady),
    (&[0x03, 0xfe, 0, 0, 18, 0], Op::RequestSense { limit: 18 }),
    (
        &[0x08, 0xff, 0x12, 0x34, 0, 0],
        Op::Read {
            lba: 0x1f_1234,
            count: 256,
        },
    ),
    (
        &[0x0a, 0xff, 0x12, 0x34, 255, 0],
        Op::Write {
            lba: 0x1f_1234,
            count: 255,
        },
    ),
    (
        &[0x12, 0, 0, 1, 2, 0],
        Op::Inquiry {
            page: None,
            limit: 258,
        },
    ),
    (
        &[0x12, 1, 0xb0, 0, 64, 0],
        Op::Inquiry {
            page: Some(0xb0),
            limit: 64,
        },
    ),
    (
        &[0x1a, 8, 0x3f, 0, 192, 0],
        Op::ModeSense {
            page: 0x3f,
            limit: 192,
        },
    ),
];

/// Blocks of 10 bytes.
const TEN: [Row; 6] = [
    (&[0x25, 0, 0, 0, 0, 0, 0, 0, 0, 0], Op::Capacity10),
    (
        &[0x28, 0x1f, 1, 2, 3, 4, 0, 5, 6, 0],
        Op::Read {
            lba: 0x0102_0304,
            count: 0x0506,
        },
    ),
    (
        &[0x2a, 0, 0, 0, 0, 4, 0, 0, 0, 0],
        Op::Write { lba: 4, count: 0 },
    ),
    (
        &[0x35, 0xff, 0, 0, 0, 4, 0, 0, 7, 0],
        Op::Sync { lba: 4, count: 7 },
    ),
    (
        &[0x41, 0xe0, 0, 0, 0, 4, 0, 8, 0, 0],
        Op::WriteSame {
            lba: 4,
            count: 2048,
        },
    ),
    (
        &[0x42, 0, 0, 0, 0, 0, 0, 1, 24, 0],
        Op::Unmap { length: 280 },
    ),
];

/// Blocks of 12 bytes.
const TWELVE: [Row; 3] = [
    (
        &[0xa0, 0, 2, 0, 0, 0, 0, 0, 1, 0, 0, 0],
        Op::ReportLuns {
            select: 2,
            limit: 256,
        },
    ),
    (
        &[0xa8, 0, 0, 0, 0, 1, 0, 1, 0, 0, 0, 0],
        Op::Read {
            lba: 1,
            count: 65_536,
        },
    ),
    (
        &[0xaa, 0, 0, 0, 0, 1, 0, 0, 0, 2, 0, 0],
        Op::Write { lba: 1, count: 2 },
    ),
];

/// Blocks of 16 bytes.
const SIXTEEN: [Row; 6] = [
    (
        &[0x88, 0, 0, 0, 0, 1, 0, 0, 0, 2, 0, 0, 0, 3, 0, 0],
        Op::Read {
            lba: 0x1_0000_0002,
            count: 3,
        },
    ),
    (
        &[0x8a, 0, 0, 0, 0, 1, 0, 0, 0, 2, 0, 0, 0, 3, 0, 0],
        Op::Write {
            lba: 0x1_0000_0002,
            count: 3,
        },
    ),
    (
        &[0x89, 0, 0, 0, 0, 0, 0, 0, 0, 2, 9, 9, 9, 255, 0, 0],
        Op::CompareWrite { lba: 2, count: 255 },
    ),
    (
        &[0x91, 0, 0, 0, 0, 0, 0, 0, 0, 2, 0, 0, 0, 0, 0, 0],
        Op::Sync { lba: 2, count: 0 },
    ),
    (
        &[0x93, 0, 0, 0, 0, 0, 0, 0, 0, 2, 0, 0, 0, 1, 0, 0],
        Op::WriteSame { lba: 2, count: 1 },
    ),
    (
        &[0x9e, 0x10, 0, 0, 0, 0, 0, 0, 0, 0, 0, 0, 0, 32, 0, 0],
        Op::Capacity16 { limit: 32 },
    ),
];

#[test]
fn each_operation_that_is_served(rt: HostRuntime) -> Result<(), Fail> {
    let tables: [&[Row]; 4] = [&SIX, &TEN, &TWELVE, &SIXTEEN];
    for table in tables {
        for &(block, op) in table {
            assert_eq!(rt; decoded(block), Some(Ok(op)), "{block:?}");
        }
    }
    Ok(())
}

#[test]
fn operation_codes_that_are_not_served(rt: HostRuntime) -> Result<(), Fail> {
    for code in [0x1d, 0x2f, 0x5e, 0x5f, 0x7f, 0x9f, 0xa3, 0xff] {
        let fault = padded_fault(code, 0, 0, 0);
        assert_eq!(rt; fault, Some(CdbFault::Opcode(code)), "{code}");
    }
    Ok(())
}

/// The first four bytes of a block, and the byte of the first field that breaks its rule.
const BROKEN: [(u8, u8, u8, u8, u8); 20] = [
    (0x03, 0x01, 0x00, 0x00, 1),
    (0x12, 0x00, 0x80, 0x00, 2),
    (0x12, 0x01, 0x81, 0x00, 2),
    (0x1a, 0x00, 0x07, 0x01, 2),
    (0x1a, 0x00, 0x48, 0x00, 2),
    (0x1a, 0x00, 0x0a, 0x01, 3),
    (0x28, 0x20, 0x00, 0x00, 1),
    (0x2a, 0x80, 0x00, 0x00, 1),
    (0x41, 0x10, 0x00, 0x00, 1),
    (0x41, 0x00, 0x00, 0x00, 7),
    (0x42, 0x01, 0x00, 0x00, 1),
    (0xa0, 0x00, 0x03, 0x00, 2),
    (0xa8, 0x40, 0x00, 0x00, 1),
    (0xaa, 0x20, 0x00, 0x00, 1),
    (0x88, 0x20, 0x00, 0x00, 1),
    (0x89, 0x20, 0x00, 0x00, 1),
    (0x8a, 0x20, 0x00, 0x00, 1),
    (0x93, 0x01, 0x00, 0x00, 1),
    (0x93, 0x00, 0x00, 0x00, 10),
    (0x9e, 0x11, 0x00, 0x00, 1),
];

#[test]
fn fields_that_break_their_rules(rt: HostRuntime) -> Result<(), Fail> {
    for (code, one, two, three, at) in BROKEN {
        let fault = padded_fault(code, one, two, three);
        assert_eq!(rt; fault, Some(CdbFault::Field(at)), "{code}");
    }
    let too_many = fault(&[0x41, 0, 0, 0, 0, 0, 0, 8, 1, 0]);
    assert_eq!(rt; too_many, Some(CdbFault::Field(7)));
    Ok(())
}
