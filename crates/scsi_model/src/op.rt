//! What command descriptor blocks ask, and how much they may ask for.
use thiserror::Error;

/// MAXIMUM WRITE SAME LENGTH (SBC-3), in logical blocks.
pub const MAXIMUM_WRITE_SAME_LENGTH: u32 = 2048;

/// MAXIMUM UNMAP LBA COUNT (SBC-3): the most logical blocks of one UNMAP.
pub const MAXIMUM_UNMAP_LBA_COUNT: u32 = 32_768;

/// MAXIMUM UNMAP BLOCK DESCRIPTOR COUNT (SBC-3): the most ranges of one UNMAP.
pub const MAXIMUM_UNMAP_DESCRIPTOR_COUNT: u32 = 256;

/// The operations that are served (SPC-4, SBC-3). Addresses and counts are in logical blocks of 512 bytes, limits and lengths in
/// bytes; a limit is the allocation length, to which the answer is cut.
#[derive(Clone, Copy, Debug, PartialEq, Eq)]
pub enum Op {
    TestUnitReady,
    RequestSense { limit: u32 },
    /// `page` is None for the standard data.
    Inquiry { page: Option<u8>, limit: u32 },
    ModeSense { page: u8, limit: u32 },
    Capacity10,
    Capacity16 { limit: u32 },
    /// `select` is the field SELECT REPORT.
    ReportLuns { select: u8, limit: u32 },
    Read { lba: u64, count: u32 },
    Write { lba: u64, count: u32 },
    /// SYNCHRONIZE CACHE.
    Sync { lba: u64, count: u32 },
    WriteSame { lba: u64, count: u32 },
    /// `length` is the length of the parameter list.
    Unmap { length: u32 },
    CompareWrite { lba: u64, count: u32 },
}

/// Why a command descriptor block asks nothing that is served.
#[derive(Clone, Copy, Debug, PartialEq, Eq, Error)]
pub enum CdbFault {
    /// The operation code is not served.
    #[error("operation code {0:02x}h is not served")]
    Opcode(u8),
    /// This byte is the lowest one with a field that breaks its rule.
    #[error("byte {0} holds an invalid field")]
    Field(u8),
}

/// A range of logical blocks.
#[derive(Clone, Copy, Debug, PartialEq, Eq)]
pub struct Extent {
    pub lba: u64,
    pub count: u32,
}
