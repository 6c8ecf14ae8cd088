//! Entries of the command ring as they are read, and what may be wrong with one.
use tcmu_types::Cdb;
use thiserror::Error;

/// What an entry reads as (the kernel's tcmu-design, "The Command Ring"): padding, a command with the number of its iovecs, or task
/// management of a type with the number of its ids. `len` is its length in bytes, a multiple of 8.
#[derive(Debug, Drop)]
pub enum EntryRef {
    Pad {
        len: u32,
    },
    /// `id` is the entry's `cmd_id`, at byte 4.
    Cmd {
        len: u32,
        id: u16,
        iov_cnt: u32,
        cdb: Cdb,
    },
    /// `kind` is byte 8 as it stands, the type (the kernel's `TCMU_TMR_*`).
    Tmr {
        len: u32,
        kind: u8,
        count: u32,
    },
    /// An opcode of 3 to 7.
    Unknown {
        op: u8,
        len: u32,
    },
}

/// The first rule that an entry breaks.
#[derive(Clone, Copy, Debug, PartialEq, Eq, Error)]
pub enum EntryFault {
    /// The length is below the least of its kind: 112 bytes for a command, 32 for a task management entry, and 8 for any other.
    #[error("an entry of its kind has more than {0} bytes")]
    BadLength(u32),
    /// The entry passes the limit: the head where that is above its place, or else the ring's end. Both in bytes from its place.
    #[error("the entry has {len} bytes, and {limit} are there")]
    PastEnd { len: u32, limit: u32 },
    /// This count breaks a rule: the iovecs leave no byte behind them, there are bidirectional iovecs or protection iovecs, or the
    /// ids of a task management entry pass its end.
    #[error("the entry has no room for a count of {0}, or the count must be 0")]
    BadCount(u32),
    /// The command descriptor block at this offset from the region's start does not lie in the entry, behind the iovecs.
    #[error("the command descriptor block at byte {0} is not in the entry")]
    CdbOutside(u64),
    /// The first iovec, by its number, that does not lie in the data area.
    #[error("iovec {0} is not in the data area")]
    IovOutside(u32),
}

/// A response in a command's entry (the kernel's `struct tcmu_cmd_entry`): the command's id, the flags (1 for an unknown operation, 2
/// where `read_len` is set), the status (SAM-5), how many bytes were read, and the sense buffer.
#[derive(Clone, Copy, Debug, PartialEq, Eq)]
pub struct Response {
    /// `cmd_id` of the entry that is answered, at byte 4.
    pub id: u16,
    /// Byte 7 of the entry: bit 0 `TCMU_UFLAG_UNKNOWN_OP`, bit 1 `TCMU_UFLAG_READ_LEN`.
    pub uflags: u8,
    /// `scsi_status`, byte 8 of the entry (SAM-5, 5.3).
    pub status: u8,
    /// In bytes, at byte 12 of the entry; it tells something where `uflags` has bit 1.
    pub read_len: u32,
    /// `sense_buffer`, from byte 16 of the entry on; of fixed format (SPC-4, 4.5.3) with CHECK CONDITION.
    pub sense: [u8; 96],
}
