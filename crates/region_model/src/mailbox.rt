//! The mailbox at the head of a region, and what may be wrong with one.
use thiserror::Error;

/// The fields of a mailbox (the kernel's tcmu-design, "The Mailbox"): version and flags, then the place and the size of the command
/// ring, both in bytes, and the head and the tail, which are byte offsets in the ring.
#[derive(Clone, Copy, Debug, PartialEq, Eq)]
pub struct Mailbox {
    /// At byte 0; 2, or the bytes do not read as a mailbox.
    pub version: u16,
    /// At byte 2; bit 0 completions in any order, bit 1 read lengths, bit 2 task management.
    pub flags: u16,
    /// At byte 4: where the ring begins, from the region's start; 128.
    pub cmdr_off: u32,
    /// At byte 8, in bytes: a multiple of 4096, 4096 to 4,194,304.
    pub cmdr_size: u32,
    /// At byte 12: `cmd_head`, a multiple of 8 below `cmdr_size`, moved by the target alone.
    pub head: u32,
    /// At byte 64: `cmd_tail`, a multiple of 8 below `cmdr_size`, moved by the user side alone.
    pub tail: u32,
}

/// The first rule that bytes break which are read as a mailbox. Each variant has the number that breaks it.
#[derive(Clone, Copy, Debug, PartialEq, Eq, Error)]
pub enum MailboxFault {
    /// There are so many bytes, fewer than the 128 of a mailbox.
    #[error("{0} bytes are no mailbox, which has 128")]
    Short(u64),
    /// The version is not 2.
    #[error("the version is {0}, not 2")]
    Version(u16),
    /// The ring does not begin at byte 128.
    #[error("the ring begins at byte {0}, not 128")]
    Offset(u32),
    /// The ring's size is no multiple of 4096 from 4096 to 4,194,304.
    #[error("a ring has no {0} bytes")]
    Size(u32),
    /// The head, or else the tail, is no multiple of 8.
    #[error("the ring offset {0} is no multiple of 8")]
    Unaligned(u32),
    /// The head, or else the tail, is not below the ring's size.
    #[error("the ring offset {0} is past the ring's end")]
    OutOfRing(u32),
}
