//! Examples of a device's events: the calls with their answers, and what is logged after them.
pub mod answers;
pub mod expiry;
pub mod lengths;
pub mod notes;
pub mod orders;
pub mod resets;
pub mod room;
pub mod sent;
pub mod user_side;
pub mod waits;

use crate::rows::{Call, Finished, Told};
use expiry::{EXPIRED_BLOCKS, EXPIRED_BLOCKS_LOG, LATE, LATE_LOG, NO_TIMEOUT};
use lengths::{BLOCK_AGAIN, BLOCK_AGAIN_CUT_LOG, BLOCK_AGAIN_LOG};
use notes::{NO_NOTES, NOTES, NOTES_LOG, OPEN_NOTES, OPEN_NOTES_LOG};
use orders::{IN_ORDER, IN_ORDER_LOG, OUT_OF_ORDER, OUT_OF_ORDER_LOG};
use resets::{
    HARD_RESET, HARD_RESET_LOG, LAID, LAID_LOG, PARKED, PARKED_LOG, PUBLISHED, PUBLISHED_LOG,
    RESET, RESET_LOG,
};
use room::{
    MEBIBYTE_QUEUED, MEBIBYTE_REFUSED, ONE_BYTE_MORE, ONE_BYTE_MORE_LOG, TOO_MANY_BLOCKS,
    TOO_MANY_LONG_BLOCKS, TWO_PAGES, TWO_PAGES_LOG,
};
use user_side::DETACHED;
use waits::{
    DRAIN_ENTERS, DRAIN_ENTERS_LOG, ENTERS, ENTERS_LOG, LEAVES, LEAVES_LOG, LEFT_ALONE,
    LEFT_ALONE_LOG, STILL_WAITS, WAITS_FOR_HARD_RESET, WAITS_FOR_HARD_RESET_LOG, WAITS_FOR_RESET,
    WAITS_FOR_RESET_LOG,
};

/// The device that an example is made on: one of 16 data blocks of a page, with a ring of 4096 bytes and a timeout of 30 ticks, without
/// notes and without lengths of reads, that answers in any order; or one that differs from it.
#[derive(Clone, Copy)]
pub enum Device {
    Usual,
    /// It answers in order.
    InOrder,
    /// It has one data block, and a command waits for up to 5 ticks.
    Narrow,
    /// It is narrow, and answers in order.
    NarrowInOrder,
    /// Its timeout is of 5 ticks.
    Hasty,
    /// It has no timeout.
    Patient,
    /// It takes notes.
    Noting,
    /// A data block is of two pages.
    TwoPages,
    /// It tells the lengths of reads.
    Lengths,
    /// A ring of 8192 bytes and 256 data blocks.
    LongRing,
    /// A ring of 12,288 bytes and 256 data blocks.
    LongestRing,
}

/// What an example shows, the device that it is made on, its calls, and its completions.
#[derive(Clone, Copy)]
pub struct Example {
    pub name: &'static str,
    pub device: Device,
    pub calls: &'static [(Call, Told)],
    pub log: &'static [Finished],
}

/// How answers go, when a command's time is up, and what a note names.
pub const ANSWERS: [Example; 9] = [
    Example {
        name: "answers are placed as they come",
        device: Device::Usual,
        calls: &OUT_OF_ORDER,
        log: &OUT_OF_ORDER_LOG,
    },
    Example {
        name: "answers in order wait for earlier ones",
        device: Device::InOrder,
        calls: &IN_ORDER,
        log: &IN_ORDER_LOG,
    },
    Example {
        name: "an expired command holds its blocks",
        device: Device::Usual,
        calls: &EXPIRED_BLOCKS,
        log: &EXPIRED_BLOCKS_LOG,
    },
    Example {
        name: "a late answer gives the blocks back",
        device: Device::Hasty,
        calls: &LATE,
        log: &LATE_LOG,
    },
    Example {
        name: "without a timeout nothing expires",
        device: Device::Patient,
        calls: &NO_TIMEOUT,
        log: &[],
    },
    Example {
        name: "a note names no command that is answered",
        device: Device::Noting,
        calls: &NOTES,
        log: &NOTES_LOG,
    },
    Example {
        name: "a note names commands that are out or handled",
        device: Device::Noting,
        calls: &OPEN_NOTES,
        log: &OPEN_NOTES_LOG,
    },
    Example {
        name: "notes are off",
        device: Device::Usual,
        calls: &NO_NOTES,
        log: &[],
    },
    Example {
        name: "a user side that is gone answers nothing",
        device: Device::Usual,
        calls: &DETACHED,
        log: &[],
    },
];

/// What resets end.
pub const RESETS: [Example; 5] = [
    Example {
        name: "a reset waits for handlers",
        device: Device::Usual,
        calls: &RESET,
        log: &RESET_LOG,
    },
    Example {
        name: "a reset finishes what is published",
        device: Device::Usual,
        calls: &PUBLISHED,
        log: &PUBLISHED_LOG,
    },
    Example {
        name: "a reset of level 2 tells of a failed target",
        device: Device::Usual,
        calls: &HARD_RESET,
        log: &HARD_RESET_LOG,
    },
    Example {
        name: "a reset of level 2 ends a command that was not dispatched",
        device: Device::Usual,
        calls: &LAID,
        log: &LAID_LOG,
    },
    Example {
        name: "a restart loses an answer that is parked",
        device: Device::InOrder,
        calls: &PARKED,
        log: &PARKED_LOG,
    },
];

/// Room in the ring and in the blocks, and how many bytes go back.
pub const ROOM: [Example; 8] = [
    Example {
        name: "a command has no more blocks than there are",
        device: Device::Usual,
        calls: &TOO_MANY_BLOCKS,
        log: &[],
    },
    Example {
        name: "an entry is over half a ring",
        device: Device::LongRing,
        calls: &MEBIBYTE_REFUSED,
        log: &[],
    },
    Example {
        name: "an entry is not over half a ring",
        device: Device::LongestRing,
        calls: &MEBIBYTE_QUEUED,
        log: &[],
    },
    Example {
        name: "a block of two pages holds two pages",
        device: Device::TwoPages,
        calls: &TWO_PAGES,
        log: &TWO_PAGES_LOG,
    },
    Example {
        name: "a byte more than two pages takes a second block",
        device: Device::TwoPages,
        calls: &ONE_BYTE_MORE,
        log: &ONE_BYTE_MORE_LOG,
    },
    Example {
        name: "a command has no more blocks of two pages than there are",
        device: Device::TwoPages,
        calls: &TOO_MANY_LONG_BLOCKS,
        log: &[],
    },
    Example {
        name: "behind a short reply there are zeros, and no older bytes",
        device: Device::Usual,
        calls: &BLOCK_AGAIN,
        log: &BLOCK_AGAIN_LOG,
    },
    Example {
        name: "a reply of a told length ends there",
        device: Device::Lengths,
        calls: &BLOCK_AGAIN,
        log: &BLOCK_AGAIN_CUT_LOG,
    },
];

/// Commands that wait, on a narrow device: the same whether it answers in order or not.
pub const WAITING: [Example; 7] = [
    Example {
        name: "a command leaves when it has waited 5 ticks",
        device: Device::Narrow,
        calls: &LEAVES,
        log: &LEAVES_LOG,
    },
    Example {
        name: "a command still waits after 4 ticks",
        device: Device::Narrow,
        calls: &STILL_WAITS,
        log: &[],
    },
    Example {
        name: "a reset finishes a command that waits",
        device: Device::Narrow,
        calls: &WAITS_FOR_RESET,
        log: &WAITS_FOR_RESET_LOG,
    },
    Example {
        name: "a reset of level 2 finishes a command that waits",
        device: Device::Narrow,
        calls: &WAITS_FOR_HARD_RESET,
        log: &WAITS_FOR_HARD_RESET_LOG,
    },
    Example {
        name: "a command enters when room is made",
        device: Device::Narrow,
        calls: &ENTERS,
        log: &ENTERS_LOG,
    },
    Example {
        name: "a drain lets a command enter",
        device: Device::Narrow,
        calls: &DRAIN_ENTERS,
        log: &DRAIN_ENTERS_LOG,
    },
    Example {
        name: "a command that has left does not enter",
        device: Device::Narrow,
        calls: &LEFT_ALONE,
        log: &LEFT_ALONE_LOG,
    },
];
