//! The settings of a device.
use std::marker::Model;

/// What a device's mailbox shows: completions in any order, a length with each read's completion, and task management notes
/// (`TCMU_MAILBOX_FLAG_CAP_OOOC`, `_CAP_READ_LEN` and `_CAP_TMR` of `linux/target_core_user.h`).
#[derive(Clone, Copy, Debug, PartialEq, Eq)]
pub struct Flags {
    /// Answers may be placed in any order; else in the order in which the commands were laid.
    pub ooo: bool,
    /// Responses to commands that read say how many bytes the handler answered.
    pub read_len: bool,
    /// Task management functions may be laid in the ring; else they are refused.
    pub tmr: bool,
}

/// The settings of a device: the ring's size in bytes, the most data blocks, the flags, the ticks until a command expires (0 where none
/// does), the ticks that a command waits for room (0 where it is refused at once), and the pages of 4096 bytes of a data block. Its
/// limits are the invariant: `ring` is a multiple of 4096 from 4096 to 4,194,304; `blocks` is at least 1, `pages` is 1 to 16, and
/// `blocks` times `pages` is at most 4096; `timeout` and `qfull` are at most 1,000,000.
#[derive(Clone, Copy, Debug, PartialEq, Eq)]
pub struct Settings {
    /// Bytes of the command ring: a multiple of 4096, 4096 to 4,194,304.
    pub ring: u32,
    /// The most data blocks of the device: at least 1, and times `pages` at most 4096.
    pub blocks: u32,
    /// What the mailbox shows, fixed when the device is made.
    pub flags: Flags,
    /// Ticks from a command's laying until it expires, at most 1,000,000; 0 is never.
    pub timeout: u32,
    /// Ticks that a command waits for room, at most 1,000,000; 0 is a refusal at once.
    pub qfull: u32,
    /// Pages of 4096 bytes in a data block: 1 to 16.
    pub pages: u32,
}

impl Model for Settings {
    ghost use Rattle.tcmu_types.specs.Data.{SettingsData};
    ghost use Rattle.tcmu_types.specs.Rules.{IsSettings};

    ghost Value = { SettingsData };

    ghost view = { λ a. record { ring = a.ring; blocks = a.blocks; flags = a.flags; timeout = a.timeout; qfull = a.qfull; pages = a.pages } };

    ghost invariant = { λ a. IsSettings (record { ring = a.ring; blocks = a.blocks; flags = a.flags; timeout = a.timeout; qfull = a.qfull; pages = a.pages }) };

    ghost inverse = { λ s. record { ring = s.ring; blocks = s.blocks; flags = s.flags; timeout = s.timeout; qfull = s.qfull; pages = s.pages } };
}
