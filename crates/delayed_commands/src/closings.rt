//! Completions that no handler answered.
ghost use Rattle.std.specs.Prelude.{◌≡◌};
ghost use Rattle.tcmu_model.specs.Events.{ending, closing, reset_ending, reset_completion};

use std::alloc::Global;
use tcmu_types::{Bytes, Command, Done, Name, ScsiStatus, Sense};

/// HARDWARE ERROR, INTERNAL TARGET FAILURE: a reset ended the command.
pub const INTERNAL_TARGET_FAILURE: Sense = Sense {
    key: 0x4,
    asc: 0x44,
    ascq: 0x00,
};

/// ABORTED COMMAND, LOGICAL UNIT COMMUNICATION TIME-OUT: the command has expired.
pub const COMMUNICATION_TIME_OUT: Sense = Sense {
    key: 0xb,
    asc: 0x08,
    ascq: 0x01,
};

/// A completion with a status and sense data of the target's own, and no bytes, of what an initiator sent under a tag.
pub fn ending(
    alloc: Global,
    status: ScsiStatus,
    sense: Option<Sense>,
    serial: u64,
    init: &Name,
    tag: u32,
) -> Done
    ensures { result ≡ ending status.0 sense serial init.now tag }
{
    Done {
        serial,
        init: init.copy(),
        tag,
        status,
        sense,
        payload: Bytes::new(alloc),
    }
}

/// The completion of a command with a status and sense data of the target's own, and no bytes.
pub fn closing(
    alloc: Global,
    status: ScsiStatus,
    sense: Option<Sense>,
    serial: u64,
    command: &Command,
) -> Done
    ensures { result ≡ closing status.0 sense serial command.now }
{
    ending(alloc, status, sense, serial, command.init(), command.tag())
}

/// The completion of what a reset of a level ends: BUSY at 1 (SAM-5, 5.3.1); HARDWARE ERROR, INTERNAL TARGET FAILURE at 2 (SPC-4, 4.5.6).
pub fn reset_ending(alloc: Global, level: u8, serial: u64, init: &Name, tag: u32) -> Done
    ensures { result ≡ reset_ending level serial init.now tag }
{
    let (status, sense) = if level == 1 {
        (ScsiStatus::BUSY, None)
    } else {
        (ScsiStatus::CHECK_CONDITION, Some(INTERNAL_TARGET_FAILURE))
    };
    ending(alloc, status, sense, serial, init, tag)
}

/// The completion of a command that a reset of a level ends.
pub fn reset_completion(alloc: Global, level: u8, serial: u64, command: &Command) -> Done
    ensures { result ≡ reset_completion level serial command.now }
{
    reset_ending(alloc, level, serial, command.init(), command.tag())
}
