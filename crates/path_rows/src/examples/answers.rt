//! Answers and completions that several examples have.
use crate::rows::{Finished, Told};
use tcmu_types::{Enter, Publish, Stat};

/// The completion of the read `READ_ONE` under serial 1: GOOD, with 512 zeros.
pub const DONE: Finished = Finished {
    serial: 1,
    init: "a",
    tag: 1,
    status: 0x00,
    sense: (0x00, 0x00, 0x00),
    payload: &[(0x00, 512)],
};

/// The same command ended by a reset of level 1: BUSY.
pub const BUSY: Finished = Finished {
    status: 0x08,
    payload: &[],
    ..DONE
};

/// The same command ended by a reset of level 2: HARDWARE ERROR, INTERNAL TARGET FAILURE.
pub const FAILED_TARGET: Finished = Finished {
    status: 0x02,
    sense: (0x04, 0x44, 0x00),
    payload: &[],
    ..DONE
};

/// The same command when its time is up: ABORTED COMMAND, LOGICAL UNIT COMMUNICATION TIME-OUT.
pub const EXPIRED: Finished = Finished {
    status: 0x02,
    sense: (0x0b, 0x08, 0x01),
    payload: &[],
    ..DONE
};

/// The same command when it has waited for room for too long: TASK SET FULL.
pub const TASK_SET_FULL: Finished = Finished {
    status: 0x28,
    payload: &[],
    ..DONE
};

/// A publish of one answer, that of a command.
pub const MOVED_ONE: Told = Told::Publish(Publish::Moved {
    items: 1,
    commands: 1,
});

/// A publish of three answers, those of commands.
pub const MOVED_THREE: Told = Told::Publish(Publish::Moved {
    items: 3,
    commands: 3,
});

/// A command that does not enter, since its one data block is not free.
pub const NO_BLOCK: Told = Told::Enter(Enter::FullBlocks { need: 1, free: 0 });

/// The numbers of a device that is new, but that no user side is at.
pub const ZEROS: Stat = Stat {
    now: 0,
    blocked: false,
    attached: false,
    head: 0,
    used: 0,
    waiting: 0,
    out: 0,
    handled: 0,
    parked: 0,
    placed: 0,
    lost: 0,
    expired: 0,
    held: 0,
    delayed: 0,
};

/// The numbers of a device that was reset before its first tick.
pub const EMPTIED: Stat = Stat {
    blocked: true,
    attached: true,
    ..ZEROS
};
