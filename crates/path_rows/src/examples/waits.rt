//! Commands that wait for the only data block.
use super::answers::{BUSY, DONE, FAILED_TARGET, MOVED_ONE, NO_BLOCK, TASK_SET_FULL, ZEROS};
use super::sent::{READ_ONE, READ_ONE_MORE};
use crate::rows::{Call, Finished, Told};
use tcmu_types::{Enter, Reset, Respond, Stat, Submit};

/// A second read waits for the only block, and leaves in 5 ticks.
pub const LEAVES: [(Call, Told); 5] = [
    (Call::Submit(READ_ONE), Told::Submit(Submit::Queued(1))),
    (Call::Submit(READ_ONE), Told::Submit(Submit::Delayed(2))),
    (Call::Enter, NO_BLOCK),
    (Call::Tick(5), Told::Number(1)),
    (Call::Enter, Told::Enter(Enter::Empty)),
];

/// The completions of `LEAVES`.
pub const LEAVES_LOG: [Finished; 1] = [Finished {
    serial: 2,
    ..TASK_SET_FULL
}];

/// A second read that waits for the only block is still there after 4 ticks.
pub const STILL_WAITS: [(Call, Told); 6] = [
    (Call::Submit(READ_ONE), Told::Submit(Submit::Queued(1))),
    (Call::Submit(READ_ONE), Told::Submit(Submit::Delayed(2))),
    (Call::Enter, NO_BLOCK),
    (Call::Tick(4), Told::Number(0)),
    (Call::Enter, NO_BLOCK),
    (
        Call::Stat,
        Told::Stat(Stat {
            now: 4,
            ..ONE_WAITS
        }),
    ),
];

/// A reset finishes the delayed read after the one in the ring.
pub const WAITS_FOR_RESET: [(Call, Told); 6] = [
    (Call::Submit(READ_ONE), Told::Submit(Submit::Queued(1))),
    (Call::Submit(READ_ONE), Told::Submit(Submit::Delayed(2))),
    (Call::Enter, NO_BLOCK),
    (Call::Block, Told::Changed(true)),
    (Call::Reset, Told::Reset(Reset::Reset(2))),
    (Call::Enter, Told::Enter(Enter::Empty)),
];

/// The completions of `WAITS_FOR_RESET`.
pub const WAITS_FOR_RESET_LOG: [Finished; 2] = [BUSY, Finished { serial: 2, ..BUSY }];

/// The delayed read enters once the first is finished.
pub const ENTERS: [(Call, Told); 15] = [
    (Call::Submit(READ_ONE), Told::Submit(Submit::Queued(1))),
    (Call::Submit(READ_ONE), Told::Submit(Submit::Delayed(2))),
    (Call::Enter, NO_BLOCK),
    (Call::Dispatch, Told::Job(1)),
    (Call::Handle(1), Told::Reply(0, 512)),
    (Call::Respond(1), Told::Respond(Respond::Placed)),
    (Call::Publish, MOVED_ONE),
    (Call::Clean, Told::Number(1)),
    (Call::Enter, Told::Enter(Enter::Entered(2))),
    (Call::Enter, Told::Enter(Enter::Empty)),
    (Call::Dispatch, Told::Job(2)),
    (Call::Handle(2), Told::Reply(0, 512)),
    (Call::Respond(2), Told::Respond(Respond::Placed)),
    (Call::Publish, MOVED_ONE),
    (Call::Clean, Told::Number(1)),
];

/// The completions of `ENTERS`.
pub const ENTERS_LOG: [Finished; 2] = [DONE, Finished { serial: 2, ..DONE }];

/// A reset of level 2 finishes the delayed read after the one in the ring.
pub const WAITS_FOR_HARD_RESET: [(Call, Told); 5] = [
    (Call::Submit(READ_ONE), Told::Submit(Submit::Queued(1))),
    (Call::Submit(READ_ONE), Told::Submit(Submit::Delayed(2))),
    (Call::Block, Told::Changed(true)),
    (Call::HardReset, Told::Reset(Reset::Reset(2))),
    (Call::Enter, Told::Enter(Enter::Empty)),
];

/// The completions of `WAITS_FOR_HARD_RESET`.
pub const WAITS_FOR_HARD_RESET_LOG: [Finished; 2] = [
    FAILED_TARGET,
    Finished {
        serial: 2,
        ..FAILED_TARGET
    },
];

/// A drain lets the delayed read enter once the first is finished.
pub const DRAIN_ENTERS: [(Call, Told); 15] = [
    (Call::Submit(READ_ONE), Told::Submit(Submit::Queued(1))),
    (
        Call::Submit(READ_ONE_MORE),
        Told::Submit(Submit::Delayed(2)),
    ),
    (Call::Stat, Told::Stat(ONE_WAITS)),
    (Call::Step, Told::Job(1)),
    (Call::Step, Told::Reply(0, 512)),
    (Call::Step, Told::Respond(Respond::Placed)),
    (Call::Step, MOVED_ONE),
    (Call::Step, Told::Number(1)),
    (Call::Step, Told::Enter(Enter::Entered(2))),
    (Call::Step, Told::Job(2)),
    (Call::Step, Told::Reply(0, 512)),
    (Call::Step, Told::Respond(Respond::Placed)),
    (Call::Step, MOVED_ONE),
    (Call::Step, Told::Number(1)),
    (Call::Step, Told::Drained),
];

/// The completions of `DRAIN_ENTERS`.
pub const DRAIN_ENTERS_LOG: [Finished; 2] = [
    DONE,
    Finished {
        serial: 2,
        tag: 2,
        ..DONE
    },
];

/// One read in the ring, and one that waits.
const ONE_WAITS: Stat = Stat {
    attached: true,
    head: 128,
    used: 128,
    waiting: 1,
    held: 1,
    delayed: 1,
    ..ZEROS
};

/// A delayed read has left before the drain.
pub const LEFT_ALONE: [(Call, Told); 9] = [
    (Call::Submit(READ_ONE), Told::Submit(Submit::Queued(1))),
    (
        Call::Submit(READ_ONE_MORE),
        Told::Submit(Submit::Delayed(2)),
    ),
    (Call::Tick(5), Told::Number(1)),
    (Call::Step, Told::Job(1)),
    (Call::Step, Told::Reply(0, 512)),
    (Call::Step, Told::Respond(Respond::Placed)),
    (Call::Step, MOVED_ONE),
    (Call::Step, Told::Number(1)),
    (Call::Step, Told::Drained),
];

/// The completions of `LEFT_ALONE`.
pub const LEFT_ALONE_LOG: [Finished; 2] = [
    Finished {
        serial: 2,
        tag: 2,
        ..TASK_SET_FULL
    },
    DONE,
];
