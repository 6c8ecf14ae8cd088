//! Resets: when they are made, and what they finish.
use super::answers::{BUSY, DONE, EMPTIED, FAILED_TARGET, MOVED_ONE, ZEROS};
use super::sent::{READ_ONE, READ_ONE_MORE};
use crate::rows::{Call, Finished, Told};
use tcmu_types::{Reset, Respond, Stat, Submit};

/// A reset needs a blocked device, and waits for handlers.
pub const RESET: [(Call, Told); 10] = [
    (Call::Submit(READ_ONE), Told::Submit(Submit::Queued(1))),
    (Call::Dispatch, Told::Job(1)),
    (Call::Reset, Told::Reset(Reset::NotBlocked)),
    (Call::Block, Told::Changed(true)),
    (Call::Block, Told::Changed(false)),
    (Call::Reset, Told::Reset(Reset::HandlersOut(1))),
    (Call::Restart, Told::Number(1)),
    (Call::Reset, Told::Reset(Reset::Reset(1))),
    (Call::Stat, Told::Stat(EMPTIED)),
    (Call::Submit(READ_ONE), Told::Submit(Submit::Busy)),
];

/// The completions of `RESET`.
pub const RESET_LOG: [Finished; 1] = [BUSY];

/// A reset finishes what is published, and takes the rest.
pub const PUBLISHED: [(Call, Told); 10] = [
    (Call::Submit(READ_ONE), Told::Submit(Submit::Queued(1))),
    (Call::Submit(READ_ONE_MORE), Told::Submit(Submit::Queued(2))),
    (Call::Dispatch, Told::Job(1)),
    (Call::Dispatch, Told::Job(2)),
    (Call::Handle(2), Told::Reply(0, 512)),
    (Call::Respond(2), Told::Respond(Respond::Placed)),
    (Call::Publish, MOVED_ONE),
    (Call::Restart, Told::Number(1)),
    (Call::Block, Told::Changed(true)),
    (Call::Reset, Told::Reset(Reset::Reset(2))),
];

/// The completions of `PUBLISHED`.
pub const PUBLISHED_LOG: [Finished; 2] = [
    Finished {
        serial: 2,
        tag: 2,
        ..DONE
    },
    BUSY,
];

/// A reset of level 2 tells of a failed target.
pub const HARD_RESET: [(Call, Told); 10] = [
    (Call::Submit(READ_ONE), Told::Submit(Submit::Queued(1))),
    (Call::Submit(READ_ONE_MORE), Told::Submit(Submit::Queued(2))),
    (Call::Dispatch, Told::Job(1)),
    (Call::Dispatch, Told::Job(2)),
    (Call::Handle(2), Told::Reply(0, 512)),
    (Call::Respond(2), Told::Respond(Respond::Placed)),
    (Call::Publish, MOVED_ONE),
    (Call::Restart, Told::Number(1)),
    (Call::Block, Told::Changed(true)),
    (Call::HardReset, Told::Reset(Reset::Reset(2))),
];

/// The completions of `HARD_RESET`.
pub const HARD_RESET_LOG: [Finished; 2] = [
    Finished {
        serial: 2,
        tag: 2,
        ..DONE
    },
    FAILED_TARGET,
];

/// A reset of level 2 ends a command that lies in the ring and was not dispatched.
pub const LAID: [(Call, Told); 6] = [
    (Call::Submit(READ_ONE), Told::Submit(Submit::Queued(1))),
    (Call::Block, Told::Changed(true)),
    (Call::HardReset, Told::Reset(Reset::Reset(1))),
    (Call::Stat, Told::Stat(EMPTIED)),
    (Call::Dispatch, Told::Nothing),
    (Call::Unblock, Told::Changed(true)),
];

/// The completions of `LAID`.
pub const LAID_LOG: [Finished; 1] = [FAILED_TARGET];

/// In order, a restart loses a command that is out and an answer that waits for it.
pub const PARKED: [(Call, Told); 12] = [
    (Call::Submit(READ_ONE), Told::Submit(Submit::Queued(1))),
    (Call::Submit(READ_ONE_MORE), Told::Submit(Submit::Queued(2))),
    (Call::Dispatch, Told::Job(1)),
    (Call::Dispatch, Told::Job(2)),
    (Call::Handle(2), Told::Reply(0, 512)),
    (Call::Respond(2), Told::Respond(Respond::Parked)),
    (Call::Restart, Told::Number(2)),
    (
        Call::Stat,
        Told::Stat(Stat {
            head: 256,
            used: 256,
            lost: 2,
            held: 2,
            ..ZEROS
        }),
    ),
    (Call::Block, Told::Changed(true)),
    (Call::Reset, Told::Reset(Reset::Reset(2))),
    (Call::Stat, Told::Stat(EMPTIED)),
    (Call::Respond(2), Told::Respond(Respond::NotHandled(2))),
];

/// The completions of `PARKED`.
pub const PARKED_LOG: [Finished; 2] = [
    BUSY,
    Finished {
        serial: 2,
        tag: 2,
        ..BUSY
    },
];
