//! Task management: notes, and a device without them.
use super::answers::DONE;
use super::sent::{READ_ONE, READ_ONE_MORE};
use crate::rows::{Call, Finished, Told};
use tcmu_types::{Publish, Respond, Submit, Tmr};

/// A note of a finished command is refused, and one of an answered command names none.
pub const NOTES: [(Call, Told); 11] = [
    (Call::Submit(READ_ONE), Told::Submit(Submit::Queued(1))),
    (Call::Drain, Told::Drained),
    (Call::Abort(1), Told::Tmr(Tmr::Unknown(1))),
    (Call::Submit(READ_ONE), Told::Submit(Submit::Queued(2))),
    (Call::Dispatch, Told::Job(2)),
    (Call::Handle(2), Told::Reply(0, 512)),
    (Call::Respond(2), Told::Respond(Respond::Placed)),
    (Call::Abort(2), Told::Tmr(Tmr::Noted)),
    (Call::Dispatch, Told::Note(1, 0, None, None)),
    (
        Call::Publish,
        Told::Publish(Publish::Moved {
            items: 2,
            commands: 1,
        }),
    ),
    (Call::Clean, Told::Number(1)),
];

/// The completions of `NOTES`.
pub const NOTES_LOG: [Finished; 2] = [DONE, Finished { serial: 2, ..DONE }];

/// Of a command that is out, one that is handled and one that is answered, a note names the first two.
pub const OPEN_NOTES: [(Call, Told); 17] = [
    (Call::Submit(READ_ONE), Told::Submit(Submit::Queued(1))),
    (Call::Submit(READ_ONE_MORE), Told::Submit(Submit::Queued(2))),
    (Call::Submit(READ_ONE), Told::Submit(Submit::Queued(3))),
    (Call::Dispatch, Told::Job(1)),
    (Call::Dispatch, Told::Job(2)),
    (Call::Dispatch, Told::Job(3)),
    (Call::Handle(2), Told::Reply(0, 512)),
    (Call::Handle(3), Told::Reply(0, 512)),
    (Call::Respond(3), Told::Respond(Respond::Placed)),
    (Call::AbortThree(1), Told::Tmr(Tmr::Noted)),
    (Call::AbortThree(2), Told::Tmr(Tmr::Unknown(4))),
    (Call::Dispatch, Told::Note(2, 2, Some(1), Some(2))),
    (Call::Handle(1), Told::Reply(0, 512)),
    (Call::Respond(2), Told::Respond(Respond::Placed)),
    (Call::Respond(1), Told::Respond(Respond::Placed)),
    (
        Call::Publish,
        Told::Publish(Publish::Moved {
            items: 4,
            commands: 3,
        }),
    ),
    (Call::Clean, Told::Number(3)),
];

/// The completions of `OPEN_NOTES`.
pub const OPEN_NOTES_LOG: [Finished; 3] = [
    Finished { serial: 3, ..DONE },
    Finished {
        serial: 2,
        tag: 2,
        ..DONE
    },
    DONE,
];

/// Notes that are off.
pub const NO_NOTES: [(Call, Told); 1] = [(Call::ResetUnit, Told::Tmr(Tmr::Off))];
