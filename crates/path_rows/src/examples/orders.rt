//! Three reads that are answered last, first, second.
use super::answers::{DONE, MOVED_ONE, MOVED_THREE};
use super::sent::{READ_AT_1, READ_AT_2, READ_ONE_MORE, WRITE_THREE};
use crate::rows::{Call, Finished, Told};
use tcmu_types::{Respond, Submit};

/// Three reads, answered last, first, second: each is placed as it comes. A row is an event.
pub const OUT_OF_ORDER: [(Call, Told); 20] = [
    (Call::Submit(WRITE_THREE), Told::Submit(Submit::Queued(1))),
    (Call::Step, Told::Job(1)),
    (Call::Step, Told::Reply(0, 0)),
    (Call::Step, Told::Respond(Respond::Placed)),
    (Call::Step, MOVED_ONE),
    (Call::Step, Told::Number(1)),
    (Call::Submit(READ_ONE_MORE), Told::Submit(Submit::Queued(2))),
    (Call::Submit(READ_AT_1), Told::Submit(Submit::Queued(3))),
    (Call::Submit(READ_AT_2), Told::Submit(Submit::Queued(4))),
    (Call::Dispatch, Told::Job(2)),
    (Call::Dispatch, Told::Job(3)),
    (Call::Dispatch, Told::Job(4)),
    (Call::Handle(4), Told::Reply(0, 512)),
    (Call::Respond(4), Told::Respond(Respond::Placed)),
    (Call::Handle(2), Told::Reply(0, 512)),
    (Call::Respond(2), Told::Respond(Respond::Placed)),
    (Call::Handle(3), Told::Reply(0, 512)),
    (Call::Respond(3), Told::Respond(Respond::Placed)),
    (Call::Publish, MOVED_THREE),
    (Call::Clean, Told::Number(3)),
];

/// The completions of `OUT_OF_ORDER`.
pub const OUT_OF_ORDER_LOG: [Finished; 4] = [
    Finished {
        payload: &[],
        ..DONE
    },
    Finished {
        serial: 4,
        init: "b",
        tag: 4,
        payload: &[(0x33, 512)],
        ..DONE
    },
    Finished {
        serial: 2,
        tag: 2,
        payload: &[(0x11, 512)],
        ..DONE
    },
    Finished {
        serial: 3,
        tag: 3,
        payload: &[(0x22, 512)],
        ..DONE
    },
];

/// The commands of `OUT_OF_ORDER` where answers go in order: that of the last read waits for the others.
pub const IN_ORDER: [(Call, Told); 16] = [
    (Call::Submit(WRITE_THREE), Told::Submit(Submit::Queued(1))),
    (Call::Drain, Told::Drained),
    (Call::Submit(READ_ONE_MORE), Told::Submit(Submit::Queued(2))),
    (Call::Submit(READ_AT_1), Told::Submit(Submit::Queued(3))),
    (Call::Submit(READ_AT_2), Told::Submit(Submit::Queued(4))),
    (Call::Dispatch, Told::Job(2)),
    (Call::Dispatch, Told::Job(3)),
    (Call::Dispatch, Told::Job(4)),
    (Call::Handle(4), Told::Reply(0, 512)),
    (Call::Respond(4), Told::Respond(Respond::Parked)),
    (Call::Handle(2), Told::Reply(0, 512)),
    (Call::Respond(2), Told::Respond(Respond::Placed)),
    (Call::Handle(3), Told::Reply(0, 512)),
    (Call::Respond(3), Told::Respond(Respond::Placed)),
    (Call::Publish, MOVED_THREE),
    (Call::Clean, Told::Number(3)),
];

/// The completions of `IN_ORDER`.
pub const IN_ORDER_LOG: [Finished; 4] = [
    Finished {
        payload: &[],
        ..DONE
    },
    Finished {
        serial: 2,
        tag: 2,
        payload: &[(0x11, 512)],
        ..DONE
    },
    Finished {
        serial: 3,
        tag: 3,
        payload: &[(0x22, 512)],
        ..DONE
    },
    Finished {
        serial: 4,
        init: "b",
        tag: 4,
        payload: &[(0x33, 512)],
        ..DONE
    },
];
