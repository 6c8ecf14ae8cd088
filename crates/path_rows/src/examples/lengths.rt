//! How many bytes go back where a reply is shorter than what was asked for.
use super::answers::{DONE, MOVED_ONE, ZEROS};
use super::sent::{INQUIRE, READ_ONE_MORE, WRITE_EIGHT};
use crate::rows::{Call, Finished, Told};
use tcmu_types::{Respond, Stat, Submit};

/// A block that held a write's FFh is taken again by an INQUIRY, whose reply does not fill it.
pub const BLOCK_AGAIN: [(Call, Told); 20] = [
    (Call::Submit(WRITE_EIGHT), Told::Submit(Submit::Queued(1))),
    (Call::Submit(READ_ONE_MORE), Told::Submit(Submit::Queued(2))),
    (Call::Dispatch, Told::Job(1)),
    (Call::Handle(1), Told::Reply(0, 0)),
    (Call::Respond(1), Told::Respond(Respond::Placed)),
    (Call::Publish, MOVED_ONE),
    (Call::Clean, Told::Number(1)),
    (
        Call::Stat,
        Told::Stat(Stat {
            attached: true,
            head: 256,
            used: 128,
            waiting: 1,
            held: 1,
            ..ZEROS
        }),
    ),
    (Call::Submit(INQUIRE), Told::Submit(Submit::Queued(3))),
    (Call::Step, Told::Job(2)),
    (Call::Step, Told::Reply(0, 512)),
    (Call::Step, Told::Respond(Respond::Placed)),
    (Call::Step, MOVED_ONE),
    (Call::Step, Told::Number(1)),
    (Call::Step, Told::Job(3)),
    (Call::Step, Told::Reply(0, 36)),
    (Call::Step, Told::Respond(Respond::Placed)),
    (Call::Step, MOVED_ONE),
    (Call::Step, Told::Number(1)),
    (Call::Step, Told::Drained),
];

/// The completion of the write.
const WRITTEN: Finished = Finished {
    payload: &[],
    ..DONE
};

/// The completion of the read.
const READ: Finished = Finished {
    serial: 2,
    tag: 2,
    payload: &[(0xff, 512)],
    ..DONE
};

/// The completion of the INQUIRY, as long as the reply (SPC-4, 6.4.2).
const INQUIRED: Finished = Finished {
    serial: 3,
    tag: 3,
    payload: &[
        (0x00, 2),
        (0x05, 1),
        (0x02, 1),
        (0x1f, 1),
        (0x00, 3),
        (0x52, 1),
        (0x54, 1),
        (0x4c, 1),
        (0x54, 1),
        (0x43, 1),
        (0x4d, 1),
        (0x55, 1),
        (0x20, 1),
        (0x72, 1),
        (0x69, 1),
        (0x6e, 1),
        (0x67, 1),
        (0x20, 1),
        (0x64, 1),
        (0x69, 1),
        (0x73, 1),
        (0x6b, 1),
        (0x20, 7),
        (0x30, 3),
        (0x31, 1),
    ],
    ..DONE
};

/// The completions of `BLOCK_AGAIN` where lengths are told.
pub const BLOCK_AGAIN_CUT_LOG: [Finished; 3] = [WRITTEN, READ, INQUIRED];

/// The completions of `BLOCK_AGAIN` where no lengths are told: zeros follow up to the length that was asked for.
pub const BLOCK_AGAIN_LOG: [Finished; 3] = [
    WRITTEN,
    READ,
    Finished {
        payload: &[
            (0x00, 2),
            (0x05, 1),
            (0x02, 1),
            (0x1f, 1),
            (0x00, 3),
            (0x52, 1),
            (0x54, 1),
            (0x4c, 1),
            (0x54, 1),
            (0x43, 1),
            (0x4d, 1),
            (0x55, 1),
            (0x20, 1),
            (0x72, 1),
            (0x69, 1),
            (0x6e, 1),
            (0x67, 1),
            (0x20, 1),
            (0x64, 1),
            (0x69, 1),
            (0x73, 1),
            (0x6b, 1),
            (0x20, 7),
            (0x30, 3),
            (0x31, 1),
            (0x00, 28),
        ],
        ..INQUIRED
    },
];
