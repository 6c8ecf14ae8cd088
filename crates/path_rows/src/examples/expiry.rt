//! Commands whose time is up, and one whose time never is.
use super::answers::{EXPIRED, MOVED_ONE, ZEROS};
use super::sent::{READ_128, READ_ONE};
use crate::rows::{Call, Finished, Told};
use tcmu_types::{Respond, Stat, Submit};

/// A read that expires is answered late: its blocks come back, and nothing more is logged.
pub const LATE: [(Call, Told); 10] = [
    (Call::Submit(READ_ONE), Told::Submit(Submit::Queued(1))),
    (Call::Dispatch, Told::Job(1)),
    (Call::Tick(4), Told::Number(0)),
    (Call::Tick(1), Told::Number(1)),
    (
        Call::Stat,
        Told::Stat(Stat {
            now: 5,
            attached: true,
            head: 128,
            used: 128,
            out: 1,
            expired: 1,
            held: 1,
            ..ZEROS
        }),
    ),
    (Call::Handle(1), Told::Reply(0, 512)),
    (Call::Respond(1), Told::Respond(Respond::Placed)),
    (Call::Publish, MOVED_ONE),
    (Call::Clean, Told::Number(0)),
    (
        Call::Stat,
        Told::Stat(Stat {
            now: 5,
            attached: true,
            head: 128,
            ..ZEROS
        }),
    ),
];

/// The completions of `LATE`.
pub const LATE_LOG: [Finished; 1] = [EXPIRED];

/// An expired read of 64 KiB holds its blocks until it is answered.
pub const EXPIRED_BLOCKS: [(Call, Told); 5] = [
    (Call::Submit(READ_128), Told::Submit(Submit::Queued(1))),
    (Call::Tick(30), Told::Number(1)),
    (
        Call::Submit(READ_ONE),
        Told::Submit(Submit::FullBlocks { need: 1, free: 0 }),
    ),
    (Call::Drain, Told::Drained),
    (Call::Submit(READ_ONE), Told::Submit(Submit::Queued(2))),
];

/// The completions of `EXPIRED_BLOCKS`.
pub const EXPIRED_BLOCKS_LOG: [Finished; 1] = [EXPIRED];

/// Without a timeout nothing expires.
pub const NO_TIMEOUT: [(Call, Told); 2] = [
    (Call::Submit(READ_ONE), Told::Submit(Submit::Queued(1))),
    (Call::Tick(1000000), Told::Number(0)),
];
