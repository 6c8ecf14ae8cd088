//! A user side that is gone.
use super::answers::ZEROS;
use super::sent::READ_ONE;
use crate::rows::{Call, Told};
use tcmu_types::{Publish, Respond, Stat, Submit};

/// Where no user side is attached nothing is dispatched, handled, answered or published.
pub const DETACHED: [(Call, Told); 9] = [
    (Call::Submit(READ_ONE), Told::Submit(Submit::Queued(1))),
    (Call::Dispatch, Told::Job(1)),
    (Call::Restart, Told::Number(1)),
    (Call::Dispatch, Told::Detached),
    (Call::Publish, Told::Publish(Publish::Detached)),
    (Call::Handle(1), Told::NotOut(1)),
    (Call::Respond(1), Told::Respond(Respond::NotHandled(1))),
    (Call::Drain, Told::Drained),
    (
        Call::Stat,
        Told::Stat(Stat {
            head: 128,
            used: 128,
            lost: 1,
            held: 1,
            ..ZEROS
        }),
    ),
];
