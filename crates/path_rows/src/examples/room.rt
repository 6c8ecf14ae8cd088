//! Room: the most blocks and the longest entry of a command, and a ring that is full or filled exactly.
use super::answers::{DONE, MOVED_ONE, ZEROS};
use super::sent::{READ_16, READ_136, READ_2048, READ_ONE, TEST_UNIT_READY};
use crate::rows::{Call, Finished, Sent, Told};
use tcmu_types::{Respond, Stat, Submit};

/// A read of 68 KiB needs more than the 16 blocks there are.
pub const TOO_MANY_BLOCKS: [(Call, Told); 1] = [(
    Call::Submit(READ_136),
    Told::Submit(Submit::TooBig {
        have: 17,
        limit: 16,
    }),
)];

/// The entry of a read of 1 MiB is over half a ring of 8192 bytes.
pub const MEBIBYTE_REFUSED: [(Call, Told); 1] = [(
    Call::Submit(READ_2048),
    Told::Submit(Submit::TooBig {
        have: 4160,
        limit: 4096,
    }),
)];

/// The entry of a read of 1 MiB is not over half a ring of 12,288 bytes.
pub const MEBIBYTE_QUEUED: [(Call, Told); 1] = [(
    Call::Submit(READ_2048),
    Told::Submit(Submit::Queued(1)),
)];

/// A ring with 31 entries of 128 bytes has no room for another.
pub const FULL_RING: [(Call, Told); 1] = [(
    Call::Submit(READ_ONE),
    Told::Submit(Submit::FullRing {
        need: 128,
        free: 127,
    }),
)];

/// After 30 entries of 128 bytes: one of 120, one that ends 8 bytes before the ring does, and one for which they are padding.
pub const EXACT_FIT: [(Call, Told); 5] = [
    (
        Call::Stat,
        Told::Stat(Stat {
            attached: true,
            head: 3840,
            used: 3840,
            waiting: 30,
            held: 30,
            ..ZEROS
        }),
    ),
    (
        Call::Submit(TEST_UNIT_READY),
        Told::Submit(Submit::Queued(31)),
    ),
    (
        Call::Stat,
        Told::Stat(Stat {
            attached: true,
            head: 3960,
            used: 3960,
            waiting: 31,
            held: 30,
            ..ZEROS
        }),
    ),
    (Call::Submit(READ_ONE), Told::Submit(Submit::Queued(32))),
    (
        Call::Submit(TEST_UNIT_READY),
        Told::Submit(Submit::FullRing { need: 128, free: 7 }),
    ),
];

/// A read of two pages holds one block of two pages.
pub const TWO_PAGES: [(Call, Told); 7] = [
    (Call::Submit(READ_16), Told::Submit(Submit::Queued(1))),
    (
        Call::Stat,
        Told::Stat(Stat {
            attached: true,
            head: 128,
            used: 128,
            waiting: 1,
            held: 1,
            ..ZEROS
        }),
    ),
    (Call::Dispatch, Told::Job(1)),
    (Call::Handle(1), Told::Reply(0, 8192)),
    (Call::Respond(1), Told::Respond(Respond::Placed)),
    (Call::Publish, MOVED_ONE),
    (Call::Clean, Told::Number(1)),
];

/// The completions of `TWO_PAGES`.
pub const TWO_PAGES_LOG: [Finished; 1] = [Finished {
    payload: &[(0x00, 8192)],
    ..DONE
}];

/// A read of two pages that asks for a byte more holds two blocks of two pages.
pub const ONE_BYTE_MORE: [(Call, Told); 7] = [
    (
        Call::Submit(Sent {
            in_len: 8193,
            ..READ_16
        }),
        Told::Submit(Submit::Queued(1)),
    ),
    (
        Call::Stat,
        Told::Stat(Stat {
            attached: true,
            head: 128,
            used: 128,
            waiting: 1,
            held: 2,
            ..ZEROS
        }),
    ),
    (Call::Dispatch, Told::Job(1)),
    (Call::Handle(1), Told::Reply(0, 8192)),
    (Call::Respond(1), Told::Respond(Respond::Placed)),
    (Call::Publish, MOVED_ONE),
    (Call::Clean, Told::Number(1)),
];

/// The completions of `ONE_BYTE_MORE`.
pub const ONE_BYTE_MORE_LOG: [Finished; 1] = [Finished {
    payload: &[(0x00, 8193)],
    ..DONE
}];

/// A read of 136 KiB needs more than the 16 blocks of two pages there are.
pub const TOO_MANY_LONG_BLOCKS: [(Call, Told); 1] = [(
    Call::Submit(Sent {
        in_len: 139264,
        ..READ_16
    }),
    Told::Submit(Submit::TooBig {
        have: 17,
        limit: 16,
    }),
)];
