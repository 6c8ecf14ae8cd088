//! The commands that examples send.
use crate::rows::Sent;

/// READ(10) of one logical block at 0.
pub const READ_ONE: Sent = Sent {
    init: "a",
    tag: 1,
    cdb: &[0x28, 0, 0, 0, 0, 0, 0, 0, 1, 0],
    runs: &[],
    in_len: 512,
};

/// `READ_ONE` with another tag.
pub const READ_ONE_MORE: Sent = Sent { tag: 2, ..READ_ONE };

/// READ(10) of one logical block at 1.
pub const READ_AT_1: Sent = Sent {
    tag: 3,
    cdb: &[0x28, 0, 0, 0, 0, 1, 0, 0, 1, 0],
    ..READ_ONE
};

/// READ(10) of one logical block at 2, of another initiator.
pub const READ_AT_2: Sent = Sent {
    init: "b",
    tag: 4,
    cdb: &[0x28, 0, 0, 0, 0, 2, 0, 0, 1, 0],
    ..READ_ONE
};

/// READ(10) of 8 KiB.
pub const READ_16: Sent = Sent {
    cdb: &[0x28, 0, 0, 0, 0, 0, 0, 0, 16, 0],
    in_len: 8192,
    ..READ_ONE
};

/// READ(10) of 64 KiB.
pub const READ_128: Sent = Sent {
    cdb: &[0x28, 0, 0, 0, 0, 0, 0, 0, 128, 0],
    in_len: 65536,
    ..READ_ONE
};

/// READ(10) of 68 KiB.
pub const READ_136: Sent = Sent {
    cdb: &[0x28, 0, 0, 0, 0, 0, 0, 0, 136, 0],
    in_len: 69632,
    ..READ_ONE
};

/// READ(10) of 1 MiB.
pub const READ_2048: Sent = Sent {
    cdb: &[0x28, 0, 0, 0, 0, 0, 0, 8, 0, 0],
    in_len: 1048576,
    ..READ_ONE
};

/// WRITE(10) of three logical blocks at 0, of 11h, 22h and 33h.
pub const WRITE_THREE: Sent = Sent {
    cdb: &[0x2a, 0, 0, 0, 0, 0, 0, 0, 3, 0],
    runs: &[(0x11, 512), (0x22, 512), (0x33, 512)],
    in_len: 0,
    ..READ_ONE
};

/// WRITE(10) of eight logical blocks at 0, of FFh.
pub const WRITE_EIGHT: Sent = Sent {
    cdb: &[0x2a, 0, 0, 0, 0, 0, 0, 0, 8, 0],
    runs: &[(0xff, 4096)],
    in_len: 0,
    ..READ_ONE
};

/// INQUIRY that asks for 64 bytes, and for 36 at most.
pub const INQUIRE: Sent = Sent {
    tag: 3,
    cdb: &[0x12, 0, 0, 0, 36, 0],
    in_len: 64,
    ..READ_ONE
};

/// TEST UNIT READY: it moves no data, and its entry is of 120 bytes.
pub const TEST_UNIT_READY: Sent = Sent {
    cdb: &[0, 0, 0, 0, 0, 0],
    in_len: 0,
    ..READ_ONE
};
