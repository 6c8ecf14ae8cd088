//! Opcodes, and where the fields of an entry stand, in bytes from its start (`struct tcmu_cmd_entry` and `struct tcmu_tmr_entry` of
//! `linux/target_core_user.h`).

/// The opcode of padding (`TCMU_OP_PAD`).
pub const PAD: u8 = 0;

/// The opcode of a command (`TCMU_OP_CMD`).
pub const COMMAND: u8 = 1;

/// The opcode of a task management entry (`TCMU_OP_TMR`).
pub const TMR: u8 = 2;

/// The flag of a response that tells how many bytes were read (`TCMU_UFLAG_READ_LEN`).
pub const READ_LENGTH_FLAG: u8 = 2;

/// The least bytes of a command's entry.
pub const LEAST_COMMAND: u32 = 112;

/// The least bytes of a task management entry, which names no command.
pub const LEAST_TMR: u32 = 32;

/// The least bytes of any other entry: its header.
pub const HEADER_LEN: u32 = 8;

/// The id of a command's entry, two bytes.
pub const ID: usize = 4;

/// The flags of a response, a byte.
pub const UFLAGS: usize = 7;

/// The number of a command's iovecs, 4 bytes; those of the iovecs for the other direction and for protection information stand behind it.
pub const IOV_COUNT: usize = 8;

pub const BIDI_COUNT: usize = 12;

pub const PROTECTION_COUNT: usize = 16;

/// Where in the region the command descriptor block stands, 8 bytes.
pub const CDB_OFFSET: usize = 24;

/// The first iovec; each has 16 bytes.
pub const IOVECS: usize = 48;

pub const IOV_LEN: usize = 16;

/// The type of a task management entry, a byte.
pub const TMR_TYPE: usize = 8;

/// The number of ids in a task management entry, 4 bytes.
pub const ID_COUNT: usize = 12;

/// The first id in a task management entry; each has two bytes.
pub const IDS: usize = 32;
