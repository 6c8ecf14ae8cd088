//! Sizes that all crates keep to, in bytes.

/// A logical block (SBC-3).
pub const LOGICAL_BLOCK: u32 = 512;

/// A page: a ring has a whole number of them, and so has a data block.
pub const PAGE: u32 = 4096;

/// The most that a ring has.
pub const MOST_RING: u32 = 4_194_304;

/// The most that a command carries, in either direction.
pub const MOST_PAYLOAD: u32 = 1_048_576;
