//! Scatter and gather lists.
use crate::Listed;

/// An iovec: where it begins, as an offset in bytes from the region's start, and how many bytes it has.
#[derive(Clone, Copy, Debug, PartialEq, Eq)]
pub struct Iov {
    /// Bytes from the region's start (`iov_base` in the entry, as the kernel's tcmu-design has it).
    pub base: u64,
    /// In bytes (`iov_len`); 0 is fine.
    pub len: u64,
}

/// Iovecs, in the order in which they are filled.
pub type Iovs = Listed<Iov>;
