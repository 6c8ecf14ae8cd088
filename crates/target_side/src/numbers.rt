//! What the target counts.

/// The moment, whether it is blocked, and how many commands it accepted. Of the ring, in bytes: the head, how many are in use, and where
/// these begin. The commands laid and cleared since the last reset, those pending and the expired ones among them, the blocks that these
/// hold, the commands that wait for room, and whether the first of those has room now.
#[derive(Clone, Copy, Debug, PartialEq, Eq)]
pub struct TargetNumbers {
    pub now: u64,
    pub blocked: bool,
    pub accepted: u64,
    pub head: u32,
    pub used: u32,
    pub cleaned: u32,
    pub laid: u64,
    pub cleared: u64,
    pub pending: u32,
    pub expired: u32,
    pub held: u32,
    pub delayed: u64,
    pub enters: bool,
}
