//! What the user side counts.

/// Its place, the commands dispatched, and the answers placed and published since it was attached, the jobs that are parked, and whether a
/// publish would move an item.
#[derive(Clone, Copy, Debug, PartialEq, Eq)]
pub struct UserNumbers {
    pub place: u32,
    pub dispatched: u64,
    pub placed: u64,
    pub published: u64,
    pub parked: u64,
    pub moves: bool,
}
