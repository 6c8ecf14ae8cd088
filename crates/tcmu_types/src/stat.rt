//! The numbers that a device shows, and what its drain finds to do.

/// The clock (ticks), the blocked and attached bits, the ring's head (an offset in bytes) and used bytes, the unfinished commands by
/// state, how many of these are expired, the data blocks held, and the Delayed commands.
#[derive(Clone, Copy, Debug, PartialEq, Eq)]
pub struct Stat {
    /// Ticks since the device was made.
    pub now: u64,
    /// Whether submits are refused with `Busy`.
    pub blocked: bool,
    /// Whether there is a user side; false from a restart to the next reset.
    pub attached: bool,
    /// Where the next item begins, in bytes from the ring's start; a multiple of 8 below the ring's size.
    pub head: u32,
    /// Bytes of the ring's items that are not cleared, padding too; below the ring's size.
    pub used: u32,
    /// Commands that are laid and not dispatched.
    pub waiting: u32,
    /// Commands that are at their handler: dispatched, without a reply.
    pub out: u32,
    /// Commands whose handler replied, before the respond.
    pub handled: u32,
    /// Commands whose answers wait for those of earlier commands; 0 with the flag `ooo`.
    pub parked: u32,
    /// Commands whose answers stand in the ring, until the clean.
    pub placed: u32,
    /// Commands that a restart took from the user side, until the reset.
    pub lost: u32,
    /// Those of the unfinished commands whose timeout is logged; counted by state too.
    pub expired: u32,
    /// Data blocks of all unfinished commands.
    pub held: u32,
    /// Commands that wait for room; 0 where `qfull` is 0. No state above counts them.
    pub delayed: u64,
}

/// What the drain finds to do: the least serial that is Out, the least that is Handled, and whether each of the other events
/// applies. On a detached device nothing does.
#[derive(Clone, Copy, Debug, PartialEq, Eq)]
pub struct Todo {
    /// The least serial that is Out; None where none is.
    pub handle: Option<u64>,
    /// The least serial that is Handled; None where none is.
    pub respond: Option<u64>,
    /// Whether the tail can move over items that it has not passed yet.
    pub publish: bool,
    /// Whether an item is published and not cleared.
    pub clean: bool,
    /// Whether the command that waits longest for room has room now.
    pub enter: bool,
    /// Whether an item is laid and not dispatched.
    pub dispatch: bool,
}
