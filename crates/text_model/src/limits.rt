//! How much a text may have that is read.

/// The most that a reading takes. A line of an event counts as a line too. Every line but the last has a byte of its own, so a text within
/// `bytes` has at most so many lines, and a limit of lines that is as high says nothing.
#[derive(Clone, Copy, Debug, Drop, PartialEq, Eq)]
pub struct Limits {
    /// The most bytes of the text.
    pub bytes: u32,
    /// The most lines that are no device lines and have fields.
    pub lines: u32,
    /// The most lines of events.
    pub events: u32,
}

/// The limits of scenarios.
pub const SCENARIO_LIMITS: Limits = Limits {
    bytes: 4_194_304,
    lines: 20_000,
    events: 20_000,
};
