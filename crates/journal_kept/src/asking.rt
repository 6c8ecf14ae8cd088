//! What a kept device is asked, and what it tells.
use tcmu_types::Answer;

/// What asks for one event at most.
#[derive(Clone, Copy, Debug, Drop, PartialEq, Eq)]
pub enum Ask {
    /// The next line of the initiator of this number, from 0 on. Where there is none its list is empty.
    Line(u32),
    /// The next event of the administration.
    Admin,
    /// The first of publish, clean, enter and dispatch that applies as in the drain.
    Work,
    /// The handler serves the command of this serial.
    Handle(u64),
    /// The reply of the command of this serial goes to the ring.
    Respond(u64),
}

/// What came of an ask.
#[derive(Debug, Drop)]
pub enum Told {
    /// An event was made: a copy of its answer, which the journal keeps.
    Answered(Answer),
    /// The list is used up.
    NoLine,
    /// None of publish, clean, enter and dispatch applies now, but a line is left, or a command is with its handler.
    Idle,
    /// No line is left, and no event of the drain applies.
    Ended,
}
