//! What the target refuses of a user side that breaks the ring's rules.
use thiserror::Error;

/// What a hostile user side has done to the ring.
#[derive(Clone, Copy, Debug, PartialEq, Eq, Error)]
pub enum TargetFault {
    /// The mailbox's tail is neither the cleaned place nor an item's end.
    #[error("the tail {tail} is no item's end")]
    BadTail { tail: u32 },
    /// A command's entry before the tail has an id that no command has.
    #[error("no command has the id {id}")]
    Broken { id: u16 },
}
