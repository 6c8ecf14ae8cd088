//! Commands that wait for room, and the completions of commands that no handler answered.
#![tactic(auto)]

mod closings;
mod waiting;

pub use closings::{
    COMMUNICATION_TIME_OUT, INTERNAL_TARGET_FAILURE, closing, ending, reset_completion,
    reset_ending,
};
pub use waiting::{DelayedCommand, DelayedCommands};
