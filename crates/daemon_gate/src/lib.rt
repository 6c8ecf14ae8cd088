//! Loops that run beside each other, each in a thread where one can be made.
#![tactic(auto)]

mod beside;

pub use beside::{Lane, Lanes, run_all};
