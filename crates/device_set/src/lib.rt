//! The devices of a run, by name and by number.
#![tactic(auto)]

mod set;

pub use set::DeviceSet;
