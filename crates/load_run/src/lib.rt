//! The run of a load: its lines are played on its device, and one line sums the replay up.
#![tactic(auto)]

mod load;
mod summary;
mod tally;

pub use load::load_line;
