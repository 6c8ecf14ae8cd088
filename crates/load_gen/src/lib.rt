//! The load: a scenario of reads and writes on one device, which follow from a seed.
#![tactic(auto)]

mod commands;
mod numbers;
mod scenario;

pub use scenario::{load_device, load_lines, load_scenario};
