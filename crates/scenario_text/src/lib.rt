//! Scenario texts: what they say, why other texts are none, and the script of a device in them.
#![tactic(auto)]

mod counts;
mod devices;
mod kinds;
mod lines;
mod names;
mod reading;
mod said;
mod scripts;
mod so_far;
#[cfg(test)]
mod tests;

pub use kinds::{
    Commands, DeviceLine, Devices, Events, InitLine, InitLines, Line, LineKind, Lines, Scenario,
    ScenarioFault, Script,
};
pub use reading::{MOST_TEXT, read_scenario, read_within};
pub use scripts::script;
pub use text_model::Why;
