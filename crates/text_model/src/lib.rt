//! The texts: configs, scenarios and their scripts, journals, and the load; and, over the device, what a replay of a scenario is. The
//! definitions stand in specs/; here are the code types that they cite, and the laws of the scenario language.
#![tactic(auto)]

mod faults;
mod laws;
mod limits;
mod printing;
mod schedules;
mod words;
mod worked;

pub use faults::{ConfigFault, Why};
pub use laws::{config_law, scenario_law, script_law, served_law};
pub use limits::{Limits, SCENARIO_LIMITS};
pub use printing::{printed_law, undumped_law};
pub use schedules::{schedule_again_law, schedule_law};
pub use words::{Subtype, Verb};
pub use worked::load_examples;
