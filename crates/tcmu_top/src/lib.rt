//! The top call: what the words ask for, reading a scenario, opening its devices, replaying and writing; and the laws of texts.
#![tactic(auto)]

mod faults;
mod laws;
mod lines;
mod load;
mod opening;
mod reading;
mod several;
mod status;
mod top;
mod words;
mod writing;

pub use laws::{completions_law, files_law, load_law, memory_law, replay_law, text_law};
pub use load::run_load;
pub use status::Status;
pub use text_model::Why;
pub use top::{run_replay, tcmu_top};
