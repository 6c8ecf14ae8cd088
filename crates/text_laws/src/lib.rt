//! The laws of the scenario language and the journal language together: what is written is read again.
#![tactic(auto)]

mod lines;
mod memory;
mod pieces;
mod replay;

pub use lines::{
    comments_ignored, completions_ignored, configs_again, devices_again, dumps_told, ends_ignored,
    events_again, pictures_whole,
};
pub use memory::{replay_in_memory_law, text_in_memory_law};
pub use pieces::{
    cdbs_again, flags_again, hex_again, numbers_again, rising_again, runs_again, serials_again,
};
pub use replay::{
    carried_law, journal_text_law, one_text_law, reading_law, replay_text_law, scenario_replay_law,
    spelled_law,
};
