//! The abstract SCSI device of TCMU and its laws. The definitions stand in specs/, where the contracts of every crate cite them; here are
//! the code types that they cite and the plain functions that compute with them.
#![tactic(auto)]

mod laws_drain;
mod laws_journal;
mod laws_laid;
mod laws_lists;
mod laws_log;
mod laws_ring;
mod laws_sound;
mod laws_states;
mod lengths;
pub mod plain;
mod state;
mod worked;

pub use laws_drain::{drain_empties, drain_ends, drain_goes_on};
pub use laws_journal::{asked_law, cause_law, journal_law};
pub use laws_laid::laid_law;
pub use laws_lists::{block_lists_alone, block_lists_law};
pub use laws_log::{delayed_law, log_law, open_law};
pub use laws_ring::{answers_law, publish_law, ring_law, room_law};
pub use laws_sound::{Answering, events_keep_sound, opening_is_sound, runs_keep_sound};
pub use laws_states::{in_hand_law, placed_law, waiting_law};
pub use lengths::{blocks_of, entry_length, tmr_length};
pub use state::CommandState;
pub use worked::{
    cause_examples, expiry_examples, note_examples, order_examples, reset_examples, room_examples,
    waiting_examples,
};
