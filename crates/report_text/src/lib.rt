//! The text of a journal, line by line, appended to a buffer.
#![tactic(auto)]

mod devices;
mod dumps;
mod events;
mod pieces;
mod report;

pub use report::{
    completion_line, device_text, dump_text, end_text, entry_text, event_line, runs_text,
};
