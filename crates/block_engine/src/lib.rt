//! A handler that serves SCSI commands for a block device (SPC-4, SBC-3) from any medium.
#![tactic(auto)]

mod blocks;
mod checks;
mod compare;
mod engine;
mod laws;
mod replies;
mod senses;
mod show;
mod unmap;

pub use engine::Engine;
pub use laws::{
    one_reply, one_reply_in_memory, one_reply_without_loss, reads_nothing_lost, request_runs,
    some_reply, stays_in_memory, stays_told, whole_reply,
};
