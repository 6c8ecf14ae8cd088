//! What serves the commands of a device, and what it serves them from.
#![tactic(auto)]

mod free_blocks;
mod handler;
mod medium;
mod writing;

pub use free_blocks::FreeBlocks;
pub use handler::{Handler, Request};
pub use medium::Medium;
pub use writing::write_blocks;
