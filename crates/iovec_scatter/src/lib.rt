//! Scatter and gather: the iovecs of a payload along data blocks, and data blocks as values of their own.
#![tactic(auto)]

mod block;
mod laws;
mod payload;

pub use block::{Block, Parts, gather, scatter};
pub use laws::{ends_along, gathers_again};
pub use payload::iovs_of;
