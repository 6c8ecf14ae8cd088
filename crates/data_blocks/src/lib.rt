//! The data blocks that commands hold, as a set of numbers kept in words of bits.
#![tactic(auto)]

mod bitmap;
mod blocks;
pub mod laws;

pub use blocks::{Blocks, BlocksFault};
