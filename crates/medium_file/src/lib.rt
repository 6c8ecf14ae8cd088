//! A medium over a store of bytes, which counts as lost the range of a write that failed.
#![tactic(auto)]

mod file;
mod filling;

pub use file::FileMedium;
