//! The media of devices: in memory and over a file, with a protected bit and calls that fail, and how a config's medium is made.
#![tactic(auto)]

mod configured;
mod make;
mod medium;
mod memory;

pub use configured::Configured;
pub use make::{MakeFault, make_medium};
pub use medium::Media;
pub use memory::MemMedium;
