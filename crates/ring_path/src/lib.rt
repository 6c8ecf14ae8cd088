//! A device that is bytes: each event goes by the bytes of a region, over both of its sides. Who asks it can't tell it from a device that
//! is kept as plain lists, but by what it shows.
#![tactic(auto)]

mod hand;
mod path;
mod shown;
mod state;
mod tally;
mod told;

pub use path::{RingPath, Unopened};
pub use shown::Shown;
