//! A device that is asked one event at a time by its script, and the journal of what was made.
#![tactic(auto)]

mod asking;
mod counts;
mod entries;
mod kept;
mod laws;
mod picking;
mod plan;

pub use asking::{Ask, Told};
pub use kept::Kept;
pub use laws::{again_law, can_keep_law, receipt_law};
pub use plan::Plan;
