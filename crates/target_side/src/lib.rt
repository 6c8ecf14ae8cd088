//! The target's side of a region: it lays commands in the ring, keeps them until they are finished, and takes their answers out, whatever
//! bytes the user side leaves there.
#![tactic(auto)]

mod books;
mod cleaning;
mod commands;
mod completing;
mod entering;
mod entrant;
mod entries;
mod fault;
mod item;
mod noting;
mod numbers;
mod places;
mod resetting;
mod showing;
mod submitting;
mod target;
mod ticking;
mod writing;

pub use fault::TargetFault;
pub use item::RingItem;
pub use numbers::TargetNumbers;
pub use target::Target;
pub use target_table::Pending;
