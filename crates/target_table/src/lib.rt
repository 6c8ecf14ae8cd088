//! The target's commands that are not finished, by id and in the order of their serials.
#![tactic(auto)]

mod pending;
mod table;

pub use pending::Pending;
pub use table::Table;
