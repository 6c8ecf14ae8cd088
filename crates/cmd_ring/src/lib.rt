//! The places of the command ring: whether an item has room, where it comes to lie, and what cleaning gives back.
#![tactic(auto)]

mod laws;
mod ring;

pub use laws::places_law;
pub use ring::{Place, Ring, Room};
