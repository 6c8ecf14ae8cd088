//! Worked examples of a device's events: tables of calls with their answers, to which any path can be held.
#![tactic(auto)]

pub mod examples;
pub mod fixture;
pub mod fronts;
mod rig;
pub mod rows;

pub use rig::Rig;

#[cfg(test)]
mod tests;
