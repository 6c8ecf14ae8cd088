//! Worked examples of kept devices: tables of asks with their whole journals; as tests, the plain device.
#![tactic(auto)]

#[cfg(test)]
mod asks;
pub mod examples;
#[cfg(test)]
mod fixture;
#[cfg(test)]
mod orders;
#[cfg(test)]
mod rig;
