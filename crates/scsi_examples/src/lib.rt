//! Worked examples of the SCSI commands over a medium in memory; and requests with their outcomes, for such examples over any handler.
#![tactic(auto)]

#[cfg(test)]
mod decoding;
#[cfg(test)]
mod fixture;
#[cfg(test)]
mod limits;
#[cfg(test)]
mod operations;
#[cfg(test)]
mod pages;
pub mod requests;
