//! The data that describe a device: INQUIRY data, vital product data, mode data, capacities and the list of logical units.
#![tactic(auto)]

mod capacity;
mod inquiry;
mod mode;
mod units;

pub use capacity::{capacity10, capacity16};
pub use inquiry::{standard_inquiry, vpd_page};
pub use mode::mode_sense;
pub use units::report_luns;
