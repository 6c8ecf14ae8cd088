//! Worked examples of the crates that stand below all others, as tests: plain data, the outside, devices by name, the device's lengths.
#![tactic(auto)]

#[cfg(test)]
mod device_model;
#[cfg(test)]
mod device_names;
#[cfg(test)]
mod event_copies;
#[cfg(test)]
mod outside;
#[cfg(test)]
mod plain_data;
