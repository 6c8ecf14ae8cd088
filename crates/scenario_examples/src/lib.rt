//! Worked examples of scenario texts, as tests: texts that are scenarios, and the first faults of others, each rule at each place where it can be broken.
#![tactic(auto)]

#[cfg(test)]
mod device_lines;
#[cfg(test)]
mod devices;
#[cfg(test)]
mod fixture;
#[cfg(test)]
mod limits;
#[cfg(test)]
mod other_lines;
#[cfg(test)]
mod scripts;
