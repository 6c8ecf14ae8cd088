//! The texts of the faults that libraries answer, as tests.
#![tactic(auto)]

#[cfg(test)]
mod sides;
#[cfg(test)]
mod texts;
