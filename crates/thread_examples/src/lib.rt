//! Worked examples of a turn and of loops beside each other, as tests.
#![tactic(auto)]

#[cfg(test)]
mod loops;
#[cfg(test)]
mod turns;
