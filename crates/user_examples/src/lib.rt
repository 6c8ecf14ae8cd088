//! Worked examples of the user side, as tests: over bytes that a hostile kernel left, and of its calls in their order.
#![tactic(auto)]

#[cfg(test)]
mod fixture;
#[cfg(test)]
mod hostile;
#[cfg(test)]
mod orders;
