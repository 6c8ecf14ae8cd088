//! Worked examples of the target, as tests: over bytes that a hostile user side left, and of its calls in their order.
#![tactic(auto)]

#[cfg(test)]
mod fixture;
#[cfg(test)]
mod hostile;
#[cfg(test)]
mod orders;
