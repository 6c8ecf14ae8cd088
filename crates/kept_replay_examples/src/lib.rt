//! Worked examples of replays of what kept devices made.
#![tactic(auto)]

#[cfg(test)]
mod replays;
