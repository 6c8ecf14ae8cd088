//! Worked examples of replays and loads in which calls of the source, the sink, the files and their stores fail.
#![tactic(auto)]

#[cfg(test)]
mod calls;
#[cfg(test)]
mod devices;
#[cfg(test)]
mod laws;
#[cfg(test)]
mod loads;
#[cfg(test)]
mod program_calls;
#[cfg(test)]
mod replays;
